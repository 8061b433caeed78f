//! Why a call did nothing.

use thiserror::Error;

/// Why a mutator's call did nothing. The objects and variables are as before.
#[derive(Clone, Copy, Debug, PartialEq, Eq, Drop, Error)]
pub enum Refused {
    /// A variable is not below 32, or a field not below the world's number of fields.
    #[error("a variable or a field is out of range")]
    OutOfRange,
    /// The mutator is outside the world: it is to enter first.
    #[error("the mutator is outside the world")]
    Outside,
    /// The variable refers to no object.
    #[error("the variable refers to no object")]
    Nil,
    /// The reachable objects fill all cells, for good. The mutator is outside the world.
    #[error("the heap is full")]
    Full,
    /// The mutator has made 4,294,967,295 objects, which are all that have numbers.
    #[error("the mutator has made all objects that have numbers")]
    Spent,
}

/// Why a world wasn't opened.
#[derive(Clone, Copy, Debug, PartialEq, Eq, Drop, Error)]
pub enum NotOpened {
    /// A size is out of its range.
    #[error("a size is out of its range")]
    OutOfRange,
    /// There is no memory for the heap.
    #[error("out of memory")]
    OutOfMemory,
}
