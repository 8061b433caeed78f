//! Out of memory.

/// Memory ran out. What was asked for was not done, and nothing has changed.
#[derive(Clone, Copy, Debug, PartialEq, Eq)]
pub struct OutOfMemory;
