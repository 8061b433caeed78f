//! The answers of calls that don't wait.

/// What a call came to. If it isn't `Done`, objects are as before, and so are variables, but for `Dead`.
#[derive(Clone, Copy, Debug, PartialEq, Eq, Drop)]
pub enum Came {
    /// It is done.
    Done,
    /// A collection or a refill is under way: the next step is to be taken.
    NotYet,
    /// Another's stop is under way: the mutator is outside now.
    Stopped,
    /// No cell is free, or marking is done: a collection is called for.
    NoCell,
    /// No cell of the mutator's cache is free: it is to be refilled.
    NoCache,
    /// The mutator is outside the world: it is to enter first.
    Outside,
    /// The mutator is between two steps of a collection.
    Collecting,
    /// A variable is not below 32, or a field not below the world's number of fields.
    OutOfRange,
    /// The variable refers to no object.
    Nil,
    /// The reachable objects fill all cells, for good. The mutator is outside the world.
    Full,
    /// The mutator has made 4,294,967,295 objects, which are all that have numbers.
    Spent,
    /// The world's mutators don't share their objects.
    NotShared,
    /// Another mutator made the object and hasn't published it yet: nothing tells its death.
    Unpublished,
    /// The weak reference's object is dead. The variable refers to nothing.
    Dead,
    /// The weak reference, or the stamp, is another world's.
    OtherWorld,
    /// The mutator is inside the world: only one outside helps.
    Inside,
    /// No stop is open to helpers, or there was nothing left to do in it.
    NoHelp,
}
