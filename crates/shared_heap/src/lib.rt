//! A heap whose objects all its mutators share, and which collects its own garbage.
//!
//! A [`SharedWorld`] is a heap; a thread acts on it through a [`SharedMutator`], which has 32 variables of its own.
//! All mutators begin at one object, the *root*, which the world makes when it is opened ([`SharedMutator::root`]).
//! What one stores in a field, the others find there.
//!
//!     let mut world = SharedWorld::open(alloc, SharedSizes::of_cells(1024).fields(2).mutators(2))?;
//!     let mut m = world.mutator()?;
//!     m.enter(&rt)?;
//!     m.root(0)?;              // variable 0 refers to the root
//!     m.make(&rt, 1, 7)?;      // variable 1 refers to a new object with value 7
//!     m.set(0, 1, 1)?;         // field 1 of the root refers to it: from now on any mutator may find it there
//!     m.leave();
//!
//! # What a mutator is told
//!
//! A call is described by the *steps* that it takes, each an atomic operation on one word, and by what they found.
//! There is one order of all steps of all mutators, in which each mutator's come in its own order, and which a
//! plain heap explains that forgets nothing: `gc_table` proves this of every run. It is sequential
//! consistency: what a thread learns of another outside the heap says nothing about that order.
//!
//! Inside and outside, and what is final, are as in `managed_heap`.
#![tactic(auto)]

ghost use Rattle.shared_heap.specs.Counting.{CounterClosed, CounterRead, LockClosed};
ghost use Rattle.shared_heap.specs.Deaths.{DeathReceived, TakenStays};
ghost use Rattle.shared_heap.specs.Finding.{CallsFind, FieldFound, SteppersFind, UpgradeFound, ValueFound};
ghost use Rattle.shared_heap.specs.Stamping.{CallsInOrder};
ghost use Rattle.shared_heap.specs.Threads.{ThreadsRun};

mod calls;
mod closing;
mod comparing;
mod dealing;
mod exchanging;
mod handing;
mod identity;
mod lending;
mod mutator;
mod opening;
mod passing;
mod planning;
mod reading;
mod slots;
mod stamping;
mod tracing;
mod weak;
mod world;

pub use gc_table::Words;
pub use managed_heap::{
    Gathered, NotClosed, Sizes as SharedSizes, Statistics as SharedStatistics, Unclosed,
};
pub use mutator::{Place, SharedMutator};
pub use reading::root_value;
pub use seat_steps::{Came, Stage, Stamp, Stepper};
pub use seat_turns::{NotOpened, Refused, Tracer, TryTurn, Turn, Upgraded, Weak};
pub use world::SharedWorld;

/// What the threads of a closed world did is one run: each thread's steps come in their order, and nobody else takes
/// part. After each step the words agree with one plain heap that forgets nothing, each step found what this heap had,
/// and no thread that asked for the root found nil.
#[tactic(auto, using(crate::proofs::RootRead::reading))]
pub fn threads_run()
    ensures { ThreadsRun }
{}

/// What a mutator's call finds while the world is open is what one plain heap had at the moment of that step: the one
/// that all events before it made, of which the mutator's log is its part.
#[tactic(auto, using(crate::proofs::Finding::finding))]
pub fn calls_find()
    ensures { CallsFind }
{}

/// So it is with a mutator in steps, as programs in C have them.
#[tactic(auto, using(crate::proofs::Finding::finding))]
pub fn steppers_find()
    ensures { SteppersFind }
{}

/// So [`value`](SharedMutator::value) answers the value that the object had in this heap.
pub fn value_found()
    ensures { ValueFound }
{}

/// And what [`get`](SharedMutator::get) found is the reference that the object's field had in it.
pub fn field_found()
    ensures { FieldFound }
{}

/// And what [`upgrade`](SharedMutator::upgrade) found in the cell is what it had there: the object, whole, or none or
/// another. Then the weak reference's object is lost in this heap. By `gc_table::death_told` that is so of each weak
/// reference that was ever given out.
pub fn upgrade_found()
    ensures { UpgradeFound }
{}

/// A weak reference that a mutator has taken it has taken for good, so [`upgrade`](SharedMutator::upgrade) tells it the
/// object's death however many calls lie between.
pub fn taken_stays()
    ensures { TakenStays }
{}

/// Whoever came [`after`](SharedMutator::after) a stamp of the mutator that took a weak reference is told the object's
/// death as that one is, however many calls lie between.
pub fn death_received()
    ensures { DeathReceived }
{}

/// What a mutator does after it came [`after`](SharedMutator::after) a stamp stands behind all that the stamp's mutator had
/// done, in each later run, and in that of the closed world.
pub fn calls_in_order()
    ensures { CallsInOrder }
{}

/// If the mutators of a closed world made no object, and changed values only by exchanges of a number for the next,
/// the root's value at the end is the number of exchanges won.
pub fn counter_closed()
    ensures { CounterClosed }
{}

/// That is what [`root_value`] reads in the words of the closed world.
pub fn counter_read()
    ensures { CounterRead }
{}

/// If they made no object, and each exchanged a value only from 0 to 1 while it was outside and from 1 to 0 while
/// it was inside, no two were inside at any moment.
pub fn lock_closed()
    ensures { LockClosed }
{}
