//! A heap that collects its own garbage, for a runtime to stand on.
//!
//! A [`World`] is a heap that threads share. A thread acts on it through a [`Mutator`]; a [`Tracer`] marks beside
//! the mutators, if a processor is free for it. Each keeps the facts that the crates below ask for inside its type.
//! So each call is total: it asks its caller for no proof, and answers what happened. Only [`World::into_words`],
//! which hands out the run of all threads, asks that what is handed in is the world's.
//!
//!     let mut world = World::open(alloc, Sizes::of_cells(4096).fields(2).mutators(2))?;
//!     let mut m = world.mutator()?;
//!     m.enter(&rt)?;
//!     m.make(&rt, 0, 7)?;      // variable 0 refers to a new object with value 7
//!     m.set(0, 1, 0)?;         // its field 1 refers to itself
//!     m.leave();
//!
//! # Objects and variables
//!
//! An object has a value of 32 bits and as many references as the world's sizes say, 1 to 16. A mutator has 32
//! *variables*, 0 to 31. They are its roots: what they reach is kept, and all else is garbage. No call hands out a
//! reference, so the collector misses none. Each mutator has objects of its own, which no other reads or changes.
//!
//! # What a mutator is told
//!
//! What a call does is told over a *plain heap*, which forgets nothing: its objects by their numbers, and what each
//! variable refers to ([`heap_of`](specs/Calls.antt)). `make`, `set`, `get`, `put`, `copy` and `forget` are one
//! operation of it each; the other calls change nothing of it. So a program is proved against a heap without a
//! collector.
//!
//! # Inside and outside
//!
//! A mutator is *inside* the world or *outside* it. Objects are made, read and changed inside. A collection stops
//! the world: it waits until each mutator that is inside comes to a safe point or leaves. So a loop that runs long
//! has a safe point (`make` is one), and a thread that waits for anything, as input or another thread, leaves
//! first. What it refers to is kept meanwhile.
//!
//! # What is final
//!
//! If a precise collection leaves no cell free, the heap is *full*, for good: each mutator is told by
//! [`Refused::Full`], and is outside then. A mutator that has made 4,294,967,295 objects is *spent*
//! ([`Refused::Spent`]): it can do all but make another.
//!
//! # Where things are
//!
//! `seat_turns` has tracers, what a mutator does with its seat, and why a call did nothing; `seat_steps` has mutators
//! that don't wait. `shared_heap` takes from here what does not depend on the kind of mutator: [`Lent`] and
//! [`Opened`], sizes and numbers, how tracers are dealt out, and how a world is closed with all that it lent.
#![tactic(auto)]

ghost use Rattle.managed_heap.specs.Threads.{ThreadsRun, WordsStand};
ghost use Rattle.managed_heap.specs.Working.{CollectionsAreBounded};

mod calls;
mod closing;
mod dealing;
mod dealt_tracers;
mod dismissing;
mod gathered;
mod gathered_close;
mod gathering;
mod handing;
mod lending;
mod lent;
mod mutator;
mod numbers;
mod opening;
mod reading;
mod sizes;
mod taking;
mod world;

pub use cache_refills::Watch;
pub use dealt_tracers::deal_tracers;
pub use gathered::Gathered;
pub use gathered_close::{NotClosed, Unclosed, close_world};
pub use gc_cycle::{Counts, Paid};
pub use gc_table::Words;
pub use lent::{Lent, Opened};
pub use mutator::Mutator;
pub use numbers::{Statistics, read_statistics};
pub use seat_steps::{Came, Stage, Stepper};
pub use seat_turns::{NotOpened, Refused, Tracer, TryTurn, Turn};
pub use sizes::Sizes;
pub use taking::first_of;
pub use world::World;

/// What the threads of a closed world did is one run of the core: each thread's steps come in their order, and
/// nobody else takes part. No event of it frees a cell that is reachable just before.
#[tactic(auto, using(crate::proofs::Threads::threads))]
pub fn threads_run()
    ensures { ThreadsRun }
{}

/// The words of a closed world are the plain heaps of its mutators: each root and each object that a path reaches are
/// what the mutator's calls made of them.
pub fn words_stand()
    ensures { WordsStand }
{}

/// Between two of a mutator's collections all that marking and cleaning come to, of all threads together, is bounded by
/// numbers: cells marked, deferred and popped, fields read, cards dirtied and cleaned. So is it until each end of a cycle
/// since any earlier moment without one.
pub fn collections_bounded()
    ensures { CollectionsAreBounded }
{}
