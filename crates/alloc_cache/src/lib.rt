//! Blocks in which mutators make cells.
//!
//! A mutator claims a block of 64 cells, its *cache*, and reads once which of them are free. Then it makes one after
//! another by stores into words that nobody else touches ([`new_cell`]). A cell that was made is *used*: a variable of
//! the mutator refers to it and nobody can take it, but its allocation bit isn't set yet. One step publishes all used
//! cells of a cache ([`publish`]).
//!
//! # Why cells are published together
//!
//! A tracer that reads a field of a cell must find what its maker stored there. A step for each cell would be a write
//! to a word that tracers read. So the allocation word is written once per cache, and a tracer defers a used cell that
//! isn't published. These are the allocation caches and allocation bits of Barabash and others, TOPLAS 2005.
//!
//! # The search
//!
//! [`claim`] begins behind the block that the seat claimed last, so seats spread over the heap and don't look again at
//! blocks that they filled. No lock is held, so a block may be free again when it answers None.
#![tactic(auto)]

mod cache;
mod claiming;
mod making;
mod retiring;

pub use cache::{Cache, cache_of, leave_with_seat};
pub use claiming::{Search, claim, claim_some};
pub use making::new_cell;
pub use retiring::{publish, retire};
