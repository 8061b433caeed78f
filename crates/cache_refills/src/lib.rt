//! A mutator's cache, and what it pays for it: when a cycle begins, how much is traced for a cache, and when the
//! world is stopped on the way to one.
//!
//! The mutators' work moves a cycle on, as in Ossia and others, "A parallel, incremental and concurrent GC for
//! servers" (2002). New against it is that each seat proves of its own steps what they did.
//!
//! # A refill
//!
//! 1. If free cells run short by the numbers of the last cycle, the mutator begins one (`pace`).
//! 2. While a cycle marks it pays (`paying`): it scans its own roots and those of another section, passes the next
//!    cards early in the cycle (`early`), and traces its quota ([`quota_of`]), or [`floor_of`] where that is more.
//! 3. It claims a block with a free cell. If none has one, or marking is done, it stops the world and ends the
//!    cycle (`finish_cycle` of `gc_cycle`), or collects precisely, and claims in the stop (`claiming`).
//! 4. If every allocation word is all ones after a precise collection, the heap is full.
//!
//! `refilling` does this in rounds, `in_stops` for a mutator that collects only in stops, `trying` for a caller
//! that can't wait, `pieces` for one that may not take long either. In `specs/`, `Pace` says when a cycle is due,
//! what is owed and what is paid, `Refilling` what a round does, and `Getting` what a refill answers.
#![tactic(auto)]

mod claiming;
mod early;
mod in_stops;
mod pace;
mod paying;
mod pieces;
mod quota;
mod refilling;
mod trying;
mod watching;

pub use in_stops::refill_in_stops;
pub use pace::{is_far_on, kick_off};
pub use pieces::{Piece, try_refill_some};
pub use quota::{floor_of, quota_of};
pub use refilling::{refill, refill_watched};
pub use trying::{Pass, try_enter, try_refill, try_safe_point};
pub use watching::{Unwatched, Watch};
