//! A mutator in steps that never wait, in either kind of world.
//!
//! A [`Stepper`] owns its seat, and its type keeps where the seat stands. Each call is one try: if a stop is under way
//! or the heap is full, the seat is outside the world afterwards, and the answer says why ([`Came`]).
//!
//! The calls are in `stepping`, `asking` and `refills`, those of a world that shares its objects in `acting`,
//! `spilling`, `knowing`, `weak` and `deaths`; the collection is in `steps`, `sharing` and `sweeps`, and help in another's in `helping`. What
//! they do with the heap and the seat is in `tries`, `operations`, `getting` and `seeking`.
#![tactic(auto)]

ghost use Rattle.seat_steps.specs.Received.{DeathKnown, DeathReceived, DeathsTold, TakingsSeen};
ghost use Rattle.seat_steps.specs.Stamping.{SteppersInOrder};
ghost use Rattle.seat_steps.specs.Taken.{TakenStays};

mod acting;
mod asking;
mod came;
mod deaths;
mod getting;
mod handing;
mod helping;
mod knowing;
mod operations;
mod payments;
mod refills;
mod resting;
mod seeking;
mod sharing;
mod spilling;
mod stamping;
mod stepper;
mod stepping;
mod steps;
mod sweeps;
mod telling;
mod tries;
mod weak;

pub use came::Came;
pub use resting::RestingSeat;
pub use stamping::Stamp;
pub use stepper::{Stage, Stepper};
pub use tries::pass_once;

/// What a stepper does after it came [`after`](Stepper::after) a stamp stands behind all that the stamp's mutator had done,
/// in each later run, and in that of the closed world.
pub fn steppers_in_order()
    ensures { SteppersInOrder }
{}

/// A weak reference that a stepper has taken it has taken for good, so [`upgrade`](Stepper::upgrade) and
/// [`death`](Stepper::death) tell it the object's death however many calls lie between.
pub fn taken_stays()
    ensures { TakenStays }
{}

/// Whoever took a weak reference: once a mutator has found the object's cell free, or another object there, no path leads
/// to the object, nor ever will, at the end of each history that has all this.
pub fn death_known()
    ensures { DeathKnown }
{}

/// Who came [`after`](Stepper::after) a stamp of whoever had taken a weak reference, or had seen somebody take it, has seen
/// so too. In each history that goes on from there it was taken before what the mutator does next.
pub fn takings_seen()
    ensures { TakingsSeen }
{}

/// So a stepper that came after a stamp of the one that took the weak reference is told the object's death as that one is,
/// however many calls lie between.
pub fn death_received()
    ensures { DeathReceived }
{}

/// What [`weak`](Stepper::weak), [`upgrade`](Stepper::upgrade) and [`death`](Stepper::death) answer tells all this by itself,
/// so it does where a call of another library says no more than that.
pub fn deaths_told()
    ensures { DeathsTold }
{}
