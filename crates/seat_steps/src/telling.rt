//! How far a stepper's collection is, and how much it has traced.
ghost use Rattle.std.specs.Prelude.{◌≡◌};
ghost use Rattle.mark_core.specs.Seats.{saw};
ghost use Rattle.mark_core.specs.declared.kinds.Phase.TheVariants.{Marking};
ghost use Rattle.gc_table.specs.Seats.{state_of};
ghost use Rattle.seat_steps.specs.Steps.{counts_of};

use crate::stepper::{Stage, Stepper};
use gc_cycle::Counts;
use gc_table::HeapSeat;
use mark_core::Phase;

pub(crate) fn read_marking(seat: &HeapSeat) -> bool
    ensures marking { result ≡ saw (state_of seat.now).phase_seen Marking }
{
    match seat.state().phase_seen {
        Some(Phase::Marking) => true,
        _ => false,
    }
}

impl Stepper {
    /// Where it stands.
    pub fn stage(&self) -> Stage
        ensures stage { result ≡ self.now.stage }
    {
        self.stage
    }

    /// How many cells its collection freed, from the sweep on; how many are in use, once it is at [`Stage::Ending`];
    /// and how many objects it scanned again, from the roots on.
    pub fn counts(&self) -> Counts
        ensures counts { result ≡ counts_of self.now }
    {
        Counts {
            marked: self.counted,
            freed: self.freed,
            rescanned: self.rescanned,
        }
    }

    /// How many objects its collection has traced, from the roots on.
    pub fn traced(&self) -> u32
        ensures traced { result ≡ self.now.traced }
    {
        self.traced
    }

    /// How many cards its collection has cleaned, from the roots on.
    pub fn cleaned(&self) -> u32
        ensures cleaned { result ≡ self.now.cleaned }
    {
        self.cleaned
    }

    /// How many objects it has traced to pay for its caches.
    pub fn paid(&self) -> u64
        ensures paid { result ≡ self.now.paid }
    {
        self.paid
    }

    /// Whether its collection leaves no garbage, from the roots on: it is precise, or no cycle was marking as the world
    /// stopped.
    pub fn is_exact(&self) -> bool
        ensures exact { result ≡ self.now.exact }
    {
        self.exact
    }

    /// Whether its collection is to mark once more.
    pub fn is_to_mark_again(&self) -> bool
        ensures again { result ≡ self.now.again }
    {
        self.again
    }

    /// Whether it read last that a cycle is marking.
    pub fn saw_marking(&self) -> bool
        ensures marking { result ≡ saw (state_of self.now.seat).phase_seen Marking }
    {
        read_marking(&self.seat)
    }
}
