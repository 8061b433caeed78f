//! One step: the operation of the table, and the seat's record after it.
//!
//! Both calls hand the step to the operation below them, which is told at `Brand` which step it is (see `PicksStep`).
ghost use Rattle.std.specs.Prelude.{◌≡◌, IsFalse, IsTrue};
ghost use Rattle.mark_core.specs.Effects.{place, written};
ghost use Rattle.mark_core.specs.Layout.{address as address_of};
ghost use Rattle.gc_table.specs.Entries.{is_store};
ghost use Rattle.gc_table.specs.Operations.{left_by, Writes};
ghost use Rattle.gc_table.specs.Seats.{Across, Found, Sits, state_of, Stored, view_of};
ghost use Rattle.gc_table.specs.Taking.{Asked, IsBlind, IsOwn, May};

use crate::operations::Operation;
use crate::seat::{Heap, HeapSeat};
use mark_core::{SeatState, Step, act, address_by};
use std::marker::Brand;

impl Heap {
    #[inline(always)]
    fn address(&self, s: &SeatState, step: &Step) -> usize
        ensures { result ≡ address_of self.now.shape (place self.now.shape s.now step.now) }
    {
        address_by(&self.bases, s, step)
    }

    #[inline(always)]
    pub(crate) fn take_step(&self, seat: &mut HeapSeat, operation: Operation, step: Step) -> u64
        requires seat { Sits self.now seat.old }
        requires may { May step (view_of seat.old) }
        requires own { IsOwn step }
        requires asked { Asked step (view_of seat.old) }
        requires kind { Writes step (left_by operation) (view_of seat.old) }
        requires told { IsFalse (is_store step) }
        ensures seat { Sits self.now seat.new }
        ensures view { Across (Found step result) seat.old seat.new }
    {
        let word = self.address(&seat.state, &step);
        let found = self.take_told::<Brand>(&mut seat.token, word, operation, step);
        act(&self.shape, &mut seat.state, &step, found);
        found
    }

    /// Stores a word, whatever is there, and tells what it stored.
    #[inline(always)]
    pub(crate) fn store_step(&self, seat: &mut HeapSeat, step: Step) -> u64
        requires seat { Sits self.now seat.old }
        requires may { May step (view_of seat.old) }
        requires own { IsOwn step }
        requires asked { Asked step (view_of seat.old) }
        requires blind { IsBlind step (view_of seat.old) }
        requires told { IsTrue (is_store step) }
        ensures seat { Sits self.now seat.new }
        ensures view { Across (Stored step) seat.old seat.new }
        ensures word { result ≡ written (view_of seat.old).shape (state_of seat.old) step 0 }
    {
        let word = self.address(&seat.state, &step);
        let new = act(&self.shape, &mut seat.state, &step, 0);
        self.store_told::<Brand>(&mut seat.token, word, new, step);
        new
    }
}
