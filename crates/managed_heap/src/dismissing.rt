//! A world dismisses its tracers.
ghost use Rattle.std.specs.Bool.{OnFalse, OnTrue};
ghost use Rattle.gc_table.specs.Seats.{Across};
ghost use Rattle.stop_world.specs.Gates.{TurnsBack};
ghost use Rattle.managed_heap.specs.Lending.{HasAllStill};
ghost use Rattle.seat_turns.specs.TracerTries.{Dismisses, DismissesInside};

use crate::world::World;
use seat_turns::{tell_dismissed, try_dismiss};
use std::sync::Wait;

impl World {
    /// Dismisses the tracers: each that runs ends, also one that sleeps, and each later turn answers so.
    pub fn dismiss_tracers<R: Wait>(&mut self, rt: &R)
        ensures dismisses { Across DismissesInside self.old.zero self.new.zero }
        ensures rest { HasAllStill self.old self.new }
    {
        tell_dismissed(rt, &self.heap, &mut self.zero);
    }

    /// [`dismiss_tracers`](World::dismiss_tracers) without waiting: false if a stop is under way. A tracer that sleeps
    /// isn't woken.
    pub fn try_dismiss_tracers(&mut self) -> bool
        ensures dismisses { OnTrue result (Across Dismisses self.old.zero self.new.zero) }
        ensures turns { OnFalse result (Across TurnsBack self.old.zero self.new.zero) }
        ensures rest { HasAllStill self.old self.new }
    {
        try_dismiss(&self.heap, &mut self.zero)
    }
}
