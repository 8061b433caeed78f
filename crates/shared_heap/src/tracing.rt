//! A shared world lends its tracers and dismisses them, and frees its heap.
ghost use Rattle.std.specs.Prelude.{◌≡◌, ◌<◌, ◌++◌, [], ◌∷◌, IfErr, IfNone, IfSome, OnOk, vec_len};
ghost use Rattle.std.specs.Bool.{OnFalse, OnTrue};
ghost use Rattle.gc_table.specs.Seats.{Across};
ghost use Rattle.stop_world.specs.Gates.{TurnsBack};
ghost use Rattle.seat_turns.specs.TracerTries.{Dismisses, DismissesInside};
ghost use Rattle.shared_heap.specs.Lending.{AreAllBack, HasAllStill, KeepsRest, TakesNoTracer};

use crate::world::SharedWorld;
use seat_turns::{Tracer, tell_dismissed, try_dismiss};
use std::sync::Wait;

impl SharedWorld {
    /// A tracer that nobody has; None if all are taken.
    pub fn tracer(&mut self) -> Option<Tracer>
        ensures some { IfSome result (λ t. self.old.tracers.items ≡ self.new.tracers.items ++ t ∷ []) }
        ensures none { IfNone result (self.old.tracers.items ≡ []) }
        ensures still { IfNone result (self.new.tracers.items ≡ []) }
        ensures rest { KeepsRest self.old self.new × (self.new.mutators ≡ self.old.mutators) }
    {
        self.tracers.pop()
    }

    fn lacks_tracer(&self, name: u32) -> bool
        ensures lacks { OnTrue result ((name ≡ self.now.sizes.name) × (vec_len self.now.tracers < self.now.sizes.tracers)) }
        ensures none { OnFalse result (TakesNoTracer name self.now) }
    {
        name == self.sizes.name && self.tracers.len() < self.sizes.tracers as usize
    }

    /// Takes a tracer back. It is handed back only if it has another world's name, or all of this world's are back.
    pub fn take_tracer(&mut self, tracer: Tracer) -> Result<(), Tracer>
        ensures back { OnOk result (self.new.tracers.items ≡ self.old.tracers.items ++ tracer ∷ []) }
        ensures out { OnOk result ((tracer.name ≡ self.old.sizes.name) × (vec_len self.old.tracers < self.old.sizes.tracers)) }
        ensures refused { IfErr result (λ t. t ≡ tracer) }
        ensures cause { IfErr result (λ _. TakesNoTracer tracer.name self.old) }
        ensures kept { IfErr result (λ _. self.new.tracers.items ≡ self.old.tracers.items) }
        ensures rest { KeepsRest self.old self.new × (self.new.mutators ≡ self.old.mutators) }
    {
        if !self.lacks_tracer(tracer.name()) {
            return Err(tracer);
        }
        self.tracers.push_reserved(tracer);
        Ok(())
    }

    /// Dismisses the tracers: each that runs ends, also one that sleeps, and each later turn answers so.
    pub fn dismiss_tracers<R: Wait>(&mut self, rt: &R)
        ensures dismisses { Across DismissesInside self.old.zero self.new.zero }
        ensures rest { HasAllStill self.old self.new }
    {
        tell_dismissed(rt, &self.heap, &mut self.zero);
    }

    /// [`dismiss_tracers`](SharedWorld::dismiss_tracers) without waiting: false if a stop is under way. A tracer that
    /// sleeps isn't woken.
    pub fn try_dismiss_tracers(&mut self) -> bool
        ensures dismisses { OnTrue result (Across Dismisses self.old.zero self.new.zero) }
        ensures turns { OnFalse result (Across TurnsBack self.old.zero self.new.zero) }
        ensures rest { HasAllStill self.old self.new }
    {
        try_dismiss(&self.heap, &mut self.zero)
    }

    fn has_all(&self) -> bool
        ensures all { OnTrue result (AreAllBack self.now) }
        ensures missing { OnFalse result (AreAllBack self.now → ⊥) }
    {
        self.mutators.len() == self.sizes.mutators as usize
            && self.tracers.len() == self.sizes.tracers as usize
    }

    /// Frees the heap, and hands out no words. The world is handed back exactly if a mutator or a tracer isn't back.
    pub fn free(self) -> Result<(), SharedWorld>
        ensures freed { OnOk result (AreAllBack self) }
        ensures refused { IfErr result (λ world. (world ≡ self) × (AreAllBack self → ⊥)) }
    {
        if self.has_all() {
            return Ok(());
        }
        Err(self)
    }
}
