//! A world is opened and closed, and lends its mutators and tracers.
ghost use Rattle.std.specs.Prelude.{◌≡◌, ◌<◌, ◌++◌, [], ◌∷◌, IfErr, IfNone, IfOk, IfSome, OnOk, vec_len};
ghost use Rattle.std.specs.Bool.{OnFalse, OnTrue};
ghost use Rattle.std.specs.Arc.{arc_value};
ghost use Rattle.mark_core.specs.Numbers.{named_number};
ghost use Rattle.mark_core.specs.declared.kinds.Step.TheVariants.{ReadStat};
ghost use Rattle.gc_table.specs.Running.{Ran};
ghost use Rattle.gc_table.specs.Seats.{Across, Found, state_of, view_of};
ghost use Rattle.managed_heap.specs.Calls.{MutatorLeft};
ghost use Rattle.managed_heap.specs.Lending.{AreAllBack, FitsWorld, HasAllStill, IsBack, IsOpened, KeepsRest, TakesNoMutator, TakesNoTracer};
ghost use Rattle.seat_turns.specs.Standing.{RestsOutside};
ghost use Rattle.seat_turns.specs.declared.refused.NotOpened.TheVariants.{OutOfRange};
ghost use Rattle.managed_heap.specs.Numbers.{ReadsStatistics};

use crate::dealing::open_fitting;
use crate::mutator::Mutator;
use crate::numbers::{Statistics, read_statistics};
use crate::sizes::Sizes;
use crate::world::World;
use gc_table::{Heap, HeapSeat};
use mark_core::NAMED_SECTION;
use seat_turns::{NotOpened, Tracer};
use std::alloc::Global;

fn read_named(heap: &Heap, seat: &mut HeapSeat) -> u64
    requires rests { RestsOutside heap.now seat.old }
    ensures rests { RestsOutside heap.now seat.new }
    ensures read { Across (Found (ReadStat named_number) result) seat.old seat.new }
    ensures ran { Across Ran seat.old seat.new }
    ensures section { (state_of seat.new).section ≡ (state_of seat.old).section }
{
    heap.read_stat(seat, NAMED_SECTION)
}

impl World {
    /// A world of these sizes, in which nothing has happened. Refused if a size is out of its range, slots are asked
    /// for, or there is no memory.
    pub fn open(alloc: Global, sizes: Sizes) -> Result<World, NotOpened>
        ensures opened { IfOk result (λ w. IsOpened sizes w) }
        ensures refused { IfErr result (λ e. e ≡ OutOfRange → FitsWorld sizes → ⊥) }
    {
        if !sizes.fit() || sizes.slots != 0 {
            return Err(NotOpened::OutOfRange);
        }
        open_fitting(alloc, sizes)
    }

    /// A mutator that nobody has, outside the world; None if all are taken.
    pub fn mutator(&mut self) -> Option<Mutator>
        ensures some { IfSome result (λ m. self.old.mutators.items ≡ self.new.mutators.items ++ m ∷ []) }
        ensures none { IfNone result (self.old.mutators.items ≡ []) }
        ensures still { IfNone result (self.new.mutators.items ≡ []) }
        ensures rest { KeepsRest self.old self.new × (self.new.tracers ≡ self.old.tracers) }
    {
        self.mutators.pop()
    }

    /// A tracer that nobody has; None if all are taken.
    pub fn tracer(&mut self) -> Option<Tracer>
        ensures some { IfSome result (λ t. self.old.tracers.items ≡ self.new.tracers.items ++ t ∷ []) }
        ensures none { IfNone result (self.old.tracers.items ≡ []) }
        ensures still { IfNone result (self.new.tracers.items ≡ []) }
        ensures rest { KeepsRest self.old self.new × (self.new.mutators ≡ self.old.mutators) }
    {
        self.tracers.pop()
    }

    fn lacks_mutator(&self, name: u32) -> bool
        ensures lacks { OnTrue result ((name ≡ self.now.sizes.name) × (vec_len self.now.mutators < self.now.sizes.mutators)) }
        ensures none { OnFalse result (TakesNoMutator name self.now) }
    {
        name == self.sizes.name && self.mutators.len() < self.sizes.mutators as usize
    }

    /// Takes a mutator back, which leaves first. What its variables refer to is kept, for whoever takes it next. It
    /// is handed back only if it has another world's name, or all of this world's are back.
    pub fn take_mutator(&mut self, mutator: Mutator) -> Result<(), Mutator>
        ensures back { OnOk result (IsBack mutator self.old self.new) }
        ensures refused { IfErr result (MutatorLeft mutator) }
        ensures cause { IfErr result (λ _. TakesNoMutator mutator.name self.old) }
        ensures kept { IfErr result (λ _. self.new.mutators.items ≡ self.old.mutators.items) }
        ensures rest { KeepsRest self.old self.new × (self.new.tracers ≡ self.old.tracers) }
    {
        let mut mutator = mutator;
        mutator.leave();
        if !self.lacks_mutator(mutator.name) {
            return Err(mutator);
        }
        self.mutators.push_reserved(mutator);
        Ok(())
    }

    fn lacks_tracer(&self, name: u32) -> bool
        ensures lacks { OnTrue result ((name ≡ self.now.sizes.name) × (vec_len self.now.tracers < self.now.sizes.tracers)) }
        ensures none { OnFalse result (TakesNoTracer name self.now) }
    {
        name == self.sizes.name && self.tracers.len() < self.sizes.tracers as usize
    }

    /// Takes a tracer back, or hands it back as `take_mutator` does.
    pub fn take_tracer(&mut self, tracer: Tracer) -> Result<(), Tracer>
        ensures back { OnOk result (self.new.tracers.items ≡ self.old.tracers.items ++ tracer ∷ []) }
        ensures out { OnOk result ((tracer.name ≡ self.old.sizes.name) × (vec_len self.old.tracers < self.old.sizes.tracers)) }
        ensures refused { IfErr result (λ t. t ≡ tracer) }
        ensures cause { IfErr result (λ _. TakesNoTracer tracer.name self.old) }
        ensures kept { IfErr result (λ _. self.new.tracers.items ≡ self.old.tracers.items) }
        ensures rest { KeepsRest self.old self.new × (self.new.mutators ≡ self.old.mutators) }
    {
        if !self.lacks_tracer(tracer.name()) {
            return Err(tracer);
        }
        self.tracers.push_reserved(tracer);
        Ok(())
    }

    /// Numbers of the heap. If others act on it meanwhile, each is of another moment.
    pub fn statistics(&mut self) -> Statistics
        ensures read { ReadsStatistics result (arc_value self.old.heap) (view_of self.old.zero) (view_of self.new.zero) }
        ensures rest { HasAllStill self.old self.new }
    {
        read_statistics(&self.heap, &mut self.zero)
    }

    /// Which mutator found the heap full, counted from 1 in the order of `open`; None if none did.
    pub fn found_full(&mut self) -> Option<u64>
        ensures some { IfSome result (λ n. (0 < n) × Across (Found (ReadStat named_number) n) self.old.zero self.new.zero) }
        ensures none { IfNone result (Across (Found (ReadStat named_number) 0) self.old.zero self.new.zero) }
        ensures rest { HasAllStill self.old self.new }
    {
        match read_named(&self.heap, &mut self.zero) {
            0 => None,
            mutator => Some(mutator),
        }
    }

    fn has_all(&self) -> bool
        ensures all { OnTrue result (AreAllBack self.now) }
        ensures missing { OnFalse result (AreAllBack self.now → ⊥) }
    {
        self.mutators.len() == self.sizes.mutators as usize
            && self.tracers.len() == self.sizes.tracers as usize
    }

    /// Closes the world, and frees the heap. The world is handed back exactly if a mutator or a tracer isn't back.
    pub fn close(self) -> Result<(), World>
        ensures closed { OnOk result (AreAllBack self) }
        ensures refused { IfErr result (λ world. (world ≡ self) × (AreAllBack self → ⊥)) }
    {
        if self.has_all() {
            return Ok(());
        }
        Err(self)
    }
}
