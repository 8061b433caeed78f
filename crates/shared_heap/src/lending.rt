//! A shared world is opened, and lends its mutators and tracers.
ghost use Rattle.std.specs.Prelude.{◌≡◌, ◌<◌, ◌+◌, [], ◌∷◌, IfErr, IfNone, IfOk, IfSome, OnOk, vec_len};
ghost use Rattle.std.specs.Arc.{arc_value};
ghost use Rattle.std.specs.Bool.{OnFalse, OnTrue};
ghost use Rattle.gc_table.specs.Seats.{Across, view_of};
ghost use Rattle.seat_turns.specs.Standing.{RestsOutside};
ghost use Rattle.shared_heap.specs.Calls.{SharerLeft};
ghost use Rattle.shared_heap.specs.Lending.{FitsShared, HasAllStill, IsBack, IsSharedOpened, KeepsRest, TakesNoMutator};
ghost use Rattle.seat_turns.specs.declared.refused.NotOpened.TheVariants.{OutOfRange};
ghost use Rattle.managed_heap.specs.Numbers.{ReadsStatistics};

use crate::dealing::open_fitting;
use crate::mutator::SharedMutator;
use crate::world::SharedWorld;
use managed_heap::{Sizes, Statistics, first_of, read_statistics};
use seat_turns::NotOpened;
use std::alloc::Global;

impl SharedWorld {
    /// A world of these sizes with its root, an object with value 0 whose references refer to nothing. Refused if a
    /// size is out of its range, stops are asked for, or there is no memory.
    pub fn open(alloc: Global, sizes: Sizes) -> Result<SharedWorld, NotOpened>
        ensures opened { IfOk result (λ w. IsSharedOpened sizes w) }
        ensures refused { IfErr result (λ e. e ≡ OutOfRange → FitsShared sizes → ⊥) }
    {
        if !sizes.fit() || sizes.in_stops {
            return Err(NotOpened::OutOfRange);
        }
        open_fitting(alloc, sizes)
    }

    /// A mutator that nobody has, outside the world; None if all are taken.
    pub fn mutator(&mut self) -> Option<SharedMutator>
        ensures some { IfSome result (λ m. self.old.mutators.items ≡ m ∷ self.new.mutators.items) }
        ensures none { IfNone result (self.old.mutators.items ≡ []) }
        ensures still { IfNone result (self.new.mutators.items ≡ []) }
        ensures rest { KeepsRest self.old self.new × (self.new.tracers ≡ self.old.tracers) }
    {
        if self.mutators.is_empty() {
            return None;
        }
        Some(first_of(&mut self.mutators))
    }

    fn lacks_mutator(&self, name: u32) -> bool
        ensures lacks { OnTrue result ((name ≡ self.now.sizes.name) × (vec_len self.now.mutators < self.now.sizes.mutators)) }
        ensures none { OnFalse result (TakesNoMutator name self.now) }
    {
        name == self.sizes.name && self.mutators.len() < self.sizes.mutators as usize
    }

    /// Takes a mutator back, which leaves first. What its variables and slots refer to is kept, for whoever takes
    /// it next. It is handed back only if it has another world's name, or all of this world's are back.
    pub fn take_mutator(&mut self, mutator: SharedMutator) -> Result<(), SharedMutator>
        ensures back { OnOk result (IsBack mutator self.old self.new) }
        ensures refused { IfErr result (SharerLeft mutator) }
        ensures cause { IfErr result (λ _. TakesNoMutator mutator.name self.old) }
        ensures kept { IfErr result (λ _. self.new.mutators.items ≡ self.old.mutators.items) }
        ensures rest { KeepsRest self.old self.new × (self.new.tracers ≡ self.old.tracers) }
    {
        let name = mutator.name;
        let mut mutator = mutator;
        mutator.leave();
        if !self.lacks_mutator(name) {
            return Err(mutator);
        }
        self.mutators.push_reserved(mutator);
        Ok(())
    }

    /// Numbers of the heap. If others act on it meanwhile, each is of another moment.
    pub fn statistics(&mut self) -> Statistics
        ensures read { ReadsStatistics result (arc_value self.old.heap) (view_of self.old.zero) (view_of self.new.zero) }
        ensures rest { HasAllStill self.old self.new }
    {
        read_statistics(&self.heap, &mut self.zero)
    }
}
