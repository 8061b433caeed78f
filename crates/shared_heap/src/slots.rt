//! Slots in a shared world: numbered roots, for the frames of a stack.
ghost use Rattle.std.specs.Arc.{arc_value};
ghost use Rattle.std.specs.Prelude.{◌≡◌, ◌-◌, ◌∷◌, [], IfErr, IfOk};
ghost use Rattle.mark_core.specs.Steps.MutatorSteps.{seat_variable as word_in};
ghost use Rattle.mark_core.specs.declared.kinds.Step.TheVariants.{StoreSlot};
ghost use Rattle.gc_table.specs.Seats.{Across, state_of};
ghost use Rattle.mutator_ops.specs.Few.{AtMost};
ghost use Rattle.mutator_ops.specs.Sharing.{FillsFound, TakesSteps};
ghost use Rattle.seat_turns.specs.Clearing.{clearing_steps};
ghost use Rattle.shared_heap.specs.Calls.{ActRefused, SharerActs};
ghost use Rattle.shared_heap.specs.Spilling.{HasSlots, IsSlot};

use crate::mutator::{Place, SharedMutator};
use mark_core::VARIABLES;
use mutator_ops::{share_fill, share_spill};
use seat_turns::{Refused, clear_slots_shared};

impl SharedMutator {
    /// Slot k becomes what variable v is, and keeps that reachable.
    pub fn spill(&mut self, v: u8, k: u16) -> Result<(), Refused>
        ensures done { IfOk result (λ _. SharerActs (IsSlot self.old v k) (TakesSteps (StoreSlot k (word_in (state_of self.old.seat) v) ∷ [])) self.old self.new) }
        ensures refused { IfErr result (λ e. ActRefused e (IsSlot self.old v k) self.old self.new) }
        ensures world { arc_value self.new.heap ≡ arc_value self.old.heap }
        ensures few { IfOk result (λ _. Across (AtMost 1) self.old.seat self.new.seat) }
    {
        if v >= VARIABLES || u32::from(k) >= self.heap.shape().slots {
            return Err(Refused::OutOfRange);
        }
        match self.place {
            Place::Outside => Err(Refused::Outside),
            Place::Inside => {
                share_spill(&self.heap, &mut self.seat, v, k);
                Ok(())
            }
        }
    }

    /// Variable v becomes what slot k is.
    pub fn fill(&mut self, v: u8, k: u16) -> Result<(), Refused>
        ensures done { IfOk result (λ _. SharerActs (IsSlot self.old v k) (FillsFound v k) self.old self.new) }
        ensures refused { IfErr result (λ e. ActRefused e (IsSlot self.old v k) self.old self.new) }
        ensures world { arc_value self.new.heap ≡ arc_value self.old.heap }
        ensures few { IfOk result (λ _. Across (AtMost 2) self.old.seat self.new.seat) }
    {
        if v >= VARIABLES || u32::from(k) >= self.heap.shape().slots {
            return Err(Refused::OutOfRange);
        }
        match self.place {
            Place::Outside => Err(Refused::Outside),
            Place::Inside => {
                share_fill(&self.heap, &mut self.seat, v, k);
                Ok(())
            }
        }
    }

    /// The slots from `from` on and below `to` refer to nothing any more, as when a frame is left.
    pub fn forget_slots(&mut self, from: u32, to: u32) -> Result<(), Refused>
        ensures done { IfOk result (λ _. SharerActs (HasSlots self.old from to) (TakesSteps (clearing_steps from (to - from))) self.old self.new) }
        ensures refused { IfErr result (λ e. ActRefused e (HasSlots self.old from to) self.old self.new) }
        ensures world { arc_value self.new.heap ≡ arc_value self.old.heap }
        ensures few { IfOk result (λ _. Across (AtMost (to - from)) self.old.seat self.new.seat) }
    {
        if from > to || to > self.heap.shape().slots {
            return Err(Refused::OutOfRange);
        }
        match self.place {
            Place::Outside => Err(Refused::Outside),
            Place::Inside => {
                clear_slots_shared(&self.heap, &mut self.seat, from, to);
                Ok(())
            }
        }
    }
}
