//! Slots of a stepper in a shared world: numbered roots, as for the frames of a stack.
ghost use Rattle.std.specs.Prelude.{◌-◌, ◌∷◌, []};
ghost use Rattle.mark_core.specs.Steps.MutatorSteps.{seat_variable as word_in};
ghost use Rattle.mark_core.specs.declared.kinds.Step.TheVariants.{StoreSlot};
ghost use Rattle.gc_table.specs.Seats.{state_of};
ghost use Rattle.mutator_ops.specs.Sharing.{FillsFound, TakesSteps};
ghost use Rattle.seat_turns.specs.Clearing.{clearing_steps};
ghost use Rattle.seat_steps.specs.Acting.{ActsTo, HasSlots, IsSlot};

use crate::came::Came;
use crate::stepper::{Stage, Stepper};
use mark_core::VARIABLES;
use mutator_ops::{share_fill, share_spill};
use seat_turns::clear_slots_shared;

impl Stepper {
    /// Slot k becomes what variable v is, and keeps that reachable.
    pub fn spill(&mut self, v: u8, k: u16) -> Came
        ensures spills { ActsTo result (IsSlot self.old v k) 1 (TakesSteps (StoreSlot k (word_in (state_of self.old.seat) v) ∷ [])) self.old self.new }
    {
        if !self.shares() {
            return Came::NotShared;
        }
        if v >= VARIABLES || u32::from(k) >= self.heap.shape().slots {
            return Came::OutOfRange;
        }
        match self.stage {
            Stage::Outside => Came::Outside,
            Stage::Inside => {
                share_spill(&self.heap, &mut self.seat, v, k);
                Came::Done
            }
            _ => Came::Collecting,
        }
    }

    /// Variable v becomes what slot k is.
    pub fn fill(&mut self, v: u8, k: u16) -> Came
        ensures fills { ActsTo result (IsSlot self.old v k) 2 (FillsFound v k) self.old self.new }
    {
        if !self.shares() {
            return Came::NotShared;
        }
        if v >= VARIABLES || u32::from(k) >= self.heap.shape().slots {
            return Came::OutOfRange;
        }
        match self.stage {
            Stage::Outside => Came::Outside,
            Stage::Inside => {
                share_fill(&self.heap, &mut self.seat, v, k);
                Came::Done
            }
            _ => Came::Collecting,
        }
    }

    /// The slots from `from` on and below `to` refer to nothing any more.
    pub fn forget_slots(&mut self, from: u32, to: u32) -> Came
        ensures forgets { ActsTo result (HasSlots self.old from to) (to - from) (TakesSteps (clearing_steps from (to - from))) self.old self.new }
    {
        if !self.shares() {
            return Came::NotShared;
        }
        if from > to || to > self.heap.shape().slots {
            return Came::OutOfRange;
        }
        match self.stage {
            Stage::Outside => Came::Outside,
            Stage::Inside => {
                clear_slots_shared(&self.heap, &mut self.seat, from, to);
                Came::Done
            }
            _ => Came::Collecting,
        }
    }
}
