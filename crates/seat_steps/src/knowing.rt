//! Where a stepper's object lies, and which it is.
ghost use Rattle.std.specs.Prelude.{◌≡◌, ◌+◌, ◌-◌, ◌<◌, IfErr, IfOk};
ghost use Rattle.std.specs.Arc.{arc_value};
ghost use Rattle.mark_core.specs.Steps.MutatorSteps.{seat_variable as word_in};
ghost use Rattle.mark_core.specs.declared.kinds.Step.TheVariants.{ReadIdent};
ghost use Rattle.gc_table.specs.Seats.{Found, state_of};
ghost use Rattle.seat_steps.specs.Acting.{IsVariable, StepperActs, WantsObject};
ghost use Rattle.seat_steps.specs.Asking.{LacksObject};
ghost use Rattle.seat_steps.specs.declared.stepper.Stage.TheVariants as stages;

use crate::came::Came;
use crate::stepper::{Stage, Stepper};
use mark_core::VARIABLES;
use seat_turns::{identity_shared, word_of};

impl Stepper {
    /// The cell of variable v's object, a number below the world's number of cells. It stays the object's as long as
    /// that is reachable, so it may be the place of something beside the heap.
    pub fn place(&self, v: u8) -> Result<u32, Came>
        ensures place { IfOk result (λ c. word_in (state_of self.now.seat) v ≡ c + 1) }
        ensures inside { IfOk result (λ c. c < (arc_value self.now.heap).shape.cells) }
        ensures may { IfOk result (λ _. IsVariable v × (self.now.stage ≡ stages.Inside)) }
        ensures refused { IfErr result (λ came. LacksObject came v self.now) }
    {
        if v >= VARIABLES {
            return Err(Came::OutOfRange);
        }
        match self.stage {
            Stage::Outside => Err(Came::Outside),
            Stage::Inside => {
                let word = word_of(&self.seat, v);
                if word == 0 {
                    return Err(Came::Nil);
                }
                Ok(word - 1)
            }
            _ => Err(Came::Collecting),
        }
    }

    /// The number of variable v's object, which no other object of the world ever has: 4,294,967,296 times the number
    /// of the mutator that made it, counted from 1, plus how many that one had made before. Only if objects are shared.
    pub fn number(&mut self, v: u8) -> Result<u64, Came>
        ensures number { IfOk result (λ n. StepperActs (IsVariable v) 1 (Found (ReadIdent (word_in (state_of self.old.seat) v - 1)) n) self.old self.new) }
        ensures refused { IfErr result (λ came. WantsObject came (IsVariable v) v self.old self.new) }
    {
        if !self.shares() {
            return Err(Came::NotShared);
        }
        if v >= VARIABLES {
            return Err(Came::OutOfRange);
        }
        match self.stage {
            Stage::Outside => Err(Came::Outside),
            Stage::Inside => {
                if word_of(&self.seat, v) == 0 {
                    return Err(Came::Nil);
                }
                Ok(identity_shared(&self.heap, &mut self.seat, v))
            }
            _ => Err(Came::Collecting),
        }
    }
}
