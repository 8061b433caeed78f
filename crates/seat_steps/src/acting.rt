//! What a stepper does only in a shared world: the root, and exchanges.
ghost use Rattle.std.specs.Prelude.{◌≡◌, IfErr, IfOk};
ghost use Rattle.mark_core.specs.Steps.MutatorSteps.{seat_variable as word_in};
ghost use Rattle.gc_table.specs.Seats.{state_of};
ghost use Rattle.seat_turns.specs.Exchanging.{ExchangesField, ExchangesValue};
ghost use Rattle.seat_steps.specs.Acting.{CanExchange, IsVariable, StepperActs, TakesRoot, WantsObject};
ghost use Rattle.seat_steps.specs.declared.stepper.Stage.TheVariants as stages;

use crate::came::Came;
use crate::stepper::{Stage, Stepper};
use mark_core::VARIABLES;
use mutator_ops::{share_count, share_exchange, share_lend};
use seat_turns::word_of;

/// The variable of section 0 that refers to the root.
const ROOT: u8 = 0;

impl Stepper {
    /// Variable w becomes the root. `Nil` says that nothing was found: no contract of this call excludes that.
    pub fn root(&mut self, w: u8) -> Came
        ensures root { TakesRoot result w self.old self.new }
    {
        if !self.shares() {
            return Came::NotShared;
        }
        if w >= VARIABLES {
            return Came::OutOfRange;
        }
        match self.stage {
            Stage::Outside => Came::Outside,
            Stage::Inside => {
                share_lend(&self.heap, &mut self.seat, w, ROOT);
                if word_of(&self.seat, w) == 0 {
                    return Came::Nil;
                }
                Came::Done
            }
            _ => Came::Collecting,
        }
    }

    /// If reference i of variable v's object is variable `expected`, it becomes variable `new`. True if it was. Either
    /// may be nil.
    pub fn exchange(&mut self, v: u8, i: u8, expected: u8, new: u8) -> Result<bool, Came>
        ensures done { IfOk result (λ won. StepperActs (CanExchange self.old v i expected new) 3 (ExchangesField v i expected new won) self.old self.new) }
        ensures refused { IfErr result (λ came. WantsObject came (CanExchange self.old v i expected new) v self.old self.new) }
    {
        if !self.shares() {
            return Err(Came::NotShared);
        }
        let fields = self.heap.shape().fields;
        if v >= VARIABLES || u32::from(i) >= fields || expected >= VARIABLES || new >= VARIABLES {
            return Err(Came::OutOfRange);
        }
        match self.stage {
            Stage::Outside => Err(Came::Outside),
            Stage::Inside => {
                if word_of(&self.seat, v) == 0 {
                    return Err(Came::Nil);
                }
                Ok(share_exchange(&self.heap, &mut self.seat, v, i, Some(expected), Some(new)))
            }
            _ => Err(Came::Collecting),
        }
    }

    /// If the value of variable v's object is the expected one, it becomes the new one. True if it was.
    pub fn exchange_value(&mut self, v: u8, expected: u32, new: u32) -> Result<bool, Came>
        ensures done { IfOk result (λ won. StepperActs (IsVariable v) 1 (ExchangesValue v expected new won) self.old self.new) }
        ensures refused { IfErr result (λ came. WantsObject came (IsVariable v) v self.old self.new) }
    {
        if !self.shares() {
            return Err(Came::NotShared);
        }
        if v >= VARIABLES {
            return Err(Came::OutOfRange);
        }
        match self.stage {
            Stage::Outside => Err(Came::Outside),
            Stage::Inside => {
                if word_of(&self.seat, v) == 0 {
                    return Err(Came::Nil);
                }
                Ok(share_count(&self.heap, &mut self.seat, v, expected, new))
            }
            _ => Err(Came::Collecting),
        }
    }
}
