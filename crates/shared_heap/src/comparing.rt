//! What a mutator of a shared world knows of its variables without a step.
ghost use Rattle.std.specs.Prelude.{◌≡◌, IfOk, IfErr, IsFalse, IsTrue};
ghost use Rattle.mark_core.specs.Steps.MutatorSteps.{seat_variable as word_in};
ghost use Rattle.plain_heap.specs.declared.operation.Op.TheVariants as ops;
ghost use Rattle.gc_table.specs.Seats.{state_of};
ghost use Rattle.shared_heap.specs.Calls.{MayAsk, Refuses};

use crate::mutator::{Place, SharedMutator};
use mark_core::VARIABLES;
use seat_turns::{Refused, word_of};

impl SharedMutator {
    /// Whether variable v refers to nothing.
    pub fn is_nil(&self, v: u8) -> Result<bool, Refused>
        ensures may { IfOk result (λ _. MayAsk (ops.Say v) self.now) }
        ensures nil { IfOk result (λ nil. IsTrue nil → word_in (state_of self.now.seat) v ≡ 0) }
        ensures some { IfOk result (λ nil. IsFalse nil → word_in (state_of self.now.seat) v ≡ 0 → ⊥) }
        ensures refused { IfErr result (λ e. Refuses e (ops.Say v) self.now) }
    {
        if v >= VARIABLES {
            return Err(Refused::OutOfRange);
        }
        match self.place {
            Place::Outside => Err(Refused::Outside),
            Place::Inside => Ok(word_of(&self.seat, v) == 0),
        }
    }

    /// Whether variables v and w refer to one object, or both to nothing: whether their words are the same.
    pub fn same(&self, v: u8, w: u8) -> Result<bool, Refused>
        ensures may { IfOk result (λ _. MayAsk (ops.Let v w) self.now) }
        ensures one { IfOk result (λ one. IsTrue one → word_in (state_of self.now.seat) v ≡ word_in (state_of self.now.seat) w) }
        ensures two { IfOk result (λ one. IsFalse one → word_in (state_of self.now.seat) v ≡ word_in (state_of self.now.seat) w → ⊥) }
        ensures refused { IfErr result (λ e. Refuses e (ops.Let v w) self.now) }
    {
        if v >= VARIABLES || w >= VARIABLES {
            return Err(Refused::OutOfRange);
        }
        match self.place {
            Place::Outside => Err(Refused::Outside),
            Place::Inside => Ok(word_of(&self.seat, v) == word_of(&self.seat, w)),
        }
    }
}
