//! What a stepper is asked.
ghost use Rattle.std.specs.Prelude.{◌≡◌, IfErr, IfOk, IsFalse, IsTrue};
ghost use Rattle.plain_heap.specs.declared.operation.Op.TheVariants as ops;
ghost use Rattle.seat_steps.specs.Doing.{RefersToNothing, RefersToOne};
ghost use Rattle.seat_steps.specs.Asking.{DeclinesToTell, MayAsk};
ghost use Rattle.seat_steps.specs.Stepping.{is_collecting as collects_at, shares};
ghost use Rattle.seat_steps.specs.Waiting.{is_stopping_at};

use crate::came::Came;
use crate::operations::{are_one, is_nothing};
use crate::stepper::{Stage, Stepper};
use mark_core::VARIABLES;

impl Stepper {
    /// Whether variable v refers to nothing.
    pub fn is_nil(&self, v: u8) -> Result<bool, Came>
        ensures nil { IfOk result (λ nil. IsTrue nil → RefersToNothing (shares self.now) v self.now.seat) }
        ensures some { IfOk result (λ nil. IsFalse nil → RefersToNothing (shares self.now) v self.now.seat → ⊥) }
        ensures may { IfOk result (λ _. MayAsk (ops.Say v) self.now) }
        ensures refused { IfErr result (λ came. DeclinesToTell came (ops.Say v) self.now) }
    {
        if v >= VARIABLES {
            return Err(Came::OutOfRange);
        }
        match self.stage {
            Stage::Outside => Err(Came::Outside),
            Stage::Inside => Ok(is_nothing(&self.heap, &self.seat, v)),
            _ => Err(Came::Collecting),
        }
    }

    /// Whether variables v and w refer to one object, or both to nothing.
    pub fn same(&self, v: u8, w: u8) -> Result<bool, Came>
        ensures one { IfOk result (λ one. IsTrue one → RefersToOne (shares self.now) v w self.now.seat) }
        ensures two { IfOk result (λ one. IsFalse one → RefersToOne (shares self.now) v w self.now.seat → ⊥) }
        ensures may { IfOk result (λ _. MayAsk (ops.Let v w) self.now) }
        ensures refused { IfErr result (λ came. DeclinesToTell came (ops.Let v w) self.now) }
    {
        if v >= VARIABLES || w >= VARIABLES {
            return Err(Came::OutOfRange);
        }
        match self.stage {
            Stage::Outside => Err(Came::Outside),
            Stage::Inside => Ok(are_one(&self.heap, &self.seat, v, w)),
            _ => Err(Came::Collecting),
        }
    }

    /// Whether it is between two steps of a collection.
    pub fn is_collecting(&self) -> bool
        ensures collecting { result ≡ collects_at self.now.stage }
    {
        match self.stage {
            Stage::Outside => false,
            Stage::Inside => false,
            _ => true,
        }
    }

    /// Whether others may still be inside after it asked for a stop: then its thread may rest before the next step.
    pub fn is_stopping(&self) -> bool
        ensures stopping { result ≡ is_stopping_at self.now.stage }
    {
        match self.stage {
            Stage::Stopping => true,
            _ => false,
        }
    }
}
