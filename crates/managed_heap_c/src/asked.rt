//! What the mutator behind a handle is asked: the answer is written, or `GIVEN_BACK` answered if the handle is empty.
ghost use Rattle.std.specs.Prelude.{◌≡◌};
ghost use Rattle.plain_heap.specs.declared.operation.Op.TheVariants as ops;
ghost use Rattle.managed_heap_c.specs.Answering.{Answers, SparesGone};
ghost use Rattle.managed_heap_c.specs.Asking.{IsNil, AreOne, TellsStopping, TestsTo, WritesAnswer, number_of_answer};

use crate::bytes::byte_of;
use crate::hands::Hand;
use crate::statuses::{GIVEN_BACK, OK, status};
use seat_steps::Came;

/// An answer as C has it.
pub fn number_of(told: bool) -> u32
    ensures number { result ≡ number_of_answer told }
{
    if told { 1 } else { 0 }
}

/// Writes 1 for yes and 0 for no, and nothing if there is no answer.
pub fn write_answer(answer: Result<bool, Came>, out: &mut u32) -> Came
    ensures writes { WritesAnswer result answer out.old out.new }
{
    match answer {
        Ok(told) => {
            *out = number_of(told);
            Came::Done
        }
        Err(came) => came,
    }
}

pub fn is_nil_by(hand: &mut Hand, v: u32, out: &mut u32) -> u32
    ensures answers { Answers (TestsTo (IsNil v) (ops.Say v) out.old out.new) result hand.old.stepper hand.new.stepper }
    ensures quiet { SparesGone hand.old.stepper out.old out.new }
{
    match &mut hand.stepper {
        None => GIVEN_BACK,
        Some(stepper) => {
            let v = byte_of(v);
            status(write_answer(stepper.is_nil(v), out))
        }
    }
}

pub fn same_by(hand: &mut Hand, v: u32, w: u32, out: &mut u32) -> u32
    ensures answers { Answers (TestsTo (AreOne v w) (ops.Let v w) out.old out.new) result hand.old.stepper hand.new.stepper }
    ensures quiet { SparesGone hand.old.stepper out.old out.new }
{
    match &mut hand.stepper {
        None => GIVEN_BACK,
        Some(stepper) => {
            let v = byte_of(v);
            let w = byte_of(w);
            status(write_answer(stepper.same(v, w), out))
        }
    }
}

pub fn stopping_by(hand: &mut Hand, out: &mut u32) -> u32
    ensures answers { Answers (TellsStopping out.new) result hand.old.stepper hand.new.stepper }
    ensures quiet { SparesGone hand.old.stepper out.old out.new }
{
    match &mut hand.stepper {
        None => GIVEN_BACK,
        Some(stepper) => {
            *out = number_of(stepper.is_stopping());
            OK
        }
    }
}
