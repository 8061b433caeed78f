//! What a call does with the mutator behind a handle: that of the export of its name, or it answers `GIVEN_BACK` if the
//! handle is empty.
ghost use Rattle.plain_heap.specs.declared.operation.Op.TheVariants as ops;
ghost use Rattle.seat_steps.specs.Refilling.{MakesCached, StepperRefills};
ghost use Rattle.seat_steps.specs.Stepping.{Entered, Left, StepperMakes, Operates, Passed};
ghost use Rattle.managed_heap_c.specs.Answering.{Answers, ReadsTo, SparesGone};
ghost use Rattle.managed_heap_c.specs.Making.{MakesWith};
ghost use Rattle.managed_heap_c.specs.Storing.{Stores};

use crate::bytes::byte_of;
use crate::hands::Hand;
use crate::making::make_with_in;
use crate::statuses::{GIVEN_BACK, status};
use crate::storing::{put_in, set_in};

pub fn enter_by(hand: &mut Hand) -> u32
    ensures answers { Answers Entered result hand.old.stepper hand.new.stepper }
{
    match &mut hand.stepper {
        None => GIVEN_BACK,
        Some(stepper) => status(stepper.enter()),
    }
}

pub fn leave_by(hand: &mut Hand) -> u32
    ensures answers { Answers Left result hand.old.stepper hand.new.stepper }
{
    match &mut hand.stepper {
        None => GIVEN_BACK,
        Some(stepper) => status(stepper.leave()),
    }
}

pub fn pass_by(hand: &mut Hand) -> u32
    ensures answers { Answers Passed result hand.old.stepper hand.new.stepper }
{
    match &mut hand.stepper {
        None => GIVEN_BACK,
        Some(stepper) => status(stepper.safe_point()),
    }
}

pub fn make_by(hand: &mut Hand, v: u32, value: u32) -> u32
    ensures answers { Answers (λ came. StepperMakes came (ops.New v value)) result hand.old.stepper hand.new.stepper }
{
    match &mut hand.stepper {
        None => GIVEN_BACK,
        Some(stepper) => {
            let v = byte_of(v);
            status(stepper.make(v, value))
        }
    }
}

pub fn make_cached_by(hand: &mut Hand, v: u32, value: u32) -> u32
    ensures answers { Answers (λ came. MakesCached came (ops.New v value)) result hand.old.stepper hand.new.stepper }
{
    match &mut hand.stepper {
        None => GIVEN_BACK,
        Some(stepper) => {
            let v = byte_of(v);
            status(stepper.make_cached(v, value))
        }
    }
}

pub fn refill_by(hand: &mut Hand, most: u32) -> u32
    ensures answers { Answers (StepperRefills most) result hand.old.stepper hand.new.stepper }
{
    match &mut hand.stepper {
        None => GIVEN_BACK,
        Some(stepper) => status(stepper.refill_step(most)),
    }
}

pub fn make_with_by(hand: &mut Hand, v: u32, value: u32, fields: &[u32]) -> u32
    ensures answers { Answers (MakesWith v value fields.now) result hand.old.stepper hand.new.stepper }
{
    match &mut hand.stepper {
        None => GIVEN_BACK,
        Some(stepper) => status(make_with_in(stepper, v, value, fields)),
    }
}

pub fn set_by(hand: &mut Hand, v: u32, i: u32, w: u32) -> u32
    ensures answers { Answers (Stores v (ops.Set v i w)) result hand.old.stepper hand.new.stepper }
{
    match &mut hand.stepper {
        None => GIVEN_BACK,
        Some(stepper) => {
            let v = byte_of(v);
            let i = byte_of(i);
            let w = byte_of(w);
            status(set_in(stepper, v, i, w))
        }
    }
}

pub fn get_by(hand: &mut Hand, w: u32, v: u32, i: u32) -> u32
    ensures answers { Answers (λ came. Operates came (ops.Get w v i)) result hand.old.stepper hand.new.stepper }
{
    match &mut hand.stepper {
        None => GIVEN_BACK,
        Some(stepper) => {
            let w = byte_of(w);
            let v = byte_of(v);
            let i = byte_of(i);
            status(stepper.get(w, v, i))
        }
    }
}

pub fn copy_by(hand: &mut Hand, w: u32, v: u32) -> u32
    ensures answers { Answers (λ came. Operates came (ops.Let w v)) result hand.old.stepper hand.new.stepper }
{
    match &mut hand.stepper {
        None => GIVEN_BACK,
        Some(stepper) => {
            let w = byte_of(w);
            let v = byte_of(v);
            status(stepper.copy(w, v))
        }
    }
}

pub fn forget_by(hand: &mut Hand, v: u32) -> u32
    ensures answers { Answers (λ came. Operates came (ops.Nil v)) result hand.old.stepper hand.new.stepper }
{
    match &mut hand.stepper {
        None => GIVEN_BACK,
        Some(stepper) => {
            let v = byte_of(v);
            status(stepper.forget(v))
        }
    }
}

pub fn put_by(hand: &mut Hand, v: u32, value: u32) -> u32
    ensures answers { Answers (Stores v (ops.Put v value)) result hand.old.stepper hand.new.stepper }
{
    match &mut hand.stepper {
        None => GIVEN_BACK,
        Some(stepper) => {
            let v = byte_of(v);
            status(put_in(stepper, v, value))
        }
    }
}

pub fn value_by(hand: &mut Hand, v: u32, out: &mut u32) -> u32
    ensures answers { Answers (ReadsTo v out.old out.new) result hand.old.stepper hand.new.stepper }
    ensures quiet { SparesGone hand.old.stepper out.old out.new }
{
    match &mut hand.stepper {
        None => GIVEN_BACK,
        Some(stepper) => {
            let v = byte_of(v);
            status(stepper.value(v, out))
        }
    }
}
