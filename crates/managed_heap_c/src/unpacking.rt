//! One call takes an object's fields into variables. All numbers are looked at first. The object's own variable isn't
//! among them, since the fields that are left would be another object's once it is changed.
ghost use Rattle.std.specs.Bool.{OnFalse, OnTrue};
ghost use Rattle.std.specs.Prelude.{◌≡◌, ◌<◌};
ghost use Rattle.mark_core.specs.Numbers.{section_variables};
ghost use Rattle.plain_heap.specs.declared.operation.Op.TheVariants as ops;
ghost use Rattle.seat_steps.specs.Stepping.{Operates, fields_in as fields_of};
ghost use Rattle.seat_steps.specs.declared.came.Came.TheVariants as cames;
ghost use Rattle.seat_steps.specs.declared.stepper.Stage.TheVariants as stages;
ghost use Rattle.managed_heap_c.specs.Answering.{Answers, AnswersOnce};
ghost use Rattle.managed_heap_c.specs.Looking.{CanTakeFields, TakesFields, TakesFirst};

use crate::handles::MutatorHandle;
use crate::hands::Hand;
use crate::lending::lend_hand;
use crate::statuses::{GIVEN_BACK, IN_USE, status};
use crate::using::{begins, ends};
use mark_core::VARIABLES;
use seat_steps::{Came, Stage, Stepper};

fn can_take_fields(stepper: &Stepper, v: u32, first: u32, count: u32) -> bool
    ensures can { OnTrue result (CanTakeFields v first count stepper.now) }
    ensures not { OnFalse result (CanTakeFields v first count stepper.now → ⊥) }
{
    let variables = u32::from(VARIABLES);
    if v >= variables || first > variables || count > variables - first {
        return false;
    }
    if count > stepper.fields() {
        return false;
    }
    if v >= first && v - first < count {
        return false;
    }
    true
}

fn take_field(stepper: &mut Stepper, w: u8, v: u8, i: u8)
    requires inside { stepper.old.stage ≡ stages.Inside }
    requires range { (w < section_variables) × (v < section_variables) × (i < fields_of stepper.old) }
    ensures takes { Operates cames.Done (ops.Get w v i) stepper.old stepper.new }
{
    stepper.get(w, v, i);
}

fn take_fields(stepper: &mut Stepper, v: u8, first: u8, count: u8)
    requires inside { stepper.old.stage ≡ stages.Inside }
    requires can { CanTakeFields v first count stepper.old }
    ensures takes { TakesFirst count v first stepper.old stepper.new }
{
    for i in 0..count {
        take_field(stepper, first + i, v, i);
    }
}

fn fields_in(stepper: &mut Stepper, v: u32, first: u32, count: u32) -> Came
    ensures takes { TakesFields v first count result stepper.old stepper.new }
{
    if !can_take_fields(stepper, v, first, count) {
        return Came::OutOfRange;
    }
    match stepper.stage() {
        Stage::Outside => Came::Outside,
        Stage::Inside => {
            take_fields(stepper, v as u8, first as u8, count as u8);
            Came::Done
        }
        _ => Came::Collecting,
    }
}

fn fields_by(hand: &mut Hand, v: u32, first: u32, count: u32) -> u32
    ensures answers { Answers (TakesFields v first count) result hand.old.stepper hand.new.stepper }
{
    match &mut hand.stepper {
        None => GIVEN_BACK,
        Some(stepper) => status(fields_in(stepper, v, first, count)),
    }
}

/// The variables from `first` on become the first `count` fields of the object of v.
#[unsafe(no_mangle)]
pub extern "C" fn mhl_fields(h: &mut MutatorHandle, v: u32, first: u32, count: u32) -> u32
    ensures answers { AnswersOnce (TakesFields v first count) result h.old.hand h.new.hand }
{
    let hand = lend_hand(h);
    if !begins(hand) {
        return IN_USE;
    }
    let answer = fields_by(hand, v, first, count);
    ends(hand);
    answer
}
