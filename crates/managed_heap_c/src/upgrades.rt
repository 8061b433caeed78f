//! What a call for a weak reference does with the mutator behind a handle: that of the export of its name, or it answers
//! `GIVEN_BACK` if the handle is empty.
ghost use Rattle.seat_steps.specs.Weak.{UpgradesTo};
ghost use Rattle.managed_heap_c.specs.Answering.{Answers, SparesGone};
ghost use Rattle.managed_heap_c.specs.Weak.{WeaksTo, WritesWeak};

use crate::bytes::byte_of;
use crate::hands::Hand;
use crate::statuses::{GIVEN_BACK, status};
use seat_steps::Came;
use seat_turns::Weak;

fn write_weak(answer: Result<Weak, Came>, out: &mut Weak) -> Came
    ensures writes { WritesWeak result answer out.old out.new }
{
    match answer {
        Ok(weak) => {
            *out = weak;
            Came::Done
        }
        Err(came) => came,
    }
}

pub fn weak_of_by(hand: &mut Hand, v: u32, out: &mut Weak) -> u32
    ensures answers { Answers (WeaksTo v out.old out.new) result hand.old.stepper hand.new.stepper }
    ensures quiet { SparesGone hand.old.stepper out.old out.new }
{
    match &mut hand.stepper {
        None => GIVEN_BACK,
        Some(stepper) => {
            let v = byte_of(v);
            status(write_weak(stepper.weak(v), out))
        }
    }
}

pub fn upgrade_by(hand: &mut Hand, weak: &Weak, v: u32) -> u32
    ensures answers { Answers (λ came. UpgradesTo came weak.now v) result hand.old.stepper hand.new.stepper }
{
    match &mut hand.stepper {
        None => GIVEN_BACK,
        Some(stepper) => {
            let v = byte_of(v);
            status(stepper.upgrade(*weak, v))
        }
    }
}
