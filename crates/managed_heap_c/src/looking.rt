//! One call looks at a variable's object: where it lies, and its value.
ghost use Rattle.managed_heap_c.specs.Answering.{Answers, AnswersOnce, SparesGone, SparesUnused};
ghost use Rattle.managed_heap_c.specs.Looking.{LooksTo};

use crate::bytes::byte_of;
use crate::handles::MutatorHandle;
use crate::hands::Hand;
use crate::lending::lend_hand;
use crate::statuses::{GIVEN_BACK, IN_USE, status};
use crate::using::{begins, ends};
use seat_steps::{Came, Stepper};

/// An object, as C reads it.
#[derive(Drop)]
#[repr(C)]
pub struct CObject {
    /// Where it lies, a number below the world's number of cells.
    pub place: u32,
    pub value: u32,
}

fn look_in(stepper: &mut Stepper, v: u8, out: &mut CObject) -> Came
    ensures looks { LooksTo v out.old out.new result stepper.old stepper.new }
{
    let place = match stepper.place(v) {
        Ok(place) => place,
        Err(why) => return why,
    };
    let mut value = 0;
    match stepper.value(v, &mut value) {
        Came::Done => {
            *out = CObject { place, value };
            Came::Done
        }
        other => other,
    }
}

fn look_by(hand: &mut Hand, v: u32, out: &mut CObject) -> u32
    ensures answers { Answers (LooksTo v out.old out.new) result hand.old.stepper hand.new.stepper }
    ensures quiet { SparesGone hand.old.stepper out.old out.new }
{
    match &mut hand.stepper {
        None => GIVEN_BACK,
        Some(stepper) => {
            let v = byte_of(v);
            status(look_in(stepper, v, out))
        }
    }
}

/// Writes where the object of v lies, and its value.
#[unsafe(no_mangle)]
pub extern "C" fn mhl_look(h: &mut MutatorHandle, v: u32, out: &mut CObject) -> u32
    ensures answers { AnswersOnce (LooksTo v out.old out.new) result h.old.hand h.new.hand }
    ensures quiet { SparesUnused h.old.hand out.old out.new }
{
    let hand = lend_hand(h);
    if !begins(hand) {
        return IN_USE;
    }
    let answer = look_by(hand, v, out);
    ends(hand);
    answer
}
