//! What a mutator has traced and cleaned.
ghost use Rattle.std.specs.Prelude.{◌≡◌, None};
ghost use Rattle.managed_heap_c.specs.Answering.{Answers, AnswersOnce};
ghost use Rattle.managed_heap_c.specs.Telling.{SparesWork, TellsWork, work_of};

use crate::handles::MutatorHandle;
use crate::hands::Hand;
use crate::lending::lend_hand;
use crate::statuses::{GIVEN_BACK, IN_USE, OK};
use crate::using::{begins, ends};
use seat_steps::Stepper;

/// How much a mutator has traced and cleaned, as C reads it.
#[derive(Drop)]
#[repr(C)]
pub struct CWork {
    /// How many objects it has traced to pay for its caches, since it was taken.
    pub paid: u64,
    /// How many objects its collection has traced.
    pub traced: u32,
    /// How many cards its collection has cleaned.
    pub cleaned: u32,
}

fn work_now(stepper: &Stepper) -> CWork
    ensures work { result ≡ work_of stepper.now }
{
    CWork {
        paid: stepper.paid(),
        traced: stepper.traced(),
        cleaned: stepper.cleaned(),
    }
}

fn work_by(hand: &mut Hand, out: &mut CWork) -> u32
    ensures answers { Answers (TellsWork out.new) result hand.old.stepper hand.new.stepper }
    ensures quiet { hand.old.stepper ≡ None → out.new ≡ out.old }
{
    match &mut hand.stepper {
        None => GIVEN_BACK,
        Some(stepper) => {
            *out = work_now(stepper);
            OK
        }
    }
}

/// Writes how much the mutator has traced and cleaned.
#[unsafe(no_mangle)]
pub extern "C" fn mhl_work(h: &mut MutatorHandle, out: &mut CWork) -> u32
    ensures answers { AnswersOnce (TellsWork out.new) result h.old.hand h.new.hand }
    ensures quiet { SparesWork h.old.hand out.old out.new }
{
    let hand = lend_hand(h);
    if !begins(hand) {
        return IN_USE;
    }
    let answer = work_by(hand, out);
    ends(hand);
    answer
}
