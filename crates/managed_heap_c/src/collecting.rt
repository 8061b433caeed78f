//! The steps of a mutator's collection, precise or ordinary, and of its help in another's.
ghost use Rattle.std.specs.Prelude.{true, false};
ghost use Rattle.seat_steps.specs.Bounds.{CollectsAtMost};
ghost use Rattle.seat_steps.specs.Helping.{HelpsOnce};
ghost use Rattle.managed_heap_c.specs.Answering.{Answers, AnswersOnce};

use crate::handles::MutatorHandle;
use crate::hands::Hand;
use crate::lending::lend_hand;
use crate::statuses::{GIVEN_BACK, IN_USE, status};
use crate::using::{begins, ends};

fn collect_by(hand: &mut Hand, most: u32) -> u32
    ensures answers { Answers (CollectsAtMost true most) result hand.old.stepper hand.new.stepper }
{
    match &mut hand.stepper {
        None => GIVEN_BACK,
        Some(stepper) => status(stepper.collect_at_most(most)),
    }
}

fn finish_by(hand: &mut Hand, most: u32) -> u32
    ensures answers { Answers (CollectsAtMost false most) result hand.old.stepper hand.new.stepper }
{
    match &mut hand.stepper {
        None => GIVEN_BACK,
        Some(stepper) => status(stepper.finish_at_most(most)),
    }
}

fn help_by(hand: &mut Hand, most: u32) -> u32
    ensures answers { Answers (HelpsOnce most) result hand.old.stepper hand.new.stepper }
{
    match &mut hand.stepper {
        None => GIVEN_BACK,
        Some(stepper) => status(stepper.help_step(most)),
    }
}

/// The next step of the mutator's collection, of at most `most` roots, objects, cards or blocks (or one stretch). One
/// that begins is precise: it leaves no garbage.
#[unsafe(no_mangle)]
pub extern "C" fn mhl_collect_step(h: &mut MutatorHandle, most: u32) -> u32
    ensures answers { AnswersOnce (CollectsAtMost true most) result h.old.hand h.new.hand }
{
    let hand = lend_hand(h);
    if !begins(hand) {
        return IN_USE;
    }
    let answer = collect_by(hand, most);
    ends(hand);
    answer
}

/// As [`mhl_collect_step`], but a collection that begins is ordinary: if a cycle was marking, it finishes what is
/// marked.
#[unsafe(no_mangle)]
pub extern "C" fn mhl_finish_step(h: &mut MutatorHandle, most: u32) -> u32
    ensures answers { AnswersOnce (CollectsAtMost false most) result h.old.hand h.new.hand }
{
    let hand = lend_hand(h);
    if !begins(hand) {
        return IN_USE;
    }
    let answer = finish_by(hand, most);
    ends(hand);
    answer
}

/// A step of help by a mutator outside, in the stop of another: at most `most` objects or blocks (or one stretch).
#[unsafe(no_mangle)]
pub extern "C" fn mhl_help_step(h: &mut MutatorHandle, most: u32) -> u32
    ensures answers { AnswersOnce (HelpsOnce most) result h.old.hand h.new.hand }
{
    let hand = lend_hand(h);
    if !begins(hand) {
        return IN_USE;
    }
    let answer = help_by(hand, most);
    ends(hand);
    answer
}
