//! Shared worlds, for programs in C: the root, exchanges, slots, and which object a variable has.
ghost use Rattle.seat_steps.specs.Acting.{TakesRoot};
ghost use Rattle.managed_heap_c.specs.Acting.{ExchangesTo, ExchangesValueTo, Fills, ForgetsSlots, NumbersTo, PlacesTo, Spills};
ghost use Rattle.managed_heap_c.specs.Answering.{AnswersOnce, SparesUnused};

use crate::acts::{
    exchange_by, exchange_value_by, fill_by, forget_slots_by, number_by, place_by, root_by,
    spill_by,
};
use crate::handles::MutatorHandle;
use crate::lending::lend_hand;
use crate::statuses::IN_USE;
use crate::using::{begins, ends};

/// Variable v becomes the root.
#[unsafe(no_mangle)]
pub extern "C" fn mhl_root(h: &mut MutatorHandle, v: u32) -> u32
    ensures answers { AnswersOnce (λ came. TakesRoot came v) result h.old.hand h.new.hand }
{
    let hand = lend_hand(h);
    if !begins(hand) {
        return IN_USE;
    }
    let answer = root_by(hand, v);
    ends(hand);
    answer
}

/// If field i of the object of v is variable `expected`, it becomes variable `next`, and 1 is written; otherwise 0.
#[unsafe(no_mangle)]
pub extern "C" fn mhl_exchange(
    h: &mut MutatorHandle,
    v: u32,
    i: u32,
    expected: u32,
    next: u32,
    won: &mut u32,
) -> u32
    ensures answers { AnswersOnce (ExchangesTo v i expected next won.old won.new) result h.old.hand h.new.hand }
    ensures quiet { SparesUnused h.old.hand won.old won.new }
{
    let hand = lend_hand(h);
    if !begins(hand) {
        return IN_USE;
    }
    let answer = exchange_by(hand, v, i, expected, next, won);
    ends(hand);
    answer
}

/// If the value of the object of v is `expected` it becomes `next`, and 1 is written; otherwise 0.
#[unsafe(no_mangle)]
pub extern "C" fn mhl_exchange_value(
    h: &mut MutatorHandle,
    v: u32,
    expected: u32,
    next: u32,
    won: &mut u32,
) -> u32
    ensures answers { AnswersOnce (ExchangesValueTo v expected next won.old won.new) result h.old.hand h.new.hand }
    ensures quiet { SparesUnused h.old.hand won.old won.new }
{
    let hand = lend_hand(h);
    if !begins(hand) {
        return IN_USE;
    }
    let answer = exchange_value_by(hand, v, expected, next, won);
    ends(hand);
    answer
}

/// Slot k becomes variable v.
#[unsafe(no_mangle)]
pub extern "C" fn mhl_spill(h: &mut MutatorHandle, v: u32, k: u32) -> u32
    ensures answers { AnswersOnce (Spills v k) result h.old.hand h.new.hand }
{
    let hand = lend_hand(h);
    if !begins(hand) {
        return IN_USE;
    }
    let answer = spill_by(hand, v, k);
    ends(hand);
    answer
}

/// Variable v becomes slot k.
#[unsafe(no_mangle)]
pub extern "C" fn mhl_fill(h: &mut MutatorHandle, v: u32, k: u32) -> u32
    ensures answers { AnswersOnce (Fills v k) result h.old.hand h.new.hand }
{
    let hand = lend_hand(h);
    if !begins(hand) {
        return IN_USE;
    }
    let answer = fill_by(hand, v, k);
    ends(hand);
    answer
}

/// The slots from `from` on and below `to` become nil.
#[unsafe(no_mangle)]
pub extern "C" fn mhl_forget_slots(h: &mut MutatorHandle, from: u32, to: u32) -> u32
    ensures answers { AnswersOnce (ForgetsSlots from to) result h.old.hand h.new.hand }
{
    let hand = lend_hand(h);
    if !begins(hand) {
        return IN_USE;
    }
    let answer = forget_slots_by(hand, from, to);
    ends(hand);
    answer
}

/// Writes the place of the object of v.
#[unsafe(no_mangle)]
pub extern "C" fn mhl_place(h: &mut MutatorHandle, v: u32, place: &mut u32) -> u32
    ensures answers { AnswersOnce (PlacesTo v place.old place.new) result h.old.hand h.new.hand }
    ensures quiet { SparesUnused h.old.hand place.old place.new }
{
    let hand = lend_hand(h);
    if !begins(hand) {
        return IN_USE;
    }
    let answer = place_by(hand, v, place);
    ends(hand);
    answer
}

/// Writes which mutator made the object of v, and how many that one had made before.
#[unsafe(no_mangle)]
pub extern "C" fn mhl_number(
    h: &mut MutatorHandle,
    v: u32,
    section: &mut u32,
    number: &mut u32,
) -> u32
    ensures answers { AnswersOnce (NumbersTo v section.old number.old section.new number.new) result h.old.hand h.new.hand }
    ensures quiet { SparesUnused h.old.hand section.old section.new }
    ensures spares { SparesUnused h.old.hand number.old number.new }
{
    let hand = lend_hand(h);
    if !begins(hand) {
        return IN_USE;
    }
    let answer = number_by(hand, v, section, number);
    ends(hand);
    answer
}
