//! Questions, for programs in C.
ghost use Rattle.plain_heap.specs.declared.operation.Op.TheVariants as ops;
ghost use Rattle.managed_heap_c.specs.Answering.{AnswersOnce, SparesUnused};
ghost use Rattle.managed_heap_c.specs.Asking.{IsNil, AreOne, TellsStopping, TestsTo};

use crate::asked::{is_nil_by, same_by, stopping_by};
use crate::handles::MutatorHandle;
use crate::lending::lend_hand;
use crate::statuses::IN_USE;
use crate::using::{begins, ends};

/// Writes 1 if variable v refers to nothing, otherwise 0.
#[unsafe(no_mangle)]
pub extern "C" fn mhl_is_nil(h: &mut MutatorHandle, v: u32, out: &mut u32) -> u32
    ensures answers { AnswersOnce (TestsTo (IsNil v) (ops.Say v) out.old out.new) result h.old.hand h.new.hand }
    ensures quiet { SparesUnused h.old.hand out.old out.new }
{
    let hand = lend_hand(h);
    if !begins(hand) {
        return IN_USE;
    }
    let answer = is_nil_by(hand, v, out);
    ends(hand);
    answer
}

/// Writes 1 if variables v and w refer to one object, or both to nothing, otherwise 0.
#[unsafe(no_mangle)]
pub extern "C" fn mhl_same(h: &mut MutatorHandle, v: u32, w: u32, out: &mut u32) -> u32
    ensures answers { AnswersOnce (TestsTo (AreOne v w) (ops.Let v w) out.old out.new) result h.old.hand h.new.hand }
    ensures quiet { SparesUnused h.old.hand out.old out.new }
{
    let hand = lend_hand(h);
    if !begins(hand) {
        return IN_USE;
    }
    let answer = same_by(hand, v, w, out);
    ends(hand);
    answer
}

/// Writes 1 if the mutator waits for a stop that it asked for, otherwise 0.
#[unsafe(no_mangle)]
pub extern "C" fn mhl_is_stopping(h: &mut MutatorHandle, out: &mut u32) -> u32
    ensures answers { AnswersOnce (TellsStopping out.new) result h.old.hand h.new.hand }
    ensures quiet { SparesUnused h.old.hand out.old out.new }
{
    let hand = lend_hand(h);
    if !begins(hand) {
        return IN_USE;
    }
    let answer = stopping_by(hand, out);
    ends(hand);
    answer
}
