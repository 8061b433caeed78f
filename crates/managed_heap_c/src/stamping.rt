//! Stamps, for programs in C.
ghost use Rattle.managed_heap_c.specs.Answering.{AnswersOnce, SparesUnused};
ghost use Rattle.managed_heap_c.specs.Stamping.{CatchesUp, StampsTo};

use crate::handles::MutatorHandle;
use crate::lending::lend_hand;
use crate::stamps::{CStamp, after_by, stamp_of_by};
use crate::statuses::IN_USE;
use crate::using::{begins, ends};

/// Writes a stamp of this moment.
#[unsafe(no_mangle)]
pub extern "C" fn mhl_stamp_of(h: &mut MutatorHandle, out: &mut CStamp) -> u32
    ensures answers { AnswersOnce (StampsTo out.new) result h.old.hand h.new.hand }
    ensures quiet { SparesUnused h.old.hand out.old out.new }
{
    let hand = lend_hand(h);
    if !begins(hand) {
        return IN_USE;
    }
    let answer = stamp_of_by(hand, out);
    ends(hand);
    answer
}

/// The mutator goes on from all that has happened, if the stamp is its world's.
#[unsafe(no_mangle)]
pub extern "C" fn mhl_after(h: &mut MutatorHandle, stamp: &CStamp) -> u32
    ensures answers { AnswersOnce (CatchesUp stamp.now.world) result h.old.hand h.new.hand }
{
    let hand = lend_hand(h);
    if !begins(hand) {
        return IN_USE;
    }
    let answer = after_by(hand, stamp);
    ends(hand);
    answer
}
