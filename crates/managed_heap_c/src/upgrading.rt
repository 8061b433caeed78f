//! Weak references, for programs in C.
ghost use Rattle.seat_steps.specs.Weak.{UpgradesTo};
ghost use Rattle.managed_heap_c.specs.Answering.{AnswersOnce, SparesUnused};
ghost use Rattle.managed_heap_c.specs.Deaths.{DeathsTo};
ghost use Rattle.managed_heap_c.specs.Weak.{WeaksTo};

use crate::deaths::deaths_by;
use crate::handles::MutatorHandle;
use crate::lending::lend_hand;
use crate::statuses::IN_USE;
use crate::upgrades::{upgrade_by, weak_of_by};
use crate::using::{begins, ends};
use seat_turns::Weak;

/// Writes a weak reference to the object of v.
#[unsafe(no_mangle)]
pub extern "C" fn mhl_weak_of(h: &mut MutatorHandle, v: u32, out: &mut Weak) -> u32
    ensures answers { AnswersOnce (WeaksTo v out.old out.new) result h.old.hand h.new.hand }
    ensures quiet { SparesUnused h.old.hand out.old out.new }
{
    let hand = lend_hand(h);
    if !begins(hand) {
        return IN_USE;
    }
    let answer = weak_of_by(hand, v, out);
    ends(hand);
    answer
}

/// Variable v becomes the object of the weak reference, if it is alive; else nil.
#[unsafe(no_mangle)]
pub extern "C" fn mhl_upgrade(h: &mut MutatorHandle, weak: &Weak, v: u32) -> u32
    ensures answers { AnswersOnce (λ came. UpgradesTo came weak.now v) result h.old.hand h.new.hand }
{
    let hand = lend_hand(h);
    if !begins(hand) {
        return IN_USE;
    }
    let answer = upgrade_by(hand, weak, v);
    ends(hand);
    answer
}

/// Which of these weak references have dead objects: their numbers, in order, at the beginning of `dead`, and how many.
#[unsafe(no_mangle)]
pub extern "C" fn mhl_deaths(
    h: &mut MutatorHandle,
    weaks: &[Weak],
    v: u32,
    dead: &mut [u32],
    many: &mut u32,
) -> u32
    ensures answers { AnswersOnce (DeathsTo v weaks.now dead.old many.old dead.new many.new) result h.old.hand h.new.hand }
    ensures quiet { SparesUnused h.old.hand dead.old dead.new }
    ensures spares { SparesUnused h.old.hand many.old many.new }
{
    let hand = lend_hand(h);
    if !begins(hand) {
        return IN_USE;
    }
    let answer = deaths_by(hand, weaks, v, dead, many);
    ends(hand);
    answer
}
