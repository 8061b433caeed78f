//! Whether a call uses a handle: a second one is refused. A handle belongs to one call at a time, so a plain store
//! is enough, which takes a twentieth of an exchange's time. Two threads that break that rule and begin at the same
//! moment may both find it free.
ghost use Rattle.std.specs.Prelude.{◌≡◌, true, false, IsFalse, IsTrue};
ghost use Rattle.std.specs.Bool.{OnFalse, OnTrue};

use crate::hands::{Hand, TracerHand};

/// Begins a call. False if another is under way; then nothing changed.
pub fn begins(hand: &mut Hand) -> bool
    ensures begun { OnTrue result (IsFalse hand.old.busy × (hand.new ≡ record hand.old { busy = true })) }
    ensures in_use { OnFalse result (IsTrue hand.old.busy × (hand.new ≡ hand.old)) }
{
    if hand.busy {
        return false;
    }
    hand.busy = true;
    true
}

pub fn ends(hand: &mut Hand)
    ensures ended { hand.new ≡ record hand.old { busy = false } }
{
    hand.busy = false;
}

/// [`begins`] for a tracer.
pub fn begins_turn(hand: &mut TracerHand) -> bool
    ensures begun { OnTrue result (IsFalse hand.old.busy × (hand.new ≡ record hand.old { busy = true })) }
    ensures in_use { OnFalse result (IsTrue hand.old.busy × (hand.new ≡ hand.old)) }
{
    if hand.busy {
        return false;
    }
    hand.busy = true;
    true
}

pub fn ends_turn(hand: &mut TracerHand)
    ensures ended { hand.new ≡ record hand.old { busy = false } }
{
    hand.busy = false;
}
