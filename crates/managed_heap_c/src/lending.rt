//! A handle lends what lies behind it.
ghost use Rattle.std.specs.Prelude.{◌≡◌};
ghost use types.Logic.{sem};
ghost use Rattle.managed_heap_c.specs.Lent.{hand_follows, tracer_follows, whole_follows};

use crate::handles::{MutatorHandle, TracerHandle, WorldHandle};
use crate::hands::{Hand, TracerHand, Whole};

pub fn lend_hand(h: &mut MutatorHandle) -> &mut Hand
    ensures* writes_back { sem 𝓛 (hand_follows h.entry result) }
    ensures value { result.now ≡ h.old.hand }
{
    unsafe { &mut *(h.at as *mut Hand) }
}

pub fn lend_tracer(h: &mut TracerHandle) -> &mut TracerHand
    ensures* writes_back { sem 𝓛 (tracer_follows h.entry result) }
    ensures value { result.now ≡ h.old.hand }
{
    unsafe { &mut *(h.at as *mut TracerHand) }
}

pub fn lend_whole(h: &mut WorldHandle) -> &mut Whole
    ensures* writes_back { sem 𝓛 (whole_follows h.entry result) }
    ensures value { result.now ≡ h.old.whole }
{
    unsafe { &mut *(h.at as *mut Whole) }
}
