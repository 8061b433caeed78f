//! What C hands in to be filled: an empty handle, which owns nothing.
ghost use Rattle.std.specs.Prelude.{◌≡◌, Option, Some};
ghost use Rattle.managed_heap_c.specs.declared.hands.Hand.{Hand};
ghost use Rattle.managed_heap_c.specs.declared.hands.TracerHand.{TracerHand};
ghost use Rattle.managed_heap_c.specs.declared.hands.Whole.{Whole};
ghost use Rattle.managed_heap_c.specs.Filled.{hand_filled, hands_coded, tracer_filled, tracers_coded, whole_filled, wholes_coded};

use crate::hands::{Hand, TracerHand, Whole};
use crate::loose::Loose;
use std::alloc::Global;
use std::marker::Model;

/// A mutator's handle, empty or filled.
#[derive(Drop)]
#[repr(C)]
pub struct MutatorSlot {
    pub(crate) at: *mut u8,
    pub ghost hand: { Option Hand } by { hands_coded },
}

impl Model for MutatorSlot {
    ghost also_owns = { λ s. hand_filled s.at s.hand };
}

/// A tracer's handle, empty or filled.
#[derive(Drop)]
#[repr(C)]
pub struct TracerSlot {
    pub(crate) at: *mut u8,
    pub ghost hand: { Option TracerHand } by { tracers_coded },
}

impl Model for TracerSlot {
    ghost also_owns = { λ s. tracer_filled s.at s.hand };
}

/// A world's handle, empty or filled.
#[derive(Drop)]
#[repr(C)]
pub struct WorldSlot {
    pub(crate) at: *mut u8,
    pub ghost whole: { Option Whole } by { wholes_coded },
}

impl Model for WorldSlot {
    ghost also_owns = { λ s. whole_filled s.at s.whole };
}

fn hand_sealed(loose: Loose<Hand, Global>) -> MutatorSlot
    ensures filled { result.hand ≡ Some loose.value }
{
    let Loose { at, alloc: _ } = loose;
    MutatorSlot { at: at as *mut u8 }
}

fn tracer_sealed(loose: Loose<TracerHand, Global>) -> TracerSlot
    ensures filled { result.hand ≡ Some loose.value }
{
    let Loose { at, alloc: _ } = loose;
    TracerSlot { at: at as *mut u8 }
}

fn whole_sealed(loose: Loose<Whole, Global>) -> WorldSlot
    ensures filled { result.whole ≡ Some loose.value }
{
    let Loose { at, alloc: _ } = loose;
    WorldSlot { at: at as *mut u8 }
}

pub fn hand_slot(hand: Box<Hand, Global>) -> MutatorSlot
    ensures filled { result.hand ≡ Some hand.value }
{
    hand_sealed(Loose::of(hand))
}

pub fn tracer_slot(hand: Box<TracerHand, Global>) -> TracerSlot
    ensures filled { result.hand ≡ Some hand.value }
{
    tracer_sealed(Loose::of(hand))
}

pub fn whole_slot(whole: Box<Whole, Global>) -> WorldSlot
    ensures filled { result.whole ≡ Some whole.value }
{
    whole_sealed(Loose::of(whole))
}
