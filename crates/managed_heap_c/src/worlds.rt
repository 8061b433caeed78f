//! Worlds are opened and closed, and lend their mutators.
ghost use Rattle.std.specs.Prelude.{◌≡◌, IfErr, IfOk, IsFalse, Some};
ghost use Rattle.managed_heap_c.specs.Answering.{ClosesWorld, CountsWorld, Gives, GivesBack};
ghost use Rattle.managed_heap_c.specs.Taking.{HasNone, HoldsSteps, Lends, OpensWorld, TakesMutator};

use crate::hands::{AnyWorld, Hand, Whole};
use crate::sizes::{CNumbers, CSizes};
use crate::slots::{MutatorSlot, WorldSlot, hand_slot, whole_slot};
use crate::statuses::{
    COLLECTING, GIVEN_BACK, NONE_LEFT, OK, OUT_OF_MEMORY, OUT_OF_RANGE, REFUSED, STILL_LENT,
};
use managed_heap::NotOpened;
use seat_steps::Stepper;
use std::alloc::{AllocError, Global};

fn boxed_world(alloc: Global, world: AnyWorld) -> Result<Box<Whole, Global>, AllocError>
    ensures has { IfOk result (λ whole. whole.value.world ≡ Some world) }
{
    Ok(Box::new(alloc, Whole { world: Some(world) })?)
}

fn boxed_hand(alloc: Global) -> Result<Box<Hand, Global>, AllocError>
    ensures rests { IfOk result (λ hand. IsFalse hand.value.busy) }
{
    Ok(Box::new(alloc, Hand::empty())?)
}

/// Done, and the handle is filled; otherwise `OUT_OF_RANGE` or `OUT_OF_MEMORY`.
pub fn open_at(alloc: Global, sizes: &CSizes, out: &mut WorldSlot) -> u32
    ensures opens { OpensWorld result sizes.now out.old out.new }
{
    match AnyWorld::open(alloc, sizes) {
        Err(NotOpened::OutOfRange) => OUT_OF_RANGE,
        Err(NotOpened::OutOfMemory) => OUT_OF_MEMORY,
        Ok(world) => match boxed_world(alloc, world) {
            Err(_) => OUT_OF_MEMORY,
            Ok(whole) => {
                *out = whole_slot(whole);
                OK
            }
        },
    }
}

fn mutator_of(whole: &mut Whole) -> Result<Stepper, u32>
    ensures lent { IfOk result (λ s. Lends s whole.old.world whole.new.world) }
    ensures none { IfErr result (λ n. HasNone n whole.old.world whole.new.world) }
{
    match &mut whole.world {
        None => Err(GIVEN_BACK),
        Some(world) => match world.lend() {
            None => Err(NONE_LEFT),
            Some(stepper) => Ok(stepper),
        },
    }
}

fn slot_of(hand: Box<Hand, Global>, stepper: Stepper) -> MutatorSlot
    requires rests { IsFalse hand.value.busy }
    ensures holds { HoldsSteps stepper result }
{
    let mut hand = hand;
    hand.stepper = Some(stepper);
    hand_slot(hand)
}

/// Done, `NONE_LEFT`, `OUT_OF_MEMORY`, or `GIVEN_BACK` if the world was closed. The box is made first, so that no
/// mutator is lost without memory.
pub fn take_at(alloc: Global, whole: &mut Whole, out: &mut MutatorSlot) -> u32
    ensures takes { TakesMutator result whole.old.world whole.new.world out.old out.new }
{
    let Ok(hand) = boxed_hand(alloc) else {
        return OUT_OF_MEMORY;
    };
    match mutator_of(whole) {
        Err(status) => status,
        Ok(stepper) => {
            *out = slot_of(hand, stepper);
            OK
        }
    }
}

fn empty_into(world: &mut AnyWorld, hand: &mut Hand) -> u32
    ensures gives { GivesBack result world.old world.new hand.old.stepper hand.new.stepper }
{
    match hand.stepper.take() {
        None => GIVEN_BACK,
        Some(stepper) => {
            if stepper.is_collecting() {
                hand.stepper = Some(stepper);
                return COLLECTING;
            }
            match world.take_back(stepper) {
                Ok(()) => OK,
                Err(kept) => {
                    hand.stepper = Some(kept);
                    REFUSED
                }
            }
        }
    }
}

/// Done, `COLLECTING` or `REFUSED`, and then the handle keeps the mutator, or `GIVEN_BACK` if the handle or the world is
/// empty.
pub fn give_by(whole: &mut Whole, hand: &mut Hand) -> u32
    ensures gives { Gives result whole.old.world whole.new.world hand.old.stepper hand.new.stepper }
{
    match &mut whole.world {
        None => GIVEN_BACK,
        Some(world) => empty_into(world, hand),
    }
}

/// Done if all mutators and tracers are back, otherwise `STILL_LENT`, or `GIVEN_BACK` if it was closed before.
pub fn close_by(whole: &mut Whole) -> u32
    ensures closes { ClosesWorld result whole.old.world whole.new.world }
{
    match whole.world.take() {
        None => GIVEN_BACK,
        Some(world) => match world.close() {
            Ok(()) => OK,
            Err(world) => {
                whole.world = Some(world);
                STILL_LENT
            }
        },
    }
}

/// Done, or `GIVEN_BACK` if the world was closed.
pub fn read_by(whole: &mut Whole, out: &mut CNumbers) -> u32
    ensures reads { CountsWorld result whole.old.world whole.new.world out.old out.new }
{
    match &mut whole.world {
        None => GIVEN_BACK,
        Some(world) => {
            *out = world.count();
            OK
        }
    }
}
