//! What a call does with the tracer behind a handle.
ghost use Rattle.std.specs.Prelude.{IfErr, IfOk, IsFalse};
ghost use Rattle.managed_heap_c.specs.Tracers.{AnswersHelp, AnswersTurn, Dismissing, GivesTracer, GivesTracerBack, HoldsTracer, IsLent, LendsNone, TakesTracer};

use crate::hands::{AnyWorld, TracerHand, Whole};
use crate::slots::{TracerSlot, tracer_slot};
use crate::statuses::{
    GIVEN_BACK, NONE_LEFT, OK, OUT_OF_MEMORY, REFUSED, STOPPED, help_status, turn_status,
};
use seat_turns::Tracer;
use std::alloc::{AllocError, Global};

fn boxed_hand(alloc: Global) -> Result<Box<TracerHand, Global>, AllocError>
    ensures rests { IfOk result (λ hand. IsFalse hand.value.busy) }
{
    Ok(Box::new(alloc, TracerHand::empty())?)
}

fn tracer_of(whole: &mut Whole) -> Result<Tracer, u32>
    ensures lent { IfOk result (λ t. IsLent t whole.old.world whole.new.world) }
    ensures none { IfErr result (λ n. LendsNone n whole.old.world whole.new.world) }
{
    match &mut whole.world {
        None => Err(GIVEN_BACK),
        Some(world) => match world.lend_tracer() {
            None => Err(NONE_LEFT),
            Some(tracer) => Ok(tracer),
        },
    }
}

fn slot_of(hand: Box<TracerHand, Global>, lent: Tracer) -> TracerSlot
    requires rests { IsFalse hand.value.busy }
    ensures holds { HoldsTracer lent result }
{
    let mut hand = hand;
    hand.tracer = Some(lent);
    tracer_slot(hand)
}

/// Done, `NONE_LEFT`, `OUT_OF_MEMORY`, or `GIVEN_BACK` if the world was closed. The box is made first, so that no
/// tracer is lost without memory.
pub fn take_tracer_at(alloc: Global, whole: &mut Whole, out: &mut TracerSlot) -> u32
    ensures takes { TakesTracer result whole.old.world whole.new.world out.old out.new }
{
    let Ok(hand) = boxed_hand(alloc) else {
        return OUT_OF_MEMORY;
    };
    match tracer_of(whole) {
        Err(status) => status,
        Ok(tracer) => {
            *out = slot_of(hand, tracer);
            OK
        }
    }
}

fn empty_into(world: &mut AnyWorld, hand: &mut TracerHand) -> u32
    ensures gives { GivesTracerBack result world.old world.new hand.old.tracer hand.new.tracer }
{
    match hand.tracer.take() {
        None => GIVEN_BACK,
        Some(tracer) => match world.take_tracer_back(tracer) {
            Ok(()) => OK,
            Err(tracer) => {
                hand.tracer = Some(tracer);
                REFUSED
            }
        },
    }
}

/// Done, `REFUSED`, and then the handle keeps the tracer, or `GIVEN_BACK` if the handle or the world is empty.
pub fn give_tracer_by(whole: &mut Whole, hand: &mut TracerHand) -> u32
    ensures gives { GivesTracer result whole.old.world whole.new.world hand.old.tracer hand.new.tracer }
{
    match &mut whole.world {
        None => GIVEN_BACK,
        Some(world) => empty_into(world, hand),
    }
}

/// How the turn ended, or `GIVEN_BACK` if the handle is empty.
pub fn turn_by(hand: &mut TracerHand) -> u32
    ensures answers { AnswersTurn result hand.old.tracer hand.new.tracer }
{
    match &mut hand.tracer {
        None => GIVEN_BACK,
        Some(tracer) => turn_status(tracer.try_turn()),
    }
}

/// How the step of help ended, or `GIVEN_BACK` if the handle is empty.
pub fn help_turn_by(hand: &mut TracerHand, most: u32) -> u32
    ensures answers { AnswersHelp most result hand.old.tracer hand.new.tracer }
{
    match &mut hand.tracer {
        None => GIVEN_BACK,
        Some(tracer) => help_status(tracer.help_step(most)),
    }
}

/// Done, `STOPPED` if a stop is under way, or `GIVEN_BACK` if the world was closed.
pub fn dismiss_by(whole: &mut Whole) -> u32
    ensures dismisses { Dismissing result whole.old.world whole.new.world }
{
    match &mut whole.world {
        None => GIVEN_BACK,
        Some(world) => { if world.dismisses() { OK } else { STOPPED } }
    }
}
