//! Tracers for programs in C: one thread marks with each, beside the mutators.
ghost use Rattle.managed_heap_c.specs.Tracers.{AnswersHelpOnce, AnswersTurnOnce, Dismissing, GivesTracerOnce, TakesTracer};

use crate::handles::{TracerHandle, WorldHandle};
use crate::lending::{lend_tracer, lend_whole};
use crate::slots::TracerSlot;
use crate::statuses::IN_USE;
use crate::tracers::{dismiss_by, give_tracer_by, help_turn_by, take_tracer_at, turn_by};
use crate::using::{begins_turn, ends_turn};
use std::alloc::Global;

/// Takes a tracer of the world, and fills its handle.
#[unsafe(no_mangle)]
pub extern "C" fn mhl_take_tracer(
    alloc: Global,
    world: &mut WorldHandle,
    out: &mut TracerSlot,
) -> u32
    ensures takes { TakesTracer result world.old.whole.world world.new.whole.world out.old out.new }
{
    take_tracer_at(alloc, lend_whole(world), out)
}

/// One turn of a tracer, which doesn't wait.
#[unsafe(no_mangle)]
pub extern "C" fn mhl_trace_turn(h: &mut TracerHandle) -> u32
    ensures answers { AnswersTurnOnce result h.old.hand h.new.hand }
{
    let hand = lend_tracer(h);
    if !begins_turn(hand) {
        return IN_USE;
    }
    let answer = turn_by(hand);
    ends_turn(hand);
    answer
}

/// A step of help by a tracer, in a stop: at most `most` objects or blocks (or one stretch).
#[unsafe(no_mangle)]
pub extern "C" fn mhl_help_turn(h: &mut TracerHandle, most: u32) -> u32
    ensures answers { AnswersHelpOnce most result h.old.hand h.new.hand }
{
    let hand = lend_tracer(h);
    if !begins_turn(hand) {
        return IN_USE;
    }
    let answer = help_turn_by(hand, most);
    ends_turn(hand);
    answer
}

/// Gives a tracer back to the world.
#[unsafe(no_mangle)]
pub extern "C" fn mhl_give_back_tracer(world: &mut WorldHandle, h: &mut TracerHandle) -> u32
    ensures gives { GivesTracerOnce result world.old.whole.world world.new.whole.world h.old.hand h.new.hand }
{
    let hand = lend_tracer(h);
    if !begins_turn(hand) {
        return IN_USE;
    }
    let answer = give_tracer_by(lend_whole(world), hand);
    ends_turn(hand);
    answer
}

/// Dismisses the world's tracers, if no stop is under way.
#[unsafe(no_mangle)]
pub extern "C" fn mhl_dismiss_step(world: &mut WorldHandle) -> u32
    ensures dismisses { Dismissing result world.old.whole.world world.new.whole.world }
{
    dismiss_by(lend_whole(world))
}
