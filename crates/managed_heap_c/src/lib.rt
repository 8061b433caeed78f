//! The heap for C (`c/include/managed_heap.h`): handles of worlds, mutators and tracers, whose calls answer a status.
//!
//! A handle is a struct of C with the address of what lies behind it. C gives it to one call at a time: a call marks
//! what is behind it, and one that finds the mark is refused, unless the handle is given back meanwhile. The calls of
//! a mutator are those of `Stepper` in `seat_steps`; `MH_` statuses are those of the header.
#![tactic(auto)]

mod acting;
mod acts;
mod asked;
mod asking;
mod bytes;
mod calls;
mod collecting;
mod course;
mod deaths;
mod handles;
mod hands;
mod kinds;
mod lending;
mod looking;
mod loose;
mod making;
mod own;
mod sharing;
mod sizes;
mod slots;
mod stamping;
mod stamps;
mod statuses;
mod storing;
mod tracers;
mod tracing;
mod unpacking;
mod upgrades;
mod upgrading;
mod using;
mod work;
mod worlds;

ghost use Rattle.plain_heap.specs.declared.operation.Op.TheVariants as ops;
ghost use Rattle.seat_steps.specs.Refilling.{MakesCached, StepperRefills};
ghost use Rattle.seat_steps.specs.Stepping.{Entered, Left, StepperMakes, Operates, Passed};
ghost use Rattle.managed_heap_c.specs.Answering.{AnswersOnce, ClosesWorld, CountsWorld, GivesOnce, ReadsTo, SparesUnused};
ghost use Rattle.managed_heap_c.specs.Making.{MakesWith};
ghost use Rattle.managed_heap_c.specs.Storing.{Stores};
ghost use Rattle.managed_heap_c.specs.Taking.{OpensWorld, TakesMutator};

use calls::{
    copy_by, enter_by, forget_by, get_by, leave_by, make_by, make_cached_by, make_with_by, pass_by,
    put_by, refill_by, set_by, value_by,
};
use handles::{MutatorHandle, WorldHandle};
use lending::{lend_hand, lend_whole};
use sizes::{CNumbers, CSizes};
use slots::{MutatorSlot, WorldSlot};
use statuses::IN_USE;
use std::alloc::Global;
use using::{begins, ends};
use worlds::{close_by, give_by, open_at, read_by, take_at};

/// Enters the world, if no stop is under way.
#[unsafe(no_mangle)]
pub extern "C" fn mhl_enter_step(h: &mut MutatorHandle) -> u32
    ensures answers { AnswersOnce Entered result h.old.hand h.new.hand }
{
    let hand = lend_hand(h);
    if !begins(hand) {
        return IN_USE;
    }
    let answer = enter_by(hand);
    ends(hand);
    answer
}

/// Leaves the world.
#[unsafe(no_mangle)]
pub extern "C" fn mhl_leave(h: &mut MutatorHandle) -> u32
    ensures answers { AnswersOnce Left result h.old.hand h.new.hand }
{
    let hand = lend_hand(h);
    if !begins(hand) {
        return IN_USE;
    }
    let answer = leave_by(hand);
    ends(hand);
    answer
}

/// A safe point: if a stop is under way the mutator leaves.
#[unsafe(no_mangle)]
pub extern "C" fn mhl_pass(h: &mut MutatorHandle) -> u32
    ensures answers { AnswersOnce Passed result h.old.hand h.new.hand }
{
    let hand = lend_hand(h);
    if !begins(hand) {
        return IN_USE;
    }
    let answer = pass_by(hand);
    ends(hand);
    answer
}

/// Makes an object in variable v.
#[unsafe(no_mangle)]
pub extern "C" fn mhl_make(h: &mut MutatorHandle, v: u32, value: u32) -> u32
    ensures answers { AnswersOnce (λ came. StepperMakes came (ops.New v value)) result h.old.hand h.new.hand }
{
    let hand = lend_hand(h);
    if !begins(hand) {
        return IN_USE;
    }
    let answer = make_by(hand, v, value);
    ends(hand);
    answer
}

/// Makes an object in variable v, if a cell of the mutator's cache is free.
#[unsafe(no_mangle)]
pub extern "C" fn mhl_make_cached(h: &mut MutatorHandle, v: u32, value: u32) -> u32
    ensures answers { AnswersOnce (λ came. MakesCached came (ops.New v value)) result h.old.hand h.new.hand }
{
    let hand = lend_hand(h);
    if !begins(hand) {
        return IN_USE;
    }
    let answer = make_cached_by(hand, v, value);
    ends(hand);
    answer
}

/// The next step on the way to a cache with a free cell, of at most `most` blocks.
#[unsafe(no_mangle)]
pub extern "C" fn mhl_refill_step(h: &mut MutatorHandle, most: u32) -> u32
    ensures answers { AnswersOnce (StepperRefills most) result h.old.hand h.new.hand }
{
    let hand = lend_hand(h);
    if !begins(hand) {
        return IN_USE;
    }
    let answer = refill_by(hand, most);
    ends(hand);
    answer
}

/// Makes an object in variable v whose first fields become these variables; for 4,294,967,295 a field stays nil.
#[unsafe(no_mangle)]
pub extern "C" fn mhl_make_with(h: &mut MutatorHandle, v: u32, value: u32, fields: &[u32]) -> u32
    ensures answers { AnswersOnce (MakesWith v value fields.now) result h.old.hand h.new.hand }
{
    let hand = lend_hand(h);
    if !begins(hand) {
        return IN_USE;
    }
    let answer = make_with_by(hand, v, value, fields);
    ends(hand);
    answer
}

/// Field i of the object of v becomes w, if v refers to one.
#[unsafe(no_mangle)]
pub extern "C" fn mhl_set(h: &mut MutatorHandle, v: u32, i: u32, w: u32) -> u32
    ensures answers { AnswersOnce (Stores v (ops.Set v i w)) result h.old.hand h.new.hand }
{
    let hand = lend_hand(h);
    if !begins(hand) {
        return IN_USE;
    }
    let answer = set_by(hand, v, i, w);
    ends(hand);
    answer
}

/// Variable w becomes field i of the object of v.
#[unsafe(no_mangle)]
pub extern "C" fn mhl_get(h: &mut MutatorHandle, w: u32, v: u32, i: u32) -> u32
    ensures answers { AnswersOnce (λ came. Operates came (ops.Get w v i)) result h.old.hand h.new.hand }
{
    let hand = lend_hand(h);
    if !begins(hand) {
        return IN_USE;
    }
    let answer = get_by(hand, w, v, i);
    ends(hand);
    answer
}

/// Variable w becomes v.
#[unsafe(no_mangle)]
pub extern "C" fn mhl_copy(h: &mut MutatorHandle, w: u32, v: u32) -> u32
    ensures answers { AnswersOnce (λ came. Operates came (ops.Let w v)) result h.old.hand h.new.hand }
{
    let hand = lend_hand(h);
    if !begins(hand) {
        return IN_USE;
    }
    let answer = copy_by(hand, w, v);
    ends(hand);
    answer
}

/// Variable v becomes nil.
#[unsafe(no_mangle)]
pub extern "C" fn mhl_forget(h: &mut MutatorHandle, v: u32) -> u32
    ensures answers { AnswersOnce (λ came. Operates came (ops.Nil v)) result h.old.hand h.new.hand }
{
    let hand = lend_hand(h);
    if !begins(hand) {
        return IN_USE;
    }
    let answer = forget_by(hand, v);
    ends(hand);
    answer
}

/// The value of the object of v becomes this one, if v refers to one.
#[unsafe(no_mangle)]
pub extern "C" fn mhl_put(h: &mut MutatorHandle, v: u32, value: u32) -> u32
    ensures answers { AnswersOnce (Stores v (ops.Put v value)) result h.old.hand h.new.hand }
{
    let hand = lend_hand(h);
    if !begins(hand) {
        return IN_USE;
    }
    let answer = put_by(hand, v, value);
    ends(hand);
    answer
}

/// Writes the value of the object of v.
#[unsafe(no_mangle)]
pub extern "C" fn mhl_value(h: &mut MutatorHandle, v: u32, out: &mut u32) -> u32
    ensures answers { AnswersOnce (ReadsTo v out.old out.new) result h.old.hand h.new.hand }
    ensures quiet { SparesUnused h.old.hand out.old out.new }
{
    let hand = lend_hand(h);
    if !begins(hand) {
        return IN_USE;
    }
    let answer = value_by(hand, v, out);
    ends(hand);
    answer
}

/// Opens a world, and fills its handle.
#[unsafe(no_mangle)]
pub extern "C" fn mhl_open(alloc: Global, sizes: &CSizes, out: &mut WorldSlot) -> u32
    ensures opens { OpensWorld result sizes.now out.old out.new }
{
    open_at(alloc, sizes, out)
}

/// Takes a mutator of the world, and fills its handle.
#[unsafe(no_mangle)]
pub extern "C" fn mhl_take_mutator(
    alloc: Global,
    world: &mut WorldHandle,
    out: &mut MutatorSlot,
) -> u32
    ensures takes { TakesMutator result world.old.whole.world world.new.whole.world out.old out.new }
{
    take_at(alloc, lend_whole(world), out)
}

/// Gives a mutator back to the world. It leaves first.
#[unsafe(no_mangle)]
pub extern "C" fn mhl_give_back(world: &mut WorldHandle, h: &mut MutatorHandle) -> u32
    ensures gives { GivesOnce result world.old.whole.world world.new.whole.world h.old.hand h.new.hand }
{
    let hand = lend_hand(h);
    if !begins(hand) {
        return IN_USE;
    }
    let answer = give_by(lend_whole(world), hand);
    ends(hand);
    answer
}

/// Closes the world, and frees its heap.
#[unsafe(no_mangle)]
pub extern "C" fn mhl_close(world: &mut WorldHandle) -> u32
    ensures closes { ClosesWorld result world.old.whole.world world.new.whole.world }
{
    close_by(lend_whole(world))
}

/// Reads the numbers of the world.
#[unsafe(no_mangle)]
pub extern "C" fn mhl_statistics(world: &mut WorldHandle, out: &mut CNumbers) -> u32
    ensures reads { CountsWorld result world.old.whole.world world.new.whole.world out.old out.new }
{
    read_by(lend_whole(world), out)
}
