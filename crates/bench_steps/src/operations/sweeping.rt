//! In a stopped world nothing is left to trace, and all blocks are swept, again and again.
ghost use Rattle.std.specs.Prelude.{◌≡◌, None};
ghost use Rattle.std.specs.Bool.{OnTrue};
ghost use Rattle.mark_core.specs.declared.kinds.Phase.TheVariants.{Idle};
ghost use Rattle.gc_table.specs.Running.{Alone};
ghost use Rattle.gc_table.specs.Seats.{Sits, state_of, view_of};
ghost use Rattle.gc_table.specs.SeatRecords.{resting};
ghost use Rattle.card_clean.specs.Drained.{IsBeforeSweep, IsDrained};
ghost use Rattle.bench_steps.specs.Standing.{Blank, StandsAlone};

use crate::operations::opening::open;
use gc_table::{Heap, HeapSeat};
use std::alloc::Global;
use std::sync::Wait;
use stop_world::resume;
use sweeper::sweep_rest;
use test_heaps::{
    are_bare, begins_sweep, drained, drains, end_sweep, leaves, raises_own, resets, stops_idle,
    try_close, work_in_hand,
};

fn stands_alone(heap: &Heap, seat: &HeapSeat) -> bool
    requires { Sits heap.now seat.now }
    ensures { OnTrue result (StandsAlone (view_of seat.now)) }
{
    let s = seat.state();
    s.knows
        && s.alone
        && (!s.reserved && !s.credit)
        && are_bare(s.held)
        && !work_in_hand(heap.shape().fields, seat)
        && s.block.is_none()
}

fn stops<R: Wait>(rt: &R, heap: &Heap, seat: &mut HeapSeat) -> bool
    requires { Blank heap.now resting seat.old }
    ensures { OnTrue result (Sits heap.now seat.new × Alone Idle (view_of seat.new)) }
{
    raises_own(heap, seat, 0) && stops_idle(rt, heap, seat, 0)
}

fn prepare(heap: &Heap, seat: &mut HeapSeat)
    requires seat { Sits heap.now seat.old }
    requires alone { Alone Idle (view_of seat.old) }
    ensures seat { Sits heap.now seat.new }
    ensures ready { IsBeforeSweep (view_of seat.new) }
{
    drains(heap, seat);
    resets(heap, seat);
}

#[inline(never)]
fn settle(heap: &Heap, seat: &mut HeapSeat) -> bool
    requires seat { Sits heap.now seat.old }
    requires ready { IsBeforeSweep (view_of seat.old) }
    ensures seat { Sits heap.now seat.new }
    ensures ready { OnTrue result (IsBeforeSweep (view_of seat.new)) }
    ensures drained { OnTrue result (IsDrained (view_of seat.new)) }
{
    if !drained(heap, seat) {
        return false;
    }
    true
}

/// Sweeps all blocks, and ends the cycle.
#[inline(never)]
fn sweep_all(heap: &Heap, seat: &mut HeapSeat)
    requires seat { Sits heap.now seat.old }
    requires drained { IsDrained (view_of seat.old) }
    requires block { (state_of seat.old).block ≡ None }
    ensures seat { Sits heap.now seat.new }
    ensures alone { Alone Idle (view_of seat.new) }
{
    begins_sweep(heap, seat);
    sweep_rest(heap, seat);
    end_sweep(heap, seat);
}

/// Ends the drain, if nothing is left to trace, and sweeps.
fn end(heap: &Heap, seat: &mut HeapSeat) -> bool
    requires seat { Sits heap.now seat.old }
    requires ready { IsBeforeSweep (view_of seat.old) }
    ensures seat { Sits heap.now seat.new }
    ensures alone { OnTrue result (Alone Idle (view_of seat.new)) }
{
    if !settle(heap, seat) || !stands_alone(heap, seat) {
        return false;
    }
    sweep_all(heap, seat);
    true
}

fn sweeps(heap: &Heap, seat: &mut HeapSeat, rounds: u64) -> bool
    requires seat { Sits heap.now seat.old }
    requires alone { Alone Idle (view_of seat.old) }
    ensures seat { Sits heap.now seat.new }
    ensures alone { OnTrue result (Alone Idle (view_of seat.new)) }
{
    for _round in 0..rounds {
        prepare(heap, seat);
        if !end(heap, seat) {
            return false;
        }
    }
    true
}

/// One cycle, which looks so often whether anything is left to trace.
fn settles(heap: &Heap, seat: &mut HeapSeat, rounds: u64) -> bool
    requires seat { Sits heap.now seat.old }
    requires alone { Alone Idle (view_of seat.old) }
    ensures seat { Sits heap.now seat.new }
    ensures alone { OnTrue result (Alone Idle (view_of seat.new)) }
{
    prepare(heap, seat);
    for _round in 0..rounds {
        if !settle(heap, seat) {
            return false;
        }
    }
    end(heap, seat)
}

fn finish(heap: &Heap, seat: &mut HeapSeat) -> bool
    requires seat { Sits heap.now seat.old }
    requires alone { Alone Idle (view_of seat.old) }
    ensures { Sits heap.now seat.new }
{
    if !stands_alone(heap, seat) {
        return false;
    }
    resume(heap, seat);
    leaves(heap, seat)
}

/// So many cycles, or one that looks so often whether it is at its end.
fn cycles<R: Wait>(rt: &R, heap: &Heap, seat: &mut HeapSeat, rounds: u64, swept: bool) -> bool
    requires { Blank heap.now resting seat.old }
    ensures { OnTrue result (Sits heap.now seat.new) }
{
    if !stops(rt, heap, seat) {
        return false;
    }
    let ended = if swept {
        sweeps(heap, seat, rounds)
    } else {
        settles(heap, seat, rounds)
    };
    if ended { finish(heap, seat) } else { false }
}

/// Cycles in a new heap. False if there is no memory or a step could not be taken.
pub fn run<R: Wait>(rt: &R, alloc: Global, rounds: u64, swept: bool) -> bool {
    let Some((heap, mut seat)) = open(alloc) else {
        return false;
    };
    cycles(rt, &heap, &mut seat, rounds, swept) && try_close(alloc, heap, seat)
}
