//! A drain ends in a stop, and then every block is swept, or cleared of its marks.
ghost use Rattle.std.specs.Prelude.{◌<◌};
ghost use Rattle.std.specs.Bool.{OnTrue};
ghost use Rattle.mark_core.specs.Shapes.{IsShape};
ghost use Rattle.mark_core.specs.declared.kinds.Phase.TheVariants.{Clear, Sweep};
ghost use Rattle.gc_table.specs.Running.{Alone};
ghost use Rattle.gc_table.specs.Seats.{Sits, view_of};
ghost use Rattle.gc_table.specs.SeatRecords.{At, resting};
ghost use Rattle.card_clean.specs.Drained.{IsBeforeSweep, IsDrained, IsRooted};
ghost use Rattle.sweeper.specs.Sweepers.{Clears, Sweeps};
ghost use Rattle.test_heaps.specs.Seats.{HasEachObject, IsReadyWithCache, New};

use super::FOUR;
use super::objects::make_three;
use super::opening::opened;
use super::seasons::joins;
use alloc_cache::{Cache, retire};
use card_clean::{is_drained, see_to_roots};
use gc_table::{Heap, HeapSeat};
use mark_core::{Phase, Shape};
use std::process::Abort;
use std::sync::Wait;
use sweeper::{Swept, clear_marks_next, clear_rest, sweep_next, sweep_rest};
use test_heaps::{
    SMALL, are_bare, begins_sweep, drains, end_clear, end_sweep, forget, holds_nothing, leaves,
    make, next_turn, raises_own, resets, scans_all, stops_idle, take, work_in_hand,
};
use tracer::trace;

fn begins_clear(heap: &Heap, seat: &mut HeapSeat)
    requires { Sits heap.now seat.old × IsDrained (view_of seat.old) }
    ensures { Sits heap.now seat.new × Alone Clear (view_of seat.new) }
{
    heap.store_phase(seat, Phase::Clear);
}

fn told(swept: Option<Swept>) -> Option<(u32, u32, u32)> {
    match swept {
        Some(swept) => Some((swept.block, swept.blocks, swept.freed)),
        None => None,
    }
}

/// The next stretch: its first block, how many it has, and the cells freed.
fn sweeps(heap: &Heap, seat: &mut HeapSeat) -> Option<(u32, u32, u32)>
    requires { Sits heap.now seat.old × Sweeps (view_of seat.old) × Alone Sweep (view_of seat.old) }
    ensures { Sits heap.now seat.new × Sweeps (view_of seat.new) × Alone Sweep (view_of seat.new) }
{
    let swept = sweep_next(heap, seat);
    told(swept)
}

fn sweeps_all(
    heap: &Heap,
    seat: &mut HeapSeat,
) -> Option<(Option<(u32, u32, u32)>, Option<(u32, u32, u32)>, u32)>
    requires { Sits heap.now seat.old × Alone Sweep (view_of seat.old) }
{
    if seat.state().block.is_some() {
        return None;
    }
    let first = sweeps(heap, seat);
    let second = sweeps(heap, seat);
    let rest = sweep_rest(heap, seat);
    end_sweep(heap, seat);
    Some((first, second, rest))
}

fn clears(heap: &Heap, seat: &mut HeapSeat) -> Option<u32>
    requires { Sits heap.now seat.old × Clears (view_of seat.old) × Alone Clear (view_of seat.old) }
    ensures { Sits heap.now seat.new × Clears (view_of seat.new) × Alone Clear (view_of seat.new) }
{
    clear_marks_next(heap, seat)
}

/// The first blocks of two stretches.
fn clears_all(heap: &Heap, seat: &mut HeapSeat) -> Option<(Option<u32>, Option<u32>)>
    requires { Sits heap.now seat.old × Alone Clear (view_of seat.old) }
{
    if seat.state().block.is_some() {
        return None;
    }
    let first = clears(heap, seat);
    let second = clears(heap, seat);
    clear_rest(heap, seat);
    end_clear(heap, seat);
    Some((first, second))
}

/// An object that refers to two more, and two that become garbage.
fn make_five(heap: &Heap, seat: &mut HeapSeat, cache: &mut Cache)
    requires fields { 1 < heap.now.shape.fields }
    requires fills { IsReadyWithCache heap.now seat.old cache.old }
    ensures { IsReadyWithCache heap.now seat.new cache.new }
{
    make(heap, seat, cache, 3, 1);
    make_three(heap, seat, cache);
    make(heap, seat, cache, 3, 2);
    forget(heap, seat, cache, 3);
}

fn plays(heap: &Heap, seat: &mut HeapSeat) -> bool
    requires { New heap.now resting 1 seat.old }
{
    if heap.shape().fields < 2 || !joins(heap, seat) {
        return false;
    }
    let Some(mut cache) = take(heap, seat) else {
        return false;
    };
    make_five(heap, seat, &mut cache);
    retire(heap, seat, cache);
    leaves(heap, seat)
}

fn traces_in_stop(heap: &Heap, seat: &mut HeapSeat) -> bool
    requires { Sits heap.now seat.old × IsRooted (view_of seat.old) }
    ensures { Sits heap.now seat.new × IsBeforeSweep (view_of seat.new) }
{
    if !holds_nothing(seat) || seat.state().block.is_some() {
        return false;
    }
    trace(heap, seat, 100);
    true
}

/// Whether the drain ends: `drained` of `test_heaps`, after a trace.
fn drained_after_tracing(heap: &Heap, seat: &mut HeapSeat) -> bool
    requires { Sits heap.now seat.old × IsBeforeSweep (view_of seat.old) }
    ensures { OnTrue result (Sits heap.now seat.new × IsDrained (view_of seat.new)) }
{
    are_bare(seat.state().held)
        && !seat.state().reserved
        && !seat.state().credit
        && !work_in_hand(heap.shape().fields, seat)
        && see_to_roots(heap, seat)
        && is_drained(heap, seat)
}

fn ends_drain<R: Wait>(rt: &R, heap: &Heap, seat: &mut HeapSeat, k: u32) -> bool
    requires { At heap.now resting k seat.old }
    ensures { OnTrue result (Sits heap.now seat.new × IsDrained (view_of seat.new)) }
{
    if !raises_own(heap, seat, k) || !stops_idle(rt, heap, seat, k) {
        return false;
    }
    drains(heap, seat);
    resets(heap, seat);
    scans_all(heap, seat) && traces_in_stop(heap, seat) && drained_after_tracing(heap, seat)
}

const STRETCHES: Shape = Shape {
    cells: 320,
    stretch: 2,
    ..SMALL
};

#[test]
fn each_block_is_swept_once(rt: HostRuntime) {
    let (heap, mut zero, mut one, mut two) = opened(&rt, FOUR);
    let turned = next_turn(&rt, &heap, &mut zero);
    assert!(&rt; turned);
    let played = plays(&heap, &mut one);
    assert!(&rt; played);
    let ended = ends_drain(&rt, &heap, &mut two, 2);
    assert!(&rt; ended);
    begins_sweep(&heap, &mut two);
    assert!(&rt; sweeps_all(&heap, &mut two) == Some((Some((0, 1, 2)), None, 0)));
}

/// A new heap, and the seat that ended a drain in it.
fn drained<R: Abort + AllocGlobal + Wait>(rt: &R, shape: Shape) -> (Heap, HeapSeat)
    requires { IsShape shape × (0 < shape.sections) }
    ensures { Sits result.0 result.1 × IsDrained (view_of result.1) }
{
    let (heap, mut zero, mut one, _two) = opened(rt, shape);
    if !next_turn(rt, &heap, &mut zero) || !ends_drain(rt, &heap, &mut one, 1) {
        panic!(rt; "it doesn't end");
    }
    (heap, one)
}

#[test]
fn each_block_is_cleared_once(rt: HostRuntime) {
    let (heap, mut seat) = drained(&rt, SMALL);
    begins_clear(&heap, &mut seat);
    assert!(&rt; clears_all(&heap, &mut seat) == Some((Some(0), None)));
}

#[test]
fn stretches_are_cleared_once(rt: HostRuntime) {
    let (heap, mut seat) = drained(&rt, STRETCHES);
    begins_clear(&heap, &mut seat);
    assert!(&rt; clears_all(&heap, &mut seat) == Some((Some(0), Some(2))));
}

#[test]
fn stretches_are_swept_once(rt: HostRuntime) {
    let (heap, mut seat) = drained(&rt, STRETCHES);
    begins_sweep(&heap, &mut seat);
    let swept = sweeps_all(&heap, &mut seat);
    assert!(&rt; swept == Some((Some((0, 2, 0)), Some((2, 2, 0)), 0)));
}
