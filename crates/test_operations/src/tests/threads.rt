//! Cells go from one thread to another in packets.
ghost use Rattle.std.specs.Prelude.{◌<◌};
ghost use Rattle.gc_table.specs.Seats.{Sits, view_of};
ghost use Rattle.gc_table.specs.SeatRecords.{At, inside, resting};
ghost use Rattle.packet_pools.specs.Tracing.{Traces};
ghost use Rattle.std.specs.Bool.{OnTrue};
ghost use Rattle.test_operations.specs.Seats.{IsReadyMutator};
ghost use Rattle.test_heaps.specs.Seats.{IsReadyWithCache};
ghost use Rattle.tracer.specs.Hands.{IsIdle};

use super::FOUR;
use super::meeting::Meeting;
use super::objects::{link, make_three, publish, take};
use super::opening::begun;
use super::tracing::{recycles, scans, traces};
use alloc_cache::{Cache, retire};
use gc_table::{Heap, HeapSeat};
use packet_pools::all_empty;
use std::sync::Wait;
use std::thread::{Threads, join_mut};
use test_heaps::{enters, sees_marking};
use tracer::trace;

fn joins(heap: &Heap, seat: &mut HeapSeat, k: u32) -> bool
    requires { At heap.now resting k seat.old }
    ensures { OnTrue result (At heap.now inside k seat.new) }
{
    enters(heap, seat, k) && sees_marking(heap, seat, k)
}

/// How many objects 200 turns trace, of four at most each.
fn traces_on(heap: &Heap, seat: &mut HeapSeat) -> u32
    requires { Sits heap.now seat.old × Traces (view_of seat.old) × IsIdle (view_of seat.old) }
    ensures { Sits heap.now seat.new × Traces (view_of seat.new) × IsIdle (view_of seat.new) }
{
    let mut done = 0u32;
    for _turn in 0..200 {
        done = done.wrapping_add(trace(heap, seat, 4).done);
    }
    done
}

/// They begin once the other threads are there.
fn begins_tracing<R: Wait>(
    rt: &R,
    heap: &Heap,
    seat: &mut HeapSeat,
    k: u32,
    meeting: &Meeting,
) -> u32
    requires { At heap.now inside k seat.old }
    ensures { Sits heap.now seat.new × Traces (view_of seat.new) × IsIdle (view_of seat.new) }
{
    meeting.come(rt);
    traces_on(heap, seat)
}

fn stores_on(heap: &Heap, seat: &mut HeapSeat, cache: &Cache)
    requires { IsReadyWithCache heap.now seat.old cache.now × (1 < heap.now.shape.fields) }
    ensures { IsReadyWithCache heap.now seat.new cache.now }
{
    for _turn in 0..200 {
        link(heap, seat, cache, 0, 0, 0);
        link(heap, seat, cache, 0, 1, 1);
    }
}

fn meets_and_stores<R: Wait>(
    rt: &R,
    heap: &Heap,
    seat: &mut HeapSeat,
    cache: &Cache,
    meeting: &Meeting,
)
    requires { IsReadyWithCache heap.now seat.old cache.now × (1 < heap.now.shape.fields) }
    ensures { IsReadyWithCache heap.now seat.new cache.now }
{
    meeting.come(rt);
    stores_on(heap, seat, cache);
}

fn both_trace<R: Threads + Wait + Sync>(
    rt: &R,
    heap: &Heap,
    zero: &mut HeapSeat,
    two: &mut HeapSeat,
    meeting: &Meeting,
)
    requires { At heap.now inside 0 zero.old × At heap.now inside 2 two.old }
    ensures { Sits heap.now zero.new × Sits heap.now two.new }
{
    join_mut(
        rt,
        &mut || begins_tracing(rt, heap, zero, 0, meeting),
        &mut || begins_tracing(rt, heap, two, 2, meeting),
    );
}

/// One thread stores while two others trace.
fn three_threads<R: Threads + Wait + Sync>(
    rt: &R,
    heap: &Heap,
    zero: &mut HeapSeat,
    one: &mut HeapSeat,
    two: &mut HeapSeat,
    cache: &Cache,
    meeting: &Meeting,
)
    requires tracers { At heap.now inside 0 zero.old × At heap.now inside 2 two.old }
    requires mutator { IsReadyWithCache heap.now one.old cache.now × (1 < heap.now.shape.fields) }
    ensures tracers { Sits heap.now zero.new × Sits heap.now two.new }
    ensures mutator { IsReadyWithCache heap.now one.new cache.now }
{
    join_mut(
        rt,
        &mut ||
            requires { At heap.now inside 0 zero.now × At heap.now inside 2 two.now }
        { both_trace(rt, heap, zero, two, meeting) },
        &mut || meets_and_stores(rt, heap, one, cache, meeting),
    );
}

fn settles(heap: &Heap, seat: &mut HeapSeat, cache: &Cache)
    requires { IsReadyWithCache heap.now seat.old cache.now }
    ensures { IsReadyWithCache heap.now seat.new cache.now }
{
    scans(heap, seat, cache);
    recycles(heap, seat, cache);
    traces(heap, seat, cache, 100);
}

/// Whether each seat finds all packets empty, once what the threads left is traced.
fn ends_empty<R: Threads + Wait + Sync>(
    rt: &R,
    heap: &Heap,
    zero: &mut HeapSeat,
    one: &mut HeapSeat,
    two: &mut HeapSeat,
    meeting: &Meeting,
) -> Option<[bool; 3]>
    requires tracers { At heap.now inside 0 zero.old × At heap.now inside 2 two.old }
    requires mutator { IsReadyMutator heap.now one.old }
{
    if heap.shape().fields < 2 {
        return None;
    }
    let mut cache = take(heap, one)?;
    make_three(heap, one, &mut cache);
    publish(heap, one, &mut cache);
    scans(heap, one, &cache);
    three_threads(rt, heap, zero, one, two, &cache, meeting);
    settles(heap, one, &cache);
    let answers = [
        all_empty(heap, zero),
        all_empty(heap, one),
        all_empty(heap, two),
    ];
    retire(heap, one, cache);
    Some(answers)
}

fn scans_and_waits<R: Wait>(
    rt: &R,
    heap: &Heap,
    seat: &mut HeapSeat,
    cache: &Cache,
    scanned: &Meeting,
    traced: &Meeting,
)
    requires { IsReadyWithCache heap.now seat.old cache.now }
    ensures { IsReadyWithCache heap.now seat.new cache.now }
{
    scans(heap, seat, cache);
    scanned.come(rt);
    traced.come(rt);
}

fn waits_and_traces<R: Wait>(
    rt: &R,
    heap: &Heap,
    seat: &mut HeapSeat,
    scanned: &Meeting,
    traced: &Meeting,
) -> u32
    requires { At heap.now inside 2 seat.old }
{
    let done = begins_tracing(rt, heap, seat, 2, scanned);
    traced.come(rt);
    done
}

/// How many objects another thread traces, while the one that scanned the roots still runs.
fn hands_over<R: Threads + Wait + Sync>(
    rt: &R,
    heap: &Heap,
    one: &mut HeapSeat,
    two: &mut HeapSeat,
) -> Option<u32>
    requires { IsReadyMutator heap.now one.old × At heap.now inside 2 two.old }
{
    if heap.shape().fields < 2 {
        return None;
    }
    let mut cache = take(heap, one)?;
    make_three(heap, one, &mut cache);
    publish(heap, one, &mut cache);
    let scanned = Meeting::of(2);
    let traced = Meeting::of(2);
    let (_scanned, done) = join_mut(
        rt,
        &mut || scans_and_waits(rt, heap, one, &cache, &scanned, &traced),
        &mut || waits_and_traces(rt, heap, two, &scanned, &traced),
    );
    retire(heap, one, cache);
    if scanned.is_met() && traced.is_met() {
        Some(done)
    } else {
        None
    }
}

#[test]
fn cells_go_from_thread_to_thread(rt: HostRuntime) {
    let (heap, _zero, mut one, mut two) = begun(&rt, FOUR);
    let joined = joins(&heap, &mut two, 2);
    assert!(&rt; joined);
    assert!(&rt; hands_over(&rt, &heap, &mut one, &mut two) == Some(3));
}

#[test]
fn all_packets_are_empty_in_the_end(rt: HostRuntime) {
    let (heap, mut zero, mut one, mut two) = begun(&rt, FOUR);
    let joined = joins(&heap, &mut two, 2);
    assert!(&rt; joined);
    let meeting = Meeting::of(3);
    let empty = ends_empty(&rt, &heap, &mut zero, &mut one, &mut two, &meeting);
    assert!(&rt; meeting.is_met() && empty == Some([true, true, true]));
}
