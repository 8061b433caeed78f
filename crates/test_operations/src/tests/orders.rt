//! A packet of four entries with one object is in the low pool, one with two in the high pool.
ghost use Rattle.std.specs.Prelude.{◌<◌};
ghost use Rattle.std.specs.Bool.{OnTrue};
ghost use Rattle.gc_table.specs.SeatRecords.{At, inside};
ghost use Rattle.test_operations.specs.Seats.{IsReadyMutator};

use super::DEEP;
use super::objects::{gives_up, make_three, publish, take};
use super::opening::begun;
use super::tracing::{scans, traces};
use gc_table::{Heap, HeapSeat};
use packet_pools::{give, take_input, take_output};
use test_heaps::make;

fn fills_both(heap: &Heap, seat: &mut HeapSeat) -> bool
    requires { IsReadyMutator heap.now seat.old × (1 < heap.now.shape.fields) }
    ensures { OnTrue result (IsReadyMutator heap.now seat.new) }
{
    let Some(mut cache) = take(heap, seat) else {
        return false;
    };
    make_three(heap, seat, &mut cache);
    publish(heap, seat, &mut cache);
    scans(heap, seat, &cache);
    traces(heap, seat, &cache, 1);
    make(heap, seat, &mut cache, 3, 10);
    scans(heap, seat, &cache);
    gives_up(heap, seat, cache);
    true
}

fn read_in_order(heap: &Heap, seat: &mut HeapSeat, k: u32) -> Option<(u32, u32)>
    requires { At heap.now inside k seat.old }
{
    let first = take_input(heap, seat)?;
    let Some(second) = take_input(heap, seat) else {
        give(heap, seat, first, false);
        return None;
    };
    let lengths = (first.length(), second.length());
    give(heap, seat, second, false);
    give(heap, seat, first, false);
    Some(lengths)
}

fn filled_in_order(heap: &Heap, seat: &mut HeapSeat, k: u32) -> Option<(u32, u32)>
    requires { At heap.now inside k seat.old }
{
    let first = take_output(heap, seat)?;
    let Some(second) = take_output(heap, seat) else {
        give(heap, seat, first, false);
        return None;
    };
    let lengths = (first.length(), second.length());
    give(heap, seat, second, false);
    give(heap, seat, first, false);
    Some(lengths)
}

/// The lengths of the two packets, in the order in which they are taken.
fn taken_in_order(
    heap: &Heap,
    zero: &mut HeapSeat,
    one: &mut HeapSeat,
    reads: bool,
) -> Option<(u32, u32)>
    requires { At heap.now inside 0 zero.old × IsReadyMutator heap.now one.old }
{
    if heap.shape().fields < 2 || !fills_both(heap, one) {
        return None;
    }
    if reads {
        read_in_order(heap, zero, 0)
    } else {
        filled_in_order(heap, zero, 0)
    }
}

#[test]
fn the_fuller_packet_is_read_first(rt: HostRuntime) {
    let (heap, mut zero, mut one, _two) = begun(&rt, DEEP);
    assert!(&rt; taken_in_order(&heap, &mut zero, &mut one, true) == Some((2, 1)));
}

#[test]
fn the_emptier_packet_is_filled_first(rt: HostRuntime) {
    let (heap, mut zero, mut one, _two) = begun(&rt, DEEP);
    assert!(&rt; taken_in_order(&heap, &mut zero, &mut one, false) == Some((1, 2)));
}
