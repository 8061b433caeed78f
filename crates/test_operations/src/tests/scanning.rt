//! What is left of an object in scan is marked, and goes into the packet while that has room.
ghost use Rattle.std.specs.Prelude.{◌<◌, None, false, IsFalse, IsTrue};
ghost use Rattle.std.specs.Bool.{OnTrue};
ghost use Rattle.mark_core.specs.Held.{has_free_slot};
ghost use Rattle.mark_core.specs.Seats.{cleaning_left, work_in_hand};
ghost use Rattle.gc_table.specs.Seats.{state_of, view_of};
ghost use Rattle.packet_pools.specs.Hands.{HoldsPacket};
ghost use Rattle.packet_pools.specs.Scanning.{InHand};
ghost use Rattle.packet_pools.specs.Tracing.{IsTracer};
ghost use Rattle.tracer.specs.Parts.{HasPopped};
ghost use Rattle.test_operations.specs.Seats.{IsReadyMutator};
ghost use Rattle.test_heaps.specs.Seats.{IsReadyWithCache};

use super::objects::{gives_up, link, publish, take};
use super::opening::begun;
use super::tracing::{is_idle, scans};
use alloc_cache::Cache;
use gc_table::{Heap, HeapSeat};
use mark_core::{BLOCK_CELLS, Cell, Shape, has_bit};
use packet_pools::{Held, Scanned, give, pop, scan_cell, take_input};
use std::process::Abort;
use test_heaps::{SMALL, forget, make};

/// What a scan came to, and how many cells were in the packet after it.
type Filled = (Scanned, u32);

const WIDE: Shape = Shape { fields: 6, ..SMALL };

/// An object in variable 0, whose first fields refer to so many others, and the next field to the last of these.
fn make_star(heap: &Heap, seat: &mut HeapSeat, cache: &mut Cache, others: u8)
    requires fields { others < heap.now.shape.fields }
    requires fills { IsReadyWithCache heap.now seat.old cache.old }
    ensures { IsReadyWithCache heap.now seat.new cache.new }
{
    make(heap, seat, cache, 0, 7);
    for i in 0..others {
        make(heap, seat, cache, 1, 8);
        link(heap, seat, cache, 0, i, 1);
    }
    link(heap, seat, cache, 0, others, 1);
    forget(heap, seat, cache, 1);
}

fn marks_root(heap: &Heap, seat: &mut HeapSeat, others: u8) -> bool
    requires { IsReadyMutator heap.now seat.old × (others < heap.now.shape.fields) }
    ensures { OnTrue result (IsReadyMutator heap.now seat.new) }
{
    let Some(mut cache) = take(heap, seat) else {
        return false;
    };
    make_star(heap, seat, &mut cache, others);
    publish(heap, seat, &mut cache);
    scans(heap, seat, &cache);
    gives_up(heap, seat, cache);
    true
}

/// Reads the allocation bit of the object that was popped, which then is in scan.
fn begins_scan<R: Abort>(rt: &R, heap: &Heap, seat: &mut HeapSeat, held: &Held, cell: Cell)
    requires seat { IsTracer heap.now seat.old }
    requires held { HoldsPacket held.now (view_of seat.old) × IsTrue (has_free_slot (state_of seat.old).held) }
    requires cell { HasPopped cell false (view_of seat.old) }
    ensures seat { IsTracer heap.now seat.new }
    ensures held { HoldsPacket held.now (view_of seat.new) × IsTrue (has_free_slot (state_of seat.new).held) }
    ensures hand { InHand None None (state_of seat.new) × IsFalse (cleaning_left (state_of seat.new).cleaning) }
{
    let word = heap.read_alloc(seat, cell.number() / BLOCK_CELLS);
    if !has_bit(word, cell.number() % BLOCK_CELLS) {
        panic!(rt; "it isn't published");
    }
}

/// Scans it, and again when nothing is left.
fn scans_twice(heap: &Heap, seat: &mut HeapSeat, held: &mut Held) -> (Filled, Filled)
    requires seat { IsTracer heap.now seat.old }
    requires held { HoldsPacket held.old (view_of seat.old) × IsTrue (has_free_slot (state_of seat.old).held) }
    requires hand { InHand None None (state_of seat.old) × IsFalse (cleaning_left (state_of seat.old).cleaning) }
    ensures seat { IsTracer heap.now seat.new }
    ensures held { HoldsPacket held.new (view_of seat.new) }
    ensures work { IsFalse (work_in_hand heap.now.shape.fields (state_of seat.new)) }
{
    let first = scan_cell(heap, seat, held);
    let length = held.length();
    let second = scan_cell(heap, seat, held);
    ((first, length), (second, held.length()))
}

fn scans_popped<R: Abort>(rt: &R, heap: &Heap, seat: &mut HeapSeat) -> Option<(Filled, Filled)>
    requires { IsReadyMutator heap.now seat.old }
{
    if !is_idle(seat) {
        return None;
    }
    let mut held = take_input(heap, seat)?;
    let Some(cell) = pop(heap, seat, &mut held) else {
        give(heap, seat, held, false);
        return None;
    };
    begins_scan(rt, heap, seat, &held, cell);
    let found = scans_twice(heap, seat, &mut held);
    give(heap, seat, held, false);
    Some(found)
}

fn answers<R: Abort>(
    rt: &R,
    heap: &Heap,
    seat: &mut HeapSeat,
    others: u8,
) -> Option<(Filled, Filled)>
    requires { IsReadyMutator heap.now seat.old }
{
    if u32::from(others) >= heap.shape().fields || !marks_root(heap, seat, others) {
        return None;
    }
    scans_popped(rt, heap, seat)
}

/// To how many others an object refers, how many of them find no room, and how many cells are in the packet then.
const ROWS: [(u8, u32, u32); 4] = [(1, 0, 1), (2, 0, 2), (3, 0, 1), (5, 1, 2)];

#[test]
fn each_object_that_a_field_leads_to_is_marked_once(rt: HostRuntime) {
    for (others, overflowed, length) in ROWS {
        let (heap, _zero, mut one, _two) = begun(&rt, WIDE);
        let first = Scanned {
            marked: u32::from(others),
            overflowed,
        };
        let found = answers(&rt, &heap, &mut one, others);
        assert!(&rt;
            found == Some(((first, length), (Scanned::none(), length))),
            "{others}"
        );
    }
}
