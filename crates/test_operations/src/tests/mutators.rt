//! A mutator's commands on objects that it made, and what they print.
ghost use Rattle.std.specs.Prelude.{◌≢◌, ◌<◌, Some};
ghost use Rattle.std.specs.Bool.{OnTrue};
ghost use Rattle.gc_table.specs.Seats.{state_of};
ghost use Rattle.test_operations.specs.Seats.{IsReadyMutator};

use super::objects::{gives_up, take};
use super::opening::begun;
use gc_table::{Heap, HeapSeat};
use mutator_ops::{assign, clear, command, follow, lend, put, say, set, sum};
use plain_heap::{Line, Op};
use test_heaps::{SMALL, make};

fn is_warehouse(seat: &HeapSeat) -> bool
    ensures { OnTrue result ((state_of seat.now).section ≢ Some 0) }
{
    match seat.state().section {
        Some(section) => section != 0,
        None => false,
    }
}

/// Variable 0's object has value 7, and its field 0 refers to that of variable 1, with value 8.
fn makes_two(heap: &Heap, seat: &mut HeapSeat) -> bool
    requires { IsReadyMutator heap.now seat.old × (0 < heap.now.shape.fields) }
    ensures { OnTrue result (IsReadyMutator heap.now seat.new) }
{
    let Some(mut cache) = take(heap, seat) else {
        return false;
    };
    make(heap, seat, &mut cache, 0, 7);
    make(heap, seat, &mut cache, 1, 8);
    gives_up(heap, seat, cache);
    let dropped = set(heap, seat, 0, 0, 1);
    !dropped
}

fn stores_by_another_way(heap: &Heap, seat: &mut HeapSeat) -> bool
    requires { IsReadyMutator heap.now seat.old × (0 < heap.now.shape.fields) }
    ensures { IsReadyMutator heap.now seat.new }
{
    assign(heap, seat, 2, 0);
    follow(heap, seat, 3, 2, 0);
    let dropped = put(heap, seat, 3, 9);
    !dropped && say(heap, seat, 1) == Line::Value(9)
}

/// A whole walk, and one that is cut; a catalogue's variable that is nil, and a cleared one.
fn reads(heap: &Heap, seat: &mut HeapSeat) -> [Line; 4]
    requires { IsReadyMutator heap.now seat.old × (0 < heap.now.shape.fields) × ((state_of seat.old).section ≢ Some 0) }
{
    let whole = sum(heap, seat, 0, 0, 5);
    let part = sum(heap, seat, 0, 0, 1);
    lend(heap, seat, 0, 4);
    let lent = say(heap, seat, 0);
    clear(heap, seat, 1);
    let cleared = say(heap, seat, 1);
    [whole, part, lent, cleared]
}

fn plays(heap: &Heap, seat: &mut HeapSeat) -> Option<[Line; 4]>
    requires { IsReadyMutator heap.now seat.old }
{
    if heap.shape().fields == 0 || !makes_two(heap, seat) || !stores_by_another_way(heap, seat) {
        return None;
    }
    if is_warehouse(seat) {
        Some(reads(heap, seat))
    } else {
        None
    }
}

fn commands(heap: &Heap, seat: &mut HeapSeat) -> Option<(bool, Option<Line>)>
    requires { IsReadyMutator heap.now seat.old }
{
    if heap.shape().fields == 0 || !makes_two(heap, seat) {
        return None;
    }
    let stored = command(heap, seat, Op::Put { v: 1, n: 5 });
    let said = command(
        heap,
        seat,
        Op::Sum {
            v: 0,
            i: 0,
            limit: 9,
        },
    );
    Some((stored.dropped, said.line))
}

#[test]
fn commands_print_what_was_stored(rt: HostRuntime) {
    let (heap, _zero, mut one, _two) = begun(&rt, SMALL);
    let wanted = [
        Line::Walk {
            count: 2,
            total: 16,
        },
        Line::Walk { count: 1, total: 7 },
        Line::Nil,
        Line::Nil,
    ];
    assert!(&rt; plays(&heap, &mut one) == Some(wanted));
}

#[test]
fn any_command_is_done_by_its_operation(rt: HostRuntime) {
    let (heap, _zero, mut one, _two) = begun(&rt, SMALL);
    let line = Line::Walk {
        count: 2,
        total: 12,
    };
    assert!(&rt; commands(&heap, &mut one) == Some((false, Some(line))));
}
