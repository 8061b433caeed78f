//! A seat outside helps a stop: it traces in its drain, and sweeps in its sweep.
ghost use Rattle.std.specs.Prelude.{◌<◌, IsFalse, IsTrue};
ghost use Rattle.std.specs.Bool.{OnTrue};
ghost use Rattle.mark_core.specs.Places.{the_phase};
ghost use Rattle.mark_core.specs.declared.kinds.Phase.TheVariants.{Drain, Marking, Sweep};
ghost use Rattle.gc_table.specs.Running.{Alone, Known};
ghost use Rattle.gc_table.specs.Seats.{Sits, state_of, view_of};
ghost use Rattle.gc_table.specs.Stopping.{has_moved};
ghost use Rattle.gc_table.specs.SeatRecords.{At, resting};
ghost use Rattle.test_heaps.specs.Seats.{HasEachObject};
ghost use Rattle.stop_world.specs.StopRecords.{flagged};

use super::checks::{is_done, may_help};
use super::objects::chain;
use super::opening::begun;
use super::seasons::marks;
use gc_cycle::{HelpEnd, Helped, help};
use gc_table::{Heap, HeapSeat};
use mark_core::Phase;
use std::sync::Wait;
use stop_world::{await_stopped, close_help, join_help, leave_help, open_help};
use test_heaps::{
    SMALL, begins_sweep, drained, drains, is_bare, leaves, raises_own, resets, scans_all,
};

/// What a seat did that was let in to help; nothing if help was closed.
pub fn helps(heap: &Heap, seat: &mut HeapSeat, quota: u32) -> Option<Helped>
    requires seat { Sits heap.now seat.old }
    ensures { Sits heap.now seat.new }
{
    if !is_bare(seat) || !join_help(heap, seat) || !may_help(heap, seat) {
        return None;
    }
    let helped = help(heap, seat, quota);
    if !is_done(heap, seat) {
        return None;
    }
    leave_help(heap, seat);
    Some(helped)
}

fn leaves_marking(heap: &Heap, seat: &mut HeapSeat) -> bool
    requires { HasEachObject heap.now seat.old }
    ensures { Sits heap.now seat.new }
{
    if chain(heap, seat, 10) != 10 || !marks(heap, seat) {
        return false;
    }
    leaves(heap, seat)
}

fn stops_marking<R: Wait>(rt: &R, heap: &Heap, seat: &mut HeapSeat) -> bool
    requires { At heap.now flagged 0 seat.old × IsFalse (has_moved (view_of seat.old).log) }
    ensures { OnTrue result (Sits heap.now seat.new × Alone Marking (view_of seat.new)) }
{
    await_stopped(rt, heap, seat);
    match seat.state().phase_seen {
        Some(Phase::Marking) => true,
        _ => false,
    }
}

fn opens(heap: &Heap, seat: &mut HeapSeat)
    requires seat { Sits heap.now seat.old × Alone Drain (view_of seat.old) }
    requires closed { IsFalse (state_of seat.old).opened }
    ensures { Sits heap.now seat.new × Known (view_of seat.new) the_phase 2 }
{
    open_help(heap, seat);
}

fn opens_drain(heap: &Heap, seat: &mut HeapSeat) -> bool
    requires { Sits heap.now seat.old × Alone Marking (view_of seat.old) }
    ensures { OnTrue result (Sits heap.now seat.new × Known (view_of seat.new) the_phase 2) }
{
    drains(heap, seat);
    resets(heap, seat);
    if !scans_all(heap, seat) || seat.state().opened {
        return false;
    }
    opens(heap, seat);
    true
}

fn closes<R: Wait>(rt: &R, heap: &Heap, seat: &mut HeapSeat)
    requires seat { Sits heap.now seat.old × Known (view_of seat.old) the_phase 2 }
    requires opened { IsTrue (state_of seat.old).opened }
    ensures { Sits heap.now seat.new × Alone Drain (view_of seat.new) }
{
    close_help(rt, heap, seat);
}

fn opens_blocks(heap: &Heap, seat: &mut HeapSeat)
    requires seat { Sits heap.now seat.old × Alone Sweep (view_of seat.old) }
    requires closed { IsFalse (state_of seat.old).opened }
{
    open_help(heap, seat);
}

fn opens_sweep<R: Wait>(rt: &R, heap: &Heap, seat: &mut HeapSeat) -> bool
    requires { Sits heap.now seat.old × Known (view_of seat.old) the_phase 2 }
{
    if !seat.state().opened {
        return false;
    }
    closes(rt, heap, seat);
    resets(heap, seat);
    if !drained(heap, seat) {
        return false;
    }
    begins_sweep(heap, seat);
    if seat.state().opened {
        return false;
    }
    opens_blocks(heap, seat);
    true
}

fn shares<R: Wait>(
    rt: &R,
    heap: &Heap,
    zero: &mut HeapSeat,
    one: &mut HeapSeat,
) -> Option<(Helped, Helped)>
    requires { At heap.now resting 0 zero.old × HasEachObject heap.now one.old }
{
    if !leaves_marking(heap, one) || !raises_own(heap, zero, 0) || !stops_marking(rt, heap, zero) {
        return None;
    }
    if !opens_drain(heap, zero) {
        return None;
    }
    let drained = helps(heap, one, 100)?;
    if !opens_sweep(rt, heap, zero) {
        return None;
    }
    let swept = helps(heap, one, 100)?;
    Some((drained, swept))
}

#[test]
fn a_seat_that_waits_traces_and_sweeps(rt: HostRuntime) {
    let (heap, mut zero, mut one, _two) = begun(&rt, SMALL);
    let drained = Helped {
        traced: 10,
        rescanned: 0,
        swept: 0,
        ended: HelpEnd::NoWork,
    };
    let swept = Helped {
        traced: 0,
        rescanned: 0,
        swept: 1,
        ended: HelpEnd::Swept,
    };
    assert!(&rt; shares(&rt, &heap, &mut zero, &mut one) == Some((drained, swept)));
}
