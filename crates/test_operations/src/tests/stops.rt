//! One seat stops the world, and another sees it and helps.
ghost use Rattle.std.specs.Prelude.{IsTrue};
ghost use Rattle.mark_core.specs.Seats.{is_bare};
ghost use Rattle.mark_core.specs.declared.kinds.Phase.TheVariants.{Idle};
ghost use Rattle.gc_table.specs.Running.{Alone};
ghost use Rattle.gc_table.specs.Seats.{Sits, state_of, view_of};
ghost use Rattle.gc_table.specs.SeatRecords.{At, resting};
ghost use Rattle.stop_world.specs.Gates.{IsOpenable};
ghost use Rattle.stop_world.specs.StopRecords.{stopped};

use super::opening::opened;
use gc_table::{Heap, HeapSeat};
use mark_core::Phase;
use std::sync::Wait;
use stop_world::{
    Raised, await_resumed, close_help, enter, join_help, leave_help, open_help, poll, raise,
};
use test_heaps::{SMALL, drains, goes_on, next_turn, raises_own, stops_idle};

/// Whether a seat finds the flag free.
fn raises(heap: &Heap, seat: &mut HeapSeat) -> bool
    requires { Sits heap.now seat.old × IsTrue (is_bare (state_of seat.old)) }
{
    matches!(raise(heap, seat), Raised::Yours)
}

/// Whether a seat enters; if not, whether it sees a stop, and may raise the flag itself.
fn finds_stop(heap: &Heap, seat: &mut HeapSeat) -> Option<(bool, bool)>
    requires { Sits heap.now seat.old × IsTrue (is_bare (state_of seat.old)) }
{
    if enter(heap, seat) {
        return None;
    }
    let seen = poll(heap, seat);
    Some((seen, raises(heap, seat)))
}

fn stops<R: Wait>(rt: &R, heap: &Heap, seat: &mut HeapSeat, k: u32) -> bool
    requires { At heap.now resting k seat.old }
{
    if !raises_own(heap, seat, k) || !stops_idle(rt, heap, seat, k) {
        return false;
    }
    goes_on(heap, seat, k);
    await_resumed(rt, heap, seat);
    true
}

fn begins_drain(heap: &Heap, seat: &mut HeapSeat, k: u32)
    requires { At heap.now stopped k seat.old × Alone Idle (view_of seat.old) }
    ensures seat { Sits heap.now seat.new }
    ensures openable { IsOpenable (view_of seat.new) }
{
    drains(heap, seat);
}

fn helps(heap: &Heap, seat: &mut HeapSeat, k: u32) -> bool
    requires { At heap.now resting k seat.old }
{
    if !join_help(heap, seat) {
        return false;
    }
    let drains = match seat.state().phase_seen {
        Some(Phase::Drain) => true,
        _ => false,
    };
    leave_help(heap, seat);
    drains
}

fn shares<R: Wait>(
    rt: &R,
    heap: &Heap,
    seat: &mut HeapSeat,
    other: &mut HeapSeat,
    k: u32,
    j: u32,
) -> bool
    requires { At heap.now resting k seat.old × At heap.now resting j other.old }
{
    if !raises_own(heap, seat, k) || !stops_idle(rt, heap, seat, k) {
        return false;
    }
    begins_drain(heap, seat, k);
    open_help(heap, seat);
    let helped = helps(heap, other, j);
    close_help(rt, heap, seat);
    helped
}

#[test]
fn another_flag_is_theirs(rt: HostRuntime) {
    let (heap, mut zero, mut one, _two) = opened(&rt, SMALL);
    let turned = next_turn(&rt, &heap, &mut zero);
    assert!(&rt; turned);
    assert!(&rt; raises(&heap, &mut one));
    assert!(&rt; finds_stop(&heap, &mut zero) == Some((true, false)));
}

#[test]
fn the_world_stops_and_goes_on(rt: HostRuntime) {
    let (heap, mut zero, _one, _two) = opened(&rt, SMALL);
    assert!(&rt; stops(&rt, &heap, &mut zero, 0));
}

#[test]
fn a_helper_is_let_in(rt: HostRuntime) {
    let (heap, mut zero, mut one, _two) = opened(&rt, SMALL);
    assert!(&rt; shares(&rt, &heap, &mut zero, &mut one, 0, 1));
}
