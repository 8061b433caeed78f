ghost use Rattle.std.specs.Bool.{OnTrue};
ghost use Rattle.gc_table.specs.Seats.{state_of};
ghost use Rattle.test_operations.specs.Seats.{IsReadyMutator, MayTrace};
ghost use Rattle.test_heaps.specs.Seats.{IsReadyWithCache};

use super::FOUR;
use super::objects::{make_three, publish, take};
use super::opening::begun;
use alloc_cache::{Cache, retire};
use gc_table::{Heap, HeapSeat};
use packet_pools::{give, take_deferred};
use test_heaps::{are_bare, is_marking};
use tracer::{RootScan, Stopped, Traced, recycle_deferred, scan_roots, trace};

/// Whether the seat marks as a mutator, and holds no packet and no block to sweep.
pub fn is_idle(seat: &HeapSeat) -> bool
    ensures { OnTrue result (MayTrace (state_of seat.now)) }
{
    let s = seat.state();
    is_marking(seat) && (!s.reserved && !s.credit) && are_bare(s.held) && s.block.is_none()
}

/// Scans the roots of section 1.
pub fn scans(heap: &Heap, seat: &mut HeapSeat, cache: &Cache) -> Option<RootScan>
    requires { IsReadyWithCache heap.now seat.old cache.now }
    ensures { IsReadyWithCache heap.now seat.new cache.now }
{
    if !is_idle(seat) || heap.shape().sections < 2 {
        return None;
    }
    Some(scan_roots(heap, seat, 1))
}

/// Traces so many objects.
pub fn traces(heap: &Heap, seat: &mut HeapSeat, cache: &Cache, quota: u32) -> Option<Traced>
    requires { IsReadyWithCache heap.now seat.old cache.now }
    ensures { IsReadyWithCache heap.now seat.new cache.now }
{
    if !is_idle(seat) {
        return None;
    }
    Some(trace(heap, seat, quota))
}

/// Moves the packets out of the deferred pool.
pub fn recycles(heap: &Heap, seat: &mut HeapSeat, cache: &Cache) -> Option<u32>
    requires { IsReadyWithCache heap.now seat.old cache.now }
    ensures { IsReadyWithCache heap.now seat.new cache.now }
{
    if !is_idle(seat) {
        return None;
    }
    Some(recycle_deferred(heap, seat))
}

/// The number and the length of a packet that was put off, which goes back.
fn finds_deferred(heap: &Heap, seat: &mut HeapSeat, cache: &Cache) -> Option<(u32, u32)>
    requires { IsReadyWithCache heap.now seat.old cache.now }
    ensures { IsReadyWithCache heap.now seat.new cache.now }
{
    if !is_idle(seat) {
        return None;
    }
    let held = take_deferred(heap, seat)?;
    let found = (held.packet(), held.length());
    give(heap, seat, held, true);
    Some(found)
}

fn done(done: u32, deferred: u32, stopped: Stopped) -> Option<Traced> {
    Some(Traced {
        done,
        deferred,
        overflowed: 0,
        stopped,
    })
}

fn traces_all(heap: &Heap, seat: &mut HeapSeat, cache: &mut Cache) -> bool
    requires { IsReadyWithCache heap.now seat.old cache.old }
    ensures { IsReadyWithCache heap.now seat.new cache.new }
{
    publish(heap, seat, cache);
    let scanned = scans(heap, seat, cache);
    let traced = traces(heap, seat, cache, 10);
    scanned == Some(RootScan::Done { marked: 1 }) && traced == done(3, 0, Stopped::NoWork)
}

fn puts_off(heap: &Heap, seat: &mut HeapSeat, cache: &mut Cache) -> bool
    requires { IsReadyWithCache heap.now seat.old cache.old }
    ensures { IsReadyWithCache heap.now seat.new cache.new }
{
    let scanned = scans(heap, seat, cache);
    let first = traces(heap, seat, cache, 10);
    let found = finds_deferred(heap, seat, cache);
    let again = finds_deferred(heap, seat, cache);
    publish(heap, seat, cache);
    let recycled = recycles(heap, seat, cache);
    let second = traces(heap, seat, cache, 10);
    scanned == Some(RootScan::Done { marked: 1 })
        && first == done(1, 1, Stopped::NoWork)
        && found.is_some_and(|(packet, length)| packet < heap.shape().packets && length == 1)
        && again == found
        && recycled == Some(1)
        && second == done(3, 0, Stopped::NoWork)
}

fn spends(heap: &Heap, seat: &mut HeapSeat, cache: &mut Cache) -> bool
    requires { IsReadyWithCache heap.now seat.old cache.old }
    ensures { IsReadyWithCache heap.now seat.new cache.new }
{
    publish(heap, seat, cache);
    let scanned = scans(heap, seat, cache);
    let first = traces(heap, seat, cache, 1);
    let none = traces(heap, seat, cache, 0);
    let rest = traces(heap, seat, cache, 2);
    let last = traces(heap, seat, cache, 1);
    scanned == Some(RootScan::Done { marked: 1 })
        && first == done(1, 0, Stopped::Quota)
        && none == done(0, 0, Stopped::Quota)
        && rest == done(2, 0, Stopped::Quota)
        && last == done(0, 0, Stopped::NoWork)
}

/// Whether one of the three goes well, in a heap of its own.
fn answers(heap: &Heap, seat: &mut HeapSeat, which: u32) -> Option<bool>
    requires { IsReadyMutator heap.now seat.old }
{
    if heap.shape().fields < 2 {
        return None;
    }
    let mut cache = take(heap, seat)?;
    make_three(heap, seat, &mut cache);
    let answer = match which {
        0 => traces_all(heap, seat, &mut cache),
        1 => puts_off(heap, seat, &mut cache),
        _ => spends(heap, seat, &mut cache),
    };
    retire(heap, seat, cache);
    Some(answer)
}

#[test]
fn published_objects_are_traced(rt: HostRuntime) {
    let (heap, _zero, mut one, _two) = begun(&rt, FOUR);
    assert!(&rt; answers(&heap, &mut one, 0) == Some(true));
}

#[test]
fn unpublished_objects_are_put_off(rt: HostRuntime) {
    let (heap, _zero, mut one, _two) = begun(&rt, FOUR);
    assert!(&rt; answers(&heap, &mut one, 1) == Some(true));
}

#[test]
fn a_quota_is_spent(rt: HostRuntime) {
    let (heap, _zero, mut one, _two) = begun(&rt, FOUR);
    assert!(&rt; answers(&heap, &mut one, 2) == Some(true));
}
