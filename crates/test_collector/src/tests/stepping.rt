//! A mutator collects in steps, beside another, and neither waits.
ghost use Rattle.std.specs.Prelude.{◌≡◌, None};
ghost use Rattle.std.specs.Bool.{OnFalse, OnTrue};
ghost use Rattle.gc_table.specs.Seats.{Sits, view_of};
ghost use Rattle.gc_cycle.specs.Collecting.{HoldsWorld};
ghost use Rattle.gc_cycle.specs.Stepping.{AwaitsStop};
ghost use Rattle.test_heaps.specs.Seats.{HasEachObject, IsReadyWithCache};

use super::LARGE;
use super::checks::{is_out, may_call};
use super::collecting::make_ring;
use super::objects::{chain, free_cells, walk};
use super::opening::begun;
use super::stages::{Collected, Drained, Marked, collects_in_steps};
use alloc_cache::{Cache, retire};
use cache_refills::{Pass, try_enter, try_safe_point};
use gc_cycle::{Counts, ask_to_stop, finds_stopped};
use gc_table::{Heap, HeapSeat};
use mutator_ops::set;
use test_heaps::{SMALL, take};

fn tries_entering(heap: &Heap, seat: &mut HeapSeat) -> Option<Pass>
    requires { Sits heap.now seat.old }
    ensures { Sits heap.now seat.new }
{
    if !is_out(heap, seat) || seat.state().section.is_none() {
        return None;
    }
    Some(try_enter(heap, seat))
}

fn spends_none(cache: Option<Cache>)
    requires { cache ≡ None }
{
    match cache {
        None => (),
        Some(_) => unreachable!(),
    }
}

fn passes_point(heap: &Heap, seat: &mut HeapSeat) -> Option<Pass>
    requires { Sits heap.now seat.old }
    ensures { Sits heap.now seat.new }
{
    if !may_call(heap, seat) || seat.state().cache.is_some() {
        return None;
    }
    let mut cache = None;
    let pass = try_safe_point(heap, seat, &mut cache, 0);
    spends_none(cache);
    Some(pass)
}

fn asks(heap: &Heap, seat: &mut HeapSeat) -> bool
    requires { HasEachObject heap.now seat.old }
    ensures { OnTrue result (HasEachObject heap.now seat.new × AwaitsStop (view_of seat.new)) }
{
    if !may_call(heap, seat) || seat.state().cache.is_some() {
        return false;
    }
    ask_to_stop(heap, seat, 0)
}

fn stops(heap: &Heap, seat: &mut HeapSeat) -> bool
    requires { HasEachObject heap.now seat.old × AwaitsStop (view_of seat.old) }
    ensures yes { OnTrue result (HasEachObject heap.now seat.new × HoldsWorld (view_of seat.new)) }
    ensures no { OnFalse result (HasEachObject heap.now seat.new × AwaitsStop (view_of seat.new)) }
{
    finds_stopped(heap, seat)
}

fn looks(heap: &Heap, seat: &mut HeapSeat)
    requires { HasEachObject heap.now seat.old }
    ensures { HasEachObject heap.now seat.new }
{
    heap.read_phase(seat);
}

fn ties_head(heap: &Heap, seat: &mut HeapSeat, cache: &Cache)
    requires fills { IsReadyWithCache heap.now seat.old cache.now }
    ensures { IsReadyWithCache heap.now seat.new cache.now }
{
    if heap.shape().fields > 1 {
        set(heap, seat, 0, 1, 0);
    }
}

/// Makes a ring that no variable names, and a chain of three objects with a dirty card.
fn makes_objects(heap: &Heap, seat: &mut HeapSeat) -> bool
    requires { HasEachObject heap.now seat.old }
    ensures { HasEachObject heap.now seat.new }
{
    if !make_ring(heap, seat) || chain(heap, seat, 3) != 3 {
        return false;
    }
    let Some(cache) = take(heap, seat) else {
        return false;
    };
    ties_head(heap, seat, &cache);
    retire(heap, seat, cache);
    true
}

/// What two seats were told while one collected, and what is left.
#[derive(Drop)]
struct Told {
    before: Option<Pass>,
    point: Option<Pass>,
    during: Option<Pass>,
    after: Option<Pass>,
    collected: Collected,
    chain: (u32, u64),
    free: u32,
}

/// One seat collects, while the other comes to a safe point and tries to enter.
fn collects_beside(heap: &Heap, zero: &mut HeapSeat, one: &mut HeapSeat, most: u32) -> Option<Told>
    requires { Sits heap.now zero.old × HasEachObject heap.now one.old }
{
    if !makes_objects(heap, one) {
        return None;
    }
    let before = tries_entering(heap, zero);
    if !asks(heap, one) || stops(heap, one) {
        return None;
    }
    let point = passes_point(heap, zero);
    let during = tries_entering(heap, zero);
    if !stops(heap, one) {
        return None;
    }
    let collected = collects_in_steps(heap, one, most)?;
    let after = tries_entering(heap, zero);
    looks(heap, one);
    let chain = walk(heap, one)?;
    let free = free_cells(heap, one)?;
    Some(Told {
        before,
        point,
        during,
        after,
        collected,
        chain,
        free,
    })
}

/// What came of it: the full pieces that saw to roots, that looked at the cards at last, and that cleared, swept and
/// counted. Each of three objects was popped once, and two cells were freed.
fn wanted(roots: u32, looks: u32, full: u32) -> Collected {
    let drained = Drained {
        popped: 3,
        cleaned: 1,
        looks,
    };
    let again = Drained {
        cleaned: 0,
        ..drained
    };
    let found = Counts {
        marked: 3,
        freed: 2,
        rescanned: 0,
    };
    Collected {
        first: Marked { roots, drained },
        cleared: full,
        again: Marked {
            roots,
            drained: again,
        },
        swept: full,
        counted: full,
        found,
    }
}

/// Whether the other seat went in before and after, and was held off meanwhile.
fn waits_outside(told: &Told) -> bool {
    told.before == Some(Pass::Going)
        && told.point == Some(Pass::Out)
        && told.during == Some(Pass::Out)
        && told.after == Some(Pass::Going)
}

#[test]
fn a_collection_in_steps_frees_a_ring(rt: HostRuntime) {
    let (heap, mut zero, mut one, _two) = begun(&rt, SMALL);
    let Some(told) = collects_beside(&heap, &mut zero, &mut one, 1) else {
        panic!(&rt; "no collection")
    };
    assert!(&rt; waits_outside(&told), "the other seat");
    assert!(&rt; told.collected == wanted(64, 4, 1), "the steps");
    assert!(&rt; told.chain == (3, 3) && told.free == 61, "what is left");
}

#[test]
fn a_collection_goes_two_or_three_at_a_time(rt: HostRuntime) {
    for (most, roots, looks, full) in [(2, 32, 20, 5), (3, 21, 13, 3)] {
        let (heap, mut zero, mut one, _two) = begun(&rt, LARGE);
        let Some(told) = collects_beside(&heap, &mut zero, &mut one, most) else {
            panic!(&rt; "no collection")
        };
        let is_so = told.collected == wanted(roots, looks, full);
        assert!(&rt; is_so && told.chain == (3, 3), "{most} at a time");
    }
}
