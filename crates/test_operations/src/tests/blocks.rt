//! A block has one owner and room for its cells, and the barrier dirties only the cards of published objects.
ghost use Rattle.std.specs.Prelude.{◌<◌};
ghost use Rattle.gc_table.specs.SeatRecords.{At, inside};
ghost use Rattle.test_operations.specs.Seats.{IsReadyMutator};
ghost use Rattle.test_heaps.specs.Seats.{IsReadyWithCache};

use super::objects::{gives_up, link, publish, take};
use super::opening::begun;
use alloc_cache::{Cache, claim, retire};
use gc_table::{Heap, HeapSeat};
use test_heaps::{SMALL, make};

fn finds_none(heap: &Heap, seat: &mut HeapSeat) -> bool
    requires { At heap.now inside 0 seat.old }
{
    if seat.state().section.is_none() {
        return false;
    }
    match claim(heap, seat) {
        Some(cache) => {
            retire(heap, seat, cache);
            false
        }
        None => true,
    }
}

/// The block that one seat claims, its free cells, and whether another seat then finds none.
fn claims(heap: &Heap, zero: &mut HeapSeat, one: &mut HeapSeat) -> Option<(u32, u32, bool)>
    requires { At heap.now inside 0 zero.old × IsReadyMutator heap.now one.old }
{
    let cache = take(heap, one)?;
    let block = cache.block();
    let free = cache.free();
    let none = finds_none(heap, zero);
    retire(heap, one, cache);
    Some((block, free, none))
}

/// Makes 65 objects in variable 0: how many were made.
fn fill(heap: &Heap, seat: &mut HeapSeat, cache: &mut Cache) -> u32
    requires { IsReadyWithCache heap.now seat.old cache.old }
    ensures { IsReadyWithCache heap.now seat.new cache.new }
{
    let mut made = 0u32;
    for n in 0..65 {
        if make(heap, seat, cache, 0, n) {
            made = made.wrapping_add(1);
        }
    }
    made
}

fn fills(heap: &Heap, seat: &mut HeapSeat) -> Option<u32>
    requires { IsReadyMutator heap.now seat.old }
{
    let mut cache = take(heap, seat)?;
    let made = fill(heap, seat, &mut cache);
    retire(heap, seat, cache);
    Some(made)
}

fn claims_rest(heap: &Heap, seat: &mut HeapSeat) -> Option<(u32, u32)>
    requires { IsReadyMutator heap.now seat.old }
{
    let mut first = take(heap, seat)?;
    make(heap, seat, &mut first, 0, 1);
    make(heap, seat, &mut first, 1, 2);
    gives_up(heap, seat, first);
    let second = take(heap, seat)?;
    let rest = (second.block(), second.free());
    gives_up(heap, seat, second);
    Some(rest)
}

fn dirties(heap: &Heap, seat: &mut HeapSeat, cache: &Cache) -> bool
    requires fields { 0 < heap.now.shape.fields }
    requires fills { IsReadyWithCache heap.now seat.old cache.now }
    ensures { IsReadyWithCache heap.now seat.new cache.now }
{
    link(heap, seat, cache, 0, 0, 1);
    heap.read_card(seat, 0)
}

fn links(heap: &Heap, seat: &mut HeapSeat) -> Option<(bool, bool)>
    requires { IsReadyMutator heap.now seat.old }
{
    if heap.shape().fields == 0 {
        return None;
    }
    let mut cache = take(heap, seat)?;
    make(heap, seat, &mut cache, 0, 0);
    make(heap, seat, &mut cache, 1, 1);
    let before = dirties(heap, seat, &cache);
    publish(heap, seat, &mut cache);
    let after = dirties(heap, seat, &cache);
    retire(heap, seat, cache);
    Some((before, after))
}

#[test]
fn a_block_has_one_owner(rt: HostRuntime) {
    let (heap, mut zero, mut one, _two) = begun(&rt, SMALL);
    assert!(&rt; claims(&heap, &mut zero, &mut one) == Some((0, 64, true)));
}

#[test]
fn a_block_has_room_for_its_cells(rt: HostRuntime) {
    let (heap, _zero, mut one, _two) = begun(&rt, SMALL);
    assert!(&rt; fills(&heap, &mut one) == Some(64));
}

#[test]
fn what_was_given_up_is_claimed_again(rt: HostRuntime) {
    let (heap, _zero, mut one, _two) = begun(&rt, SMALL);
    assert!(&rt; claims_rest(&heap, &mut one) == Some((0, 62)));
}

#[test]
fn a_store_dirties_the_card_of_a_published_object(rt: HostRuntime) {
    let (heap, _zero, mut one, _two) = begun(&rt, SMALL);
    assert!(&rt; links(&heap, &mut one) == Some((false, true)));
}
