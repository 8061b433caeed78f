//! A pass gives out each card once, and the marked objects of a dirty card are scanned again.
ghost use Rattle.std.specs.Prelude.{◌<◌};
ghost use Rattle.std.specs.Bool.{OnTrue};
ghost use Rattle.gc_table.specs.SeatRecords.{At};
ghost use Rattle.test_operations.specs.Seats.{IsReadyMutator, playing};

use super::FOUR;
use super::objects::{gives_up, link, make_three, publish, take};
use super::opening::begun;
use super::tracing::{is_idle, scans, traces};
use card_clean::{Cleaned, clean_card, clean_dirty, clean_one, next_card};
use gc_table::{Heap, HeapSeat};
use packet_pools::{give, take_output};

fn draw(heap: &Heap, seat: &mut HeapSeat) -> Option<u32>
    requires { At heap.now playing 1 seat.old }
    ensures { At heap.now playing 1 seat.new }
{
    next_card(heap, seat)
}

fn five_cards(heap: &Heap, seat: &mut HeapSeat) -> [Option<u32>; 5]
    requires { At heap.now playing 1 seat.old }
{
    let a = draw(heap, seat);
    let b = draw(heap, seat);
    let c = draw(heap, seat);
    let d = draw(heap, seat);
    let e = draw(heap, seat);
    [a, b, c, d, e]
}

fn clean_third(heap: &Heap, seat: &mut HeapSeat) -> Option<Cleaned>
    requires { At heap.now playing 1 seat.old }
{
    if heap.shape().cells < 64 {
        return None;
    }
    let mut out = take_output(heap, seat)?;
    let cleaned = clean_card(heap, seat, 3, &mut out);
    give(heap, seat, out, false);
    Some(cleaned)
}

/// Three objects are marked, then one of them is stored in.
fn dirties(heap: &Heap, seat: &mut HeapSeat) -> bool
    requires { IsReadyMutator heap.now seat.old × (1 < heap.now.shape.fields) }
    ensures { OnTrue result (IsReadyMutator heap.now seat.new) }
{
    let Some(mut cache) = take(heap, seat) else {
        return false;
    };
    make_three(heap, seat, &mut cache);
    publish(heap, seat, &mut cache);
    scans(heap, seat, &cache);
    traces(heap, seat, &cache, 10);
    link(heap, seat, &cache, 0, 0, 0);
    gives_up(heap, seat, cache);
    true
}

fn cleans_one(heap: &Heap, seat: &mut HeapSeat) -> Option<(Option<Cleaned>, u32)>
    requires { IsReadyMutator heap.now seat.old }
{
    if heap.shape().fields < 2 || heap.shape().cells < 64 {
        return None;
    }
    if !dirties(heap, seat) || !is_idle(seat) {
        return None;
    }
    let cleaned = clean_one(heap, seat, 0);
    let more = clean_dirty(heap, seat);
    Some((cleaned, more))
}

fn cleans_dirty(heap: &Heap, seat: &mut HeapSeat) -> Option<(u32, u32)>
    requires { IsReadyMutator heap.now seat.old }
{
    if heap.shape().fields < 2 || !dirties(heap, seat) || !is_idle(seat) {
        return None;
    }
    let first = clean_dirty(heap, seat);
    let second = clean_dirty(heap, seat);
    Some((first, second))
}

#[test]
fn a_clean_card_stays_clean(rt: HostRuntime) {
    let (heap, _zero, mut one, _two) = begun(&rt, FOUR);
    let wanted = Cleaned {
        rescanned: 0,
        redirtied: false,
    };
    assert!(&rt; clean_third(&heap, &mut one) == Some(wanted));
}

#[test]
fn the_pass_gives_out_each_card_once(rt: HostRuntime) {
    let (heap, _zero, mut one, _two) = begun(&rt, FOUR);
    assert!(&rt; five_cards(&heap, &mut one) == [Some(0), Some(1), Some(2), Some(3), None]);
}

#[test]
fn a_dirty_card_is_scanned_again(rt: HostRuntime) {
    let (heap, _zero, mut one, _two) = begun(&rt, FOUR);
    let wanted = Cleaned {
        rescanned: 3,
        redirtied: false,
    };
    assert!(&rt; cleans_one(&heap, &mut one) == Some((Some(wanted), 0)));
}

#[test]
fn dirty_cards_are_scanned_again(rt: HostRuntime) {
    let (heap, _zero, mut one, _two) = begun(&rt, FOUR);
    assert!(&rt; cleans_dirty(&heap, &mut one) == Some((3, 0)));
}
