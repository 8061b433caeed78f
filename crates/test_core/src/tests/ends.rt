//! What a heap hands out when it is closed, once its seats claimed a block, filled it, or stored in objects.
ghost use Rattle.std.specs.Prelude.{◌<◌};
ghost use Rattle.std.specs.Bool.{OnTrue};
ghost use Rattle.gc_table.specs.SeatRecords.{resting};
ghost use Rattle.test_core.specs.Ready.{Ready};
ghost use Rattle.test_heaps.specs.Seats.{New};

use super::barrier::stores;
use super::blocks::fills;
use super::claims::claims;
use super::seats::{close, open_two, unlike};
use gc_table::{Heap, HeapSeat, Words};
use mark_core::{Phase, SECTION_SPAN};
use std::alloc::Global;
use std::sync::Wait;
use test_heaps::SMALL;

/// What the seats do.
#[derive(Clone, Copy)]
enum Work {
    Claims,
    Fills,
    Stores,
}

fn does<R: Wait>(rt: &R, heap: &Heap, zero: &mut HeapSeat, one: &mut HeapSeat, work: Work) -> bool
    requires zero { New heap.now resting 0 zero.old × (0 < heap.now.shape.sections) }
    requires one { Ready heap.now one.old }
    ensures { OnTrue result (Ready heap.now zero.new × Ready heap.now one.new) }
{
    match work {
        Work::Claims => claims(rt, heap, zero, one),
        Work::Fills => fills(rt, heap, zero, one),
        Work::Stores => stores(rt, heap, zero, one),
    }
}

fn words_after<R: Wait>(rt: &R, alloc: Global, work: Work) -> Option<Words> {
    let (heap, mut zero, mut one) = open_two(alloc, SMALL)?;
    if does(rt, &heap, &mut zero, &mut one, work) {
        close(alloc, heap, zero, one)
    } else {
        None
    }
}

fn count_from(words: &[u64], first: u64, count: usize) -> bool {
    let mut next = first;
    for word in words {
        if *word != next || next == u64::MAX {
            return false;
        }
        next += 1;
    }
    words.len() == count
}

/// Whether the cells have the identities and values of the objects that were made in them.
fn are_counted(words: &Option<Words>) -> bool {
    match words {
        None => false,
        Some(words) => {
            count_from(words.idents.as_slice(), SECTION_SPAN, 64)
                && count_from(words.values.as_slice(), 0, 64)
        }
    }
}

#[test]
fn one_owner(rt: HostRuntime) {
    let words = words_after(&rt, rt.alloc(), Work::Claims);
    let told = "alloc 1, idents 64, values 64, roots 64";
    assert_eq!(&rt; unlike(&words, Phase::Marking, told), None);
}

#[test]
fn whole_block(rt: HostRuntime) {
    let words = words_after(&rt, rt.alloc(), Work::Fills);
    let told = "alloc 1 0=18446744073709551615, roots 64 32=64";
    assert_eq!(&rt; unlike(&words, Phase::Marking, told), None);
    assert!(&rt; are_counted(&words));
}

#[test]
fn owed_card(rt: HostRuntime) {
    let words = words_after(&rt, rt.alloc(), Work::Stores);
    let told = "alloc 1 0=3, roots 64 32=1 33=2, values 64 0=7 1=8, fields 256 0=2";
    assert_eq!(&rt; unlike(&words, Phase::Marking, told), None);
}
