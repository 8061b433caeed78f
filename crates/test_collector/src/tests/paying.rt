ghost use Rattle.test_heaps.specs.Seats.{HasEachObject};

use super::LARGE;
use super::collecting::{collects, refills};
use super::objects::chain;
use super::opening::begun;
use alloc_cache::retire;
use gc_cycle::Paid;
use gc_table::{Heap, HeapSeat};
use mark_core::{FREE, Phase};
use std::sync::Wait;
use tracer::Stopped;

#[derive(PartialEq, Drop)]
struct Came {
    cells: u32,
    paid: Paid,
    phase: Phase,
    free: u64,
}

/// Makes a chain of 576 objects, which fills nine blocks: whether all were made.
pub fn make_chain(heap: &Heap, seat: &mut HeapSeat) -> bool
    requires { HasEachObject heap.now seat.old }
    ensures { HasEachObject heap.now seat.new }
{
    for _block in 0..9 {
        if chain(heap, seat, 64) != 64 {
            return false;
        }
    }
    true
}

fn refills_last<R: Wait>(rt: &R, heap: &Heap, seat: &mut HeapSeat) -> Option<Came>
    requires { HasEachObject heap.now seat.old }
{
    if !make_chain(heap, seat) || !collects(rt, heap, seat) {
        return None;
    }
    let (cache, paid) = refills(rt, heap, seat, 0)?;
    let cells = cache.free();
    let phase = heap.read_phase(seat);
    let free = heap.read_stat(seat, FREE);
    retire(heap, seat, cache);
    Some(Came {
        cells,
        paid,
        phase,
        free,
    })
}

#[test]
fn the_last_block_is_paid_for(rt: HostRuntime) {
    let (heap, _zero, mut one, _two) = begun(&rt, LARGE);
    let paid = Paid {
        quota: 1_024,
        done: 576,
        stopped: Stopped::NoWork,
    };
    let wanted = Came {
        cells: 64,
        paid,
        phase: Phase::Marking,
        free: 0,
    };
    assert!(&rt; refills_last(&rt, &heap, &mut one) == Some(wanted));
}
