//! A search for a block with free cells.
ghost use Rattle.std.specs.Prelude.{◌≡◌, ◌<◌, ◌≤◌, ◌+◌, ◌*◌, length, IsTrue, IfSome, IfNone};
ghost use Rattle.mark_core.specs.Layout.{block_count};
ghost use Rattle.gc_table.specs.Seats.{Across, did, Sits, state_of, view_of};
ghost use Rattle.alloc_cache.specs.Claiming.{Claims, ClaimsFirst, MayClaim, Misses, NoBlock, SearchesTo, seeks_block};
ghost use Rattle.gc_table.specs.Log.{Only};
ghost use Rattle.gc_table.specs.Running.{Ran};

use crate::cache::Cache;
use gc_table::{Heap, HeapSeat};
use mark_core::{BLOCK_CELLS, FREE};

/// What [`claim_some`] answers.
pub enum Search {
    /// A block with free cells, now the seat's.
    Claimed(Cache),
    /// No block that was tried had a free cell: go on from this one.
    Next(u32),
    /// The same, and no block is left.
    Ended,
}

fn claim_block(heap: &Heap, seat: &mut HeapSeat, b: u32) -> Option<Cache>
    requires seat { Sits heap.now seat.old × MayClaim (view_of seat.old) }
    requires block { b < block_count heap.now.shape }
    ensures seat { Sits heap.now seat.new }
    ensures ran { Across Ran seat.old seat.new }
    ensures some { IfSome result (λ h. Across (ClaimsFirst b (b + 1) h) seat.old seat.new) }
    ensures none { IfNone result (Across (Misses b (b + 1)) seat.old seat.new) }
{
    if !heap.claim_block(seat, b) {
        return None;
    }
    let cells = !heap.read_free(seat);
    if cells == 0 {
        heap.release_block(seat);
        return None;
    }
    heap.add_stat(seat, FREE, cells.count_ones(), true);
    Some(Cache { block: b, cells })
}

fn claim_among(heap: &Heap, seat: &mut HeapSeat, first: u32, end: u32) -> Option<Cache>
    requires seat { Sits heap.now seat.old × MayClaim (view_of seat.old) }
    requires blocks { (first ≤ end) × (end ≤ block_count heap.now.shape) }
    ensures seat { Sits heap.now seat.new }
    ensures ran { Across Ran seat.old seat.new }
    ensures some { IfSome result (λ h. Across (ClaimsFirst first end h) seat.old seat.new) }
    ensures none { IfNone result (Across (Misses first end) seat.old seat.new) }
{
    for b in first..end {
        if let Some(cache) = claim_block(heap, seat, b) {
            return Some(cache);
        }
    }
    None
}

fn claim_from(heap: &Heap, seat: &mut HeapSeat, first: u32) -> Option<Cache>
    requires seat { Sits heap.now seat.old × MayClaim (view_of seat.old) }
    ensures seat { Sits heap.now seat.new }
    ensures ran { Across Ran seat.old seat.new }
    ensures some { IfSome result (λ h. Across (Claims h) seat.old seat.new) }
    ensures none { IfNone result ((state_of seat.new ≡ state_of seat.old) × ((view_of seat.new).own ≡ (view_of seat.old).own) × NoBlock heap.now.shape (did seat.old seat.new) × Across (Only seeks_block) seat.old seat.new) }
    ensures few { length (did seat.old seat.new) ≤ 3 * block_count heap.now.shape }
{
    let blocks = heap.shape().cells / BLOCK_CELLS;
    let first = first % blocks;
    match claim_among(heap, seat, first, blocks) {
        Some(cache) => Some(cache),
        None => claim_among(heap, seat, 0, first),
    }
}

/// Claims a block with at least one free cell. The answer is None only if this call saw each block claimed, or with all
/// allocation bits set. The seat has a section and no cache, and runs, or has stopped the world while no cycle is under
/// way.
pub fn claim(heap: &Heap, seat: &mut HeapSeat) -> Option<Cache>
    requires seat { Sits heap.now seat.old × MayClaim (view_of seat.old) }
    ensures seat { Sits heap.now seat.new }
    ensures ran { Across Ran seat.old seat.new }
    ensures some { IfSome result (λ h. Across (Claims h) seat.old seat.new) }
    ensures none { IfNone result ((state_of seat.new ≡ state_of seat.old) × ((view_of seat.new).own ≡ (view_of seat.old).own) × NoBlock heap.now.shape (did seat.old seat.new) × Across (Only seeks_block) seat.old seat.new) }
    ensures few { length (did seat.old seat.new) ≤ 3 * block_count heap.now.shape }
{
    let first = seat.hint();
    match claim_from(heap, seat, first) {
        Some(cache) => {
            seat.remember(cache.block + 1);
            Some(cache)
        }
        None => None,
    }
}

fn goes_on(end: u32, blocks: u32) -> Option<u32>
    requires end { end ≤ blocks }
    ensures some { IfSome result (λ n. (n ≡ end) × (n < blocks)) }
    ensures none { IfNone result (end ≡ blocks) }
{
    if end < blocks {
        return Some(end);
    }
    None
}

/// Claims the first block in which it sees a free cell, of the `most` blocks from block `from` on: for a caller that
/// may not take long. It asks of the seat what [`claim`] does.
///
/// If it sees none it answers Next if there are more blocks, else Ended: a caller that began at block 0 has then seen
/// each block.
pub fn claim_some(heap: &Heap, seat: &mut HeapSeat, from: u32, most: u32) -> Search
    requires seat { Sits heap.now seat.old × MayClaim (view_of seat.old) }
    requires from { from ≤ block_count heap.now.shape }
    ensures seat { Sits heap.now seat.new }
    ensures ran { Across Ran seat.old seat.new }
    ensures searches { Across (SearchesTo from most result) seat.old seat.new }
    ensures few { length (did seat.old seat.new) ≤ 3 * most }
{
    let blocks = heap.shape().cells / BLOCK_CELLS;
    let end = from + most.min(blocks - from);
    match claim_among(heap, seat, from, end) {
        Some(cache) => {
            seat.remember(cache.block + 1);
            Search::Claimed(cache)
        }
        None => match goes_on(end, blocks) {
            Some(next) => Search::Next(next),
            None => Search::Ended,
        },
    }
}
