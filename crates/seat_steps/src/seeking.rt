//! A mutator looks for a cell in pieces of a few blocks.
ghost use Rattle.std.specs.Prelude.{◌≡◌, ◌≤◌, ◌<◌, ◌+◌, length, IfErr, IfOk};
ghost use Rattle.mark_core.specs.Layout.{block_count};
ghost use Rattle.mark_core.specs.Numbers.{section_variables};
ghost use Rattle.plain_heap.specs.declared.operation.Op.TheVariants as ops;
ghost use Rattle.gc_cycle.specs.Answering.{HasCache};
ghost use Rattle.gc_table.specs.Running.{Ran};
ghost use Rattle.gc_table.specs.Seats.{Across, view_of};
ghost use Rattle.mutator_ops.specs.Few.{AtMost};
ghost use Rattle.seat_turns.specs.Sharing.{LeavesHeap};
ghost use Rattle.seat_turns.specs.Standing.{Halts, HoldsTurn, flush_steps, plain_of};
ghost use Rattle.seat_steps.specs.Causes.{ArrivesBy, GoesFreely};
ghost use Rattle.seat_steps.specs.Pacing.{CarriesPace};
ghost use Rattle.seat_steps.specs.PaidTries.{CountsPiece, CountsRefill};
ghost use Rattle.seat_steps.specs.Seeking.{CachedBy, FailsBy, MakesHere, RefillFailsBy, RefillsBy, SoughtBy, StandsAfter, TriesPiece};
ghost use Rattle.seat_steps.specs.Arriving.{LeavesWorld};
ghost use Rattle.seat_steps.specs.declared.came.Came.TheVariants as cames;

use crate::came::Came;
use crate::getting::point_with;
use crate::operations::makes;
use crate::payments::count_paid;
use crate::tries::{arrive, pass_once};
use alloc_cache::{Cache, cache_of, leave_with_seat};
use cache_refills::{Piece, try_refill_some};
use gc_table::{Heap, HeapSeat};
use seat_turns::{flush_turn, keep_some, leave, retire_some, with_free};

/// What a piece of the search came to.
#[derive(Clone, Copy, Debug, PartialEq, Eq, Drop)]
pub enum Sought {
    /// The mutator has a cache with a free cell.
    Free,
    /// No block that it looked at had a free cell. The search goes on from this one.
    Next(u32),
    /// None up to the last block had a free cell.
    Ended,
    /// Marking is done.
    MarkingDone,
}

fn tries_some(heap: &Heap, seat: &mut HeapSeat, from: u32, most: u32) -> Piece
    requires halts { Halts heap.now seat.old }
    requires from { from ≤ block_count heap.now.shape }
    ensures stands { StandsAfter result heap.now seat.new }
    ensures same { plain_of seat.new ≡ plain_of seat.old }
    ensures leaves { Across LeavesHeap seat.old seat.new }
    ensures ran { Across Ran seat.old seat.new }
    ensures tries { Across (TriesPiece from most result) seat.old seat.new }
{
    let made = seat.state().made;
    try_refill_some(heap, seat, made, from, most)
}

fn lacks_some(heap: &Heap, seat: &mut HeapSeat, sought: Sought) -> Result<Sought, Came>
    requires halts { Halts heap.now seat.old }
    ensures ok { IfOk result (λ s. s ≡ sought) }
    ensures turn { IfOk result (λ _. HoldsTurn heap.now seat.new) }
    ensures err { IfErr result (λ came. LeavesWorld came heap.now seat.new) }
    ensures same { plain_of seat.new ≡ plain_of seat.old }
    ensures leaves { Across LeavesHeap seat.old seat.new }
    ensures ran { Across Ran seat.old seat.new }
    ensures freely { IfOk result (λ _. Across GoesFreely seat.old seat.new) }
    ensures found { IfErr result (λ came. Across (ArrivesBy came) seat.old seat.new) }
    ensures paces { Across CarriesPace seat.old seat.new }
{
    match arrive(heap, seat) {
        Came::Done => Ok(sought),
        other => Err(other),
    }
}

fn seek(
    heap: &Heap,
    seat: &mut HeapSeat,
    paid: &mut u64,
    from: u32,
    most: u32,
) -> Result<Sought, Came>
    requires halts { Halts heap.now seat.old }
    requires from { from ≤ block_count heap.now.shape }
    ensures turn { IfOk result (λ _. HoldsTurn heap.now seat.new) }
    ensures err { IfErr result (λ came. LeavesWorld came heap.now seat.new) }
    ensures same { plain_of seat.new ≡ plain_of seat.old }
    ensures leaves { Across LeavesHeap seat.old seat.new }
    ensures ran { Across Ran seat.old seat.new }
    ensures sought { IfOk result (λ s. Across (SoughtBy 0 from most s) seat.old seat.new) }
    ensures found { IfErr result (λ came. Across (FailsBy 0 from most came) seat.old seat.new) }
    ensures pays { Across (CountsPiece 0 8 from most paid.old paid.new) seat.old seat.new }
{
    match tries_some(heap, seat, from, most) {
        Piece::Cache(cache, traced) => {
            count_paid(paid, traced);
            match point_with(heap, seat, cache) {
                Ok(free) => {
                    leave_with_seat(free);
                    Ok(Sought::Free)
                }
                Err(came) => Err(came),
            }
        }
        Piece::Next(next) => lacks_some(heap, seat, Sought::Next(next)),
        Piece::Ended => lacks_some(heap, seat, Sought::Ended),
        Piece::MarkingDone => lacks_some(heap, seat, Sought::MarkingDone),
        Piece::Full => {
            leave(heap, seat);
            Err(Came::Full)
        }
    }
}

/// Stores the roots that lag, and gives the cache up, if there is one.
fn retire_flushed(heap: &Heap, seat: &mut HeapSeat, cache: Option<Cache>)
    requires turn { HoldsTurn heap.now seat.old }
    requires cache { HasCache cache (view_of seat.old) }
    ensures halts { Halts heap.now seat.new }
    ensures same { plain_of seat.new ≡ plain_of seat.old }
    ensures leaves { Across LeavesHeap seat.old seat.new }
    ensures ran { Across Ran seat.old seat.new }
    ensures few { Across (AtMost (flush_steps (view_of seat.old) + 3)) seat.old seat.new }
    ensures paces { Across CarriesPace seat.old seat.new }
{
    flush_turn(heap, seat);
    retire_some(heap, seat, cache);
}

/// Looks for a free cell in the cache. If it has none, stores the roots that lag, gives the cache up, and looks in
/// `most` blocks from `from` on.
pub fn refill_once(
    heap: &Heap,
    seat: &mut HeapSeat,
    paid: &mut u64,
    from: u32,
    most: u32,
) -> Result<Sought, Came>
    requires turn { HoldsTurn heap.now seat.old }
    requires from { from ≤ block_count heap.now.shape }
    ensures turn { IfOk result (λ _. HoldsTurn heap.now seat.new) }
    ensures err { IfErr result (λ came. LeavesWorld came heap.now seat.new) }
    ensures same { plain_of seat.new ≡ plain_of seat.old }
    ensures leaves { Across LeavesHeap seat.old seat.new }
    ensures sought { IfOk result (λ s. RefillsBy from most s (view_of seat.old) (view_of seat.new)) }
    ensures found { IfErr result (λ came. Across (RefillFailsBy from most came) seat.old seat.new) }
    ensures pays { Across (CountsRefill from most paid.old paid.new) seat.old seat.new }
{
    match with_free(cache_of(seat)) {
        Ok(free) => {
            leave_with_seat(free);
            Ok(Sought::Free)
        }
        Err(none) => {
            retire_flushed(heap, seat, none);
            seek(heap, seat, paid, from, most)
        }
    }
}

/// Makes an object in variable v, after a safe point, if the cache has a free cell.
pub fn make_here(heap: &Heap, seat: &mut HeapSeat, v: u8, value: u32) -> Came
    requires turn { HoldsTurn heap.now seat.old }
    requires room { length (plain_of seat.old).objects < heap.now.shape.objects }
    requires range { v < section_variables }
    ensures makes { MakesHere result (ops.New v value) heap.now seat.old seat.new }
    ensures leaves { (result ≡ cames.Done → ⊥) → Across LeavesHeap seat.old seat.new }
    ensures found { Across (CachedBy result) seat.old seat.new }
{
    match pass_once(heap, seat) {
        Came::Done => match with_free(cache_of(seat)) {
            Ok(free) => {
                makes(heap, seat, free, v, value);
                Came::Done
            }
            Err(none) => {
                keep_some(none);
                Came::NoCache
            }
        },
        came => came,
    }
}
