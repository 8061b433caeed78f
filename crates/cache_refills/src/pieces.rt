//! A refill in pieces, for a mutator that must not take long. A piece looks at a few blocks only, and pays for one
//! cache at most.
//!
//! `SeenBelow` says which blocks the pieces since block 0 saw without a free cell. Once that is each block, a
//! collection is called for (`may_collect`).
ghost use Rattle.std.specs.Prelude.{◌≡◌, ◌≤◌, None, Some, IfNone, IfSome, IsFalse, IsTrue, ◌+◌, ◌*◌, length};
ghost use Rattle.mark_core.specs.Layout.{block_count};
ghost use Rattle.gc_table.specs.Log.{events};
ghost use Rattle.gc_table.specs.Running.{Ran};
ghost use Rattle.gc_table.specs.Seats.{Across, did, Sits, state_of, view_of};
ghost use Rattle.gc_table.specs.declared.view.View.{View};
ghost use Rattle.packet_pools.specs.Seeking.{some_event};
ghost use Rattle.cache_refills.specs.Getting.{RefillsTo};
ghost use Rattle.gc_cycle.specs.Answering.{StoredAt, TellsFull};
ghost use Rattle.cache_refills.specs.Pace.Pacing.{begins_where_due, card_looks};
ghost use Rattle.cache_refills.specs.Pace.Paying.{pops_where_paid};
ghost use Rattle.cache_refills.specs.Pieces.{ComesTo, IsShort, SeenBelow, SeesTo, refill_of};
ghost use Rattle.cache_refills.specs.Refilling.{IsPaced};
ghost use Rattle.gc_cycle.specs.Sorts.{pops};
ghost use Rattle.gc_cycle.specs.Sparing.{SparesRefill};
ghost use Rattle.gc_cycle.specs.Standing.{KeepsSeat, KeepsSection, Mutates};
ghost use Rattle.gc_cycle.specs.Statistics.{RoundNumbers};
ghost use Rattle.cache_refills.specs.Trying.{GoesWithout, PlaysOn};
ghost use Rattle.cache_refills.specs.Pace.StepBounds.{payment_steps};

use crate::refilling::pay_for;
use crate::trying::begins_or_ends;
use alloc_cache::{Cache, Search, claim_some};
use gc_cycle::{Paid, Refill, stores_if_full};
use gc_table::{Heap, HeapSeat};

/// What a piece of a refill came to.
pub enum Piece {
    /// A cache, and what was paid for it.
    Cache(Cache, Paid),
    /// No block that it looked at had a free cell. The search goes on from this one.
    Next(u32),
    /// No block up to the last had a free cell. If the search began at block 0, a collection is called for.
    Ended,
    /// Marking is done: a collection is called for.
    MarkingDone,
    /// Every cell is reachable.
    Full,
}

fn piece_of(refill: Refill) -> Piece
    ensures { refill_of result ≡ Some refill }
{
    match refill {
        Refill::Cache(cache, paid) => Piece::Cache(cache, paid),
        Refill::Full => Piece::Full,
    }
}

fn search_some(heap: &Heap, seat: &mut HeapSeat, done: u32, from: u32, most: u32) -> Piece
    requires seat { Sits heap.now seat.old × Mutates (view_of seat.old) }
    requires cache { (state_of seat.old).cache ≡ None }
    requires from { from ≤ block_count heap.now.shape }
    ensures seat { Sits heap.now seat.new }
    ensures plays { Across PlaysOn seat.old seat.new }
    ensures some { IfSome (refill_of result) (λ r. (u : View) → Ran u (view_of seat.old) → TellsFull u (view_of seat.old) → StoredAt done u (view_of seat.old) → IsPaced (events u (view_of seat.old)) (view_of seat.old) → RefillsTo r done u (view_of seat.new)) }
    ensures spares { IfSome (refill_of result) (λ r. Across (SparesRefill r) seat.old seat.new) }
    ensures none { IfNone (refill_of result) (Across GoesWithout seat.old seat.new) }
    ensures due { IsTrue (begins_where_due (did seat.old seat.new)) }
    ensures pops { IsTrue (pops_where_paid (did seat.old seat.new)) }
    ensures unpopped { IfNone (refill_of result) (IsFalse (some_event pops (did seat.old seat.new))) }
    ensures numbers { Across (RoundNumbers (refill_of result)) seat.old seat.new }
    ensures sees { Across (SeesTo from most result) seat.old seat.new }
    ensures calls { (u : View) → SeenBelow from u (view_of seat.old) → ComesTo result u (view_of seat.new) }
    ensures few { IsShort 0 most result (did seat.old seat.new) }
    ensures longest { length (did seat.old seat.new) ≤ 3 * most + 1 + payment_steps 1024 card_looks heap.now.shape }
{
    match claim_some(heap, seat, from, most) {
        Search::Claimed(cache) => piece_of(pay_for(heap, seat, cache, done)),
        Search::Next(next) => Piece::Next(next),
        Search::Ended => Piece::Ended,
    }
}

/// A piece of [`try_refill`](crate::try_refill): it looks at up to `most` blocks, from block `from` on, with three
/// steps for each and ten more. With a cache it also pays; `longest` bounds all its steps.
///
/// A search begins at block 0, and anew if the mutator came in again or got a cache: then `calls` says of its last
/// piece that a collection is called for.
pub fn try_refill_some(heap: &Heap, seat: &mut HeapSeat, done: u32, from: u32, most: u32) -> Piece
    requires seat { Sits heap.now seat.old × Mutates (view_of seat.old) }
    requires cache { (state_of seat.old).cache ≡ None }
    requires from { from ≤ block_count heap.now.shape }
    ensures seat { Sits heap.now seat.new }
    ensures plays { Across PlaysOn seat.old seat.new }
    ensures refills { IfSome (refill_of result) (λ r. Across (RefillsTo r done) seat.old seat.new × Across (SparesRefill r) seat.old seat.new) }
    ensures none { IfNone (refill_of result) (Across GoesWithout seat.old seat.new) }
    ensures sees { Across (SeesTo from most result) seat.old seat.new }
    ensures calls { (u : View) → SeenBelow from u (view_of seat.old) → ComesTo result u (view_of seat.new) }
    ensures few { IsShort 5 most result (did seat.old seat.new) }
    ensures keeps { Across KeepsSeat seat.old seat.new × Across KeepsSection seat.old seat.new }
    ensures due { IsTrue (begins_where_due (did seat.old seat.new)) }
    ensures pops { IsTrue (pops_where_paid (did seat.old seat.new)) }
    ensures unpopped { IfNone (refill_of result) (IsFalse (some_event pops (did seat.old seat.new))) }
    ensures numbers { Across (RoundNumbers (refill_of result)) seat.old seat.new }
    ensures longest { length (did seat.old seat.new) ≤ 3 * most + 6 + payment_steps 1024 card_looks heap.now.shape }
{
    if stores_if_full(heap, seat, done) {
        return Piece::Full;
    }
    if begins_or_ends(heap, seat) {
        return Piece::MarkingDone;
    }
    search_some(heap, seat, done, from, most)
}
