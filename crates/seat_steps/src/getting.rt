//! How a mutator gets a free cell without waiting.
ghost use Rattle.std.specs.Prelude.{◌≡◌, ◌<◌, ◌+◌, length, IfErr, IfNone, IfOk, IfSome, IsTrue, None};
ghost use Rattle.std.specs.Int.Count.{ones};
ghost use Rattle.mark_core.specs.Numbers.{section_variables};
ghost use Rattle.plain_heap.specs.declared.operation.Op.TheVariants as ops;
ghost use Rattle.alloc_cache.specs.Caching.{IsCached};
ghost use Rattle.gc_cycle.specs.Answering.{HasCache};
ghost use Rattle.gc_table.specs.Running.{Ran};
ghost use Rattle.gc_table.specs.Seats.{Across, did, view_of};
ghost use Rattle.gc_cycle.specs.Statistics.{RoundNumbers};
ghost use Rattle.cache_refills.specs.Pace.Pacing.{begins_where_due};
ghost use Rattle.mutator_ops.specs.Few.{AtMost};
ghost use Rattle.seat_turns.specs.Sharing.{LeavesHeap};
ghost use Rattle.seat_turns.specs.Standing.{Halts, HoldsTurn, Plays, Works, flush_steps, plain_of};
ghost use Rattle.seat_steps.specs.Causes.{ArrivesBy, ComesFreely, FillsBy, GoesFreely, LacksBy, MakesBy};
ghost use Rattle.seat_steps.specs.Filling.{TriesSome, TriesToFill};
ghost use Rattle.seat_steps.specs.Pacing.{CarriesPace, Paces};
ghost use Rattle.seat_steps.specs.PaidTries.{CountsComing, CountsMaking, CountsTry};
ghost use Rattle.seat_steps.specs.declared.came.Came.TheVariants as cames;
ghost use Rattle.seat_steps.specs.Arriving.{LacksCell, LeavesWorld, MakesOne, Refills};

use crate::came::Came;
use crate::operations::makes;
use crate::payments::count_paid;
use crate::tries::{arrive, pass_once, point};
use alloc_cache::{Cache, cache_of};
use cache_refills::try_refill;
use gc_cycle::Refill;
use gc_table::{Heap, HeapSeat};
use seat_turns::{flush_turn, keep_some, leave, retire_some, with_free};

fn try_fill(heap: &Heap, seat: &mut HeapSeat) -> Option<Refill>
    requires halts { Halts heap.now seat.old }
    ensures refills { IfSome result (λ r. Refills r heap.now seat.new) }
    ensures none { IfNone result (Halts heap.now seat.new) }
    ensures same { plain_of seat.new ≡ plain_of seat.old }
    ensures leaves { Across LeavesHeap seat.old seat.new }
    ensures ran { Across Ran seat.old seat.new }
    ensures tries { Across (TriesToFill result) seat.old seat.new }
    ensures due { IsTrue (begins_where_due (did seat.old seat.new)) }
    ensures numbers { Across (RoundNumbers result) seat.old seat.new }
{
    let made = seat.state().made;
    try_refill(heap, seat, made)
}

fn lacks_cell(heap: &Heap, seat: &mut HeapSeat) -> Came
    requires halts { Halts heap.now seat.old }
    ensures lacks { LacksCell result heap.now seat.new }
    ensures same { plain_of seat.new ≡ plain_of seat.old }
    ensures leaves { Across LeavesHeap seat.old seat.new }
    ensures ran { Across Ran seat.old seat.new }
    ensures found { Across (LacksBy result) seat.old seat.new }
    ensures paces { Across CarriesPace seat.old seat.new }
{
    match arrive(heap, seat) {
        Came::Done => Came::NoCell,
        other => other,
    }
}

pub fn point_with(heap: &Heap, seat: &mut HeapSeat, cache: Cache) -> Result<Cache, Came>
    requires works { Works heap.now seat.old }
    requires cache { IsCached cache (view_of seat.old) }
    requires free { 0 < ones cache.cells }
    ensures ok { IfOk result (λ free. Plays heap.now seat.new × IsCached free (view_of seat.new)) }
    ensures free { IfOk result (λ free. 0 < ones free.cells) }
    ensures turn { IfOk result (λ _. HoldsTurn heap.now seat.new) }
    ensures err { IfErr result (λ came. LeavesWorld came heap.now seat.new) }
    ensures same { plain_of seat.new ≡ plain_of seat.old }
    ensures leaves { Across LeavesHeap seat.old seat.new }
    ensures ran { Across Ran seat.old seat.new }
    ensures few { IfOk result (λ _. Across (AtMost 3) seat.old seat.new) }
    ensures freely { IfOk result (λ _. Across GoesFreely seat.old seat.new) }
    ensures found { IfErr result (λ came. Across (ArrivesBy came) seat.old seat.new) }
    ensures paces { Across CarriesPace seat.old seat.new }
{
    match point(heap, seat, Some(cache)) {
        Err(came) => Err(came),
        Ok(kept) => match with_free(kept) {
            Ok(free) => Ok(free),
            Err(none) => {
                keep_some(none);
                Err(Came::NoCell)
            }
        },
    }
}

fn fill(
    heap: &Heap,
    seat: &mut HeapSeat,
    cache: Option<Cache>,
    paid: &mut u64,
) -> Result<Cache, Came>
    requires works { Works heap.now seat.old }
    requires cache { HasCache cache (view_of seat.old) }
    ensures ok { IfOk result (λ free. Plays heap.now seat.new × IsCached free (view_of seat.new)) }
    ensures free { IfOk result (λ free. 0 < ones free.cells) }
    ensures err { IfErr result (λ came. LacksCell came heap.now seat.new) }
    ensures same { plain_of seat.new ≡ plain_of seat.old }
    ensures leaves { Across LeavesHeap seat.old seat.new }
    ensures ran { Across Ran seat.old seat.new }
    ensures besides { IfOk result (λ _. Across (TriesSome 3 3) seat.old seat.new) }
    ensures found { IfErr result (λ came. Across (FillsBy 3 came) seat.old seat.new) }
    ensures pays { Across (CountsTry 3 8 paid.old paid.new) seat.old seat.new }
    ensures paces { Across Paces seat.old seat.new }
{
    retire_some(heap, seat, cache);
    match try_fill(heap, seat) {
        None => Err(lacks_cell(heap, seat)),
        Some(Refill::Full) => {
            leave(heap, seat);
            Err(Came::Full)
        }
        Some(Refill::Cache(cache, traced)) => {
            count_paid(paid, traced);
            point_with(heap, seat, cache)
        }
    }
}

/// Stores the roots that lag first.
fn fill_flushed(
    heap: &Heap,
    seat: &mut HeapSeat,
    cache: Option<Cache>,
    paid: &mut u64,
) -> Result<Cache, Came>
    requires turn { HoldsTurn heap.now seat.old }
    requires cache { HasCache cache (view_of seat.old) }
    ensures ok { IfOk result (λ free. HoldsTurn heap.now seat.new × IsCached free (view_of seat.new)) }
    ensures free { IfOk result (λ free. 0 < ones free.cells) }
    ensures err { IfErr result (λ came. LacksCell came heap.now seat.new) }
    ensures same { plain_of seat.new ≡ plain_of seat.old }
    ensures leaves { Across LeavesHeap seat.old seat.new }
    ensures ran { Across Ran seat.old seat.new }
    ensures besides { IfOk result (λ _. Across (TriesSome (flush_steps (view_of seat.old) + 3) 3) seat.old seat.new) }
    ensures found { IfErr result (λ came. Across (FillsBy (flush_steps (view_of seat.old) + 3) came) seat.old seat.new) }
    ensures pays { Across (CountsTry (flush_steps (view_of seat.old) + 3) 8 paid.old paid.new) seat.old seat.new }
    ensures paces { Across Paces seat.old seat.new }
{
    flush_turn(heap, seat);
    fill(heap, seat, cache, paid)
}

fn come_once(heap: &Heap, seat: &mut HeapSeat, paid: &mut u64) -> Result<Cache, Came>
    requires turn { HoldsTurn heap.now seat.old }
    ensures ok { IfOk result (λ free. HoldsTurn heap.now seat.new × IsCached free (view_of seat.new)) }
    ensures free { IfOk result (λ free. 0 < ones free.cells) }
    ensures err { IfErr result (λ came. LacksCell came heap.now seat.new) }
    ensures same { plain_of seat.new ≡ plain_of seat.old }
    ensures leaves { Across LeavesHeap seat.old seat.new }
    ensures ran { Across Ran seat.old seat.new }
    ensures freely { IfOk result (λ _. Across ComesFreely seat.old seat.new) }
    ensures found { IfErr result (λ came. Across (MakesBy came) seat.old seat.new) }
    ensures pays { Across (CountsComing paid.old paid.new) seat.old seat.new }
    ensures paces { Across Paces seat.old seat.new }
{
    match pass_once(heap, seat) {
        Came::Done => match with_free(cache_of(seat)) {
            Ok(free) => Ok(free),
            Err(none) => fill_flushed(heap, seat, none, paid),
        },
        came => Err(came),
    }
}

/// Makes an object in variable v, after a safe point.
pub fn make_once(heap: &Heap, seat: &mut HeapSeat, paid: &mut u64, v: u8, value: u32) -> Came
    requires turn { HoldsTurn heap.now seat.old }
    requires room { length (plain_of seat.old).objects < heap.now.shape.objects }
    requires range { v < section_variables }
    ensures makes { MakesOne result (ops.New v value) heap.now seat.old seat.new }
    ensures leaves { (result ≡ cames.Done → ⊥) → Across LeavesHeap seat.old seat.new }
    ensures found { Across (MakesBy result) seat.old seat.new }
    ensures pays { Across (CountsMaking paid.old paid.new) seat.old seat.new }
{
    match come_once(heap, seat, paid) {
        Ok(free) => {
            makes(heap, seat, free, v, value);
            Came::Done
        }
        Err(came) => came,
    }
}
