ghost use Rattle.std.specs.Prelude.{◌≡◌, ℕ, ◌<◌, IfOk, Some, slice_get, vec_len, map};
ghost use Rattle.mark_core.specs.Bits.{reference_in};
ghost use Rattle.gc_table.specs.declared.seat.HeapSeat.{HeapSeat};
ghost use Rattle.gc_table.specs.Rule.{KnowsFull};
ghost use Rattle.gc_table.specs.Seats.{IsOutside, Sits, state_of, view_of};
ghost use Rattle.plain_heap.specs.Placement.{IsFilled};
ghost use Rattle.play_end.specs.Closed.{AreSeated, PlayedAll, SeatsStopped};
ghost use Rattle.play_end.specs.Answers.{IsReport};
ghost use Rattle.gc_table.specs.Ends.{IsEnd};
ghost use Rattle.gc_table.specs.declared.words.Words.{Words};
ghost use Rattle.play_end.specs.Reported.{AreSurvivorsPlaced, AreParts, AreStored};

use crate::limits::{see_limits, see_ranges};
use crate::survivors::survivors_of;
use gc_script::Script;
use gc_table::{Heap, HeapSeat, Words};
use mark_core::reference_in;
use plain_heap::OutOfMemory;
use play_report::{Part, Positions, Report};
use std::alloc::{AllocError, Global};

/// Closes the heap of a play in which each section played all its parts and the catalogue's seat then moved the season
/// on and ended an exact cycle: the report, and the words of the heap. If memory runs out, all that was handed in is
/// gone.
pub fn close_played<'a>(
    alloc: Global,
    script: &Script<'a>,
    heap: Heap,
    seats: Vec<HeapSeat>,
    parts: Vec<Part<'a>>,
) -> Result<(Report<'a>, Words), OutOfMemory>
    requires some { 0 < vec_len seats }
    requires seats { (i : ℕ) (s : HeapSeat) → slice_get seats.items i ≡ Some s → Sits heap s × ((state_of s).number ≡ i) × IsOutside (view_of s) }
    requires made { AreSeated script.now.sections heap.shape.cells heap.shape seats.items }
    requires played { PlayedAll script.now.sections seats.items }
    requires parts { AreParts script.now.sections seats.items parts.items }
    ensures report { IfOk result (λ r. IsReport script.now.sections heap.shape.cells r.0) }
    ensures words { IfOk result (λ r. IsEnd heap.shape seats.items r.1) }
    ensures held { IfOk result (λ r. AreSurvivorsPlaced script.now.sections r.1 r.0) }
    ensures parts { IfOk result (λ r. AreParts script.now.sections seats.items r.0.parts.items) }
{
    see_limits(script);
    see_ranges(script);
    let words = match heap.close(alloc, seats) {
        Ok(words) => words,
        Err(e) => return Err(e),
    };
    match survivors_of(alloc, &words) {
        Ok(survivors) => Ok((Report { parts, survivors }, words)),
        Err(e) => Err(e),
    }
}

fn as_positions(alloc: Global, positions: &[u64]) -> Result<Vec<u32>, AllocError>
    ensures { IfOk result (λ v. v.items ≡ map reference_in positions.now) }
{
    positions
        .iter()
        .map(|position| reference_in(*position))
        .collect(alloc)
}

/// Closes the heap of a play that some seat found full, in which each section stopped or ended its part. At the
/// positions answered the reachable objects fill all cells, and the next command of the named section is a `new`. If
/// memory runs out, all that was handed in is gone.
pub fn close_full(
    alloc: Global,
    script: &Script<'_>,
    heap: Heap,
    seats: Vec<HeapSeat>,
) -> Result<Positions, OutOfMemory>
    requires some { 0 < vec_len seats }
    requires seats { (i : ℕ) (s : HeapSeat) → slice_get seats.items i ≡ Some s → Sits heap s × ((state_of s).number ≡ i) × IsOutside (view_of s) }
    requires made { AreSeated script.now.sections heap.shape.cells heap.shape seats.items }
    requires stopped { (z : ℕ) × SeatsStopped script.now.sections z seats.items }
    requires full { (i : ℕ) × (s : HeapSeat) × (slice_get seats.items i ≡ Some s) × KnowsFull (view_of s) }
    ensures filled { IfOk result (λ p. IsFilled script.now.sections heap.shape.cells p.section p.done.items) }
    ensures words { IfOk result (λ p. (w : Words) × IsEnd heap.shape seats.items w × AreStored w p) }
{
    see_limits(script);
    let words = match heap.close(alloc, seats) {
        Ok(words) => words,
        Err(e) => return Err(e),
    };
    match as_positions(alloc, &words.positions) {
        Ok(done) => Ok(Positions {
            section: words.named,
            done,
        }),
        Err(_) => Err(OutOfMemory),
    }
}
