//! Objects are scanned: what they refer to is marked and pushed.
ghost use Rattle.std.specs.Prelude.{◌≡◌, ◌<◌, ◌≤◌, ◌+◌, ◌-◌, [], ◌∷◌, length, Some, None, IsTrue, IsFalse};
ghost use Rattle.mark_core.specs.Steps.ColourSteps.{may_read_field, without_cell};
ghost use Rattle.mark_core.specs.Held.{has_free_slot};
ghost use Rattle.mark_core.specs.Seats.{cleaning_left, may_scan, scan_left, work_in_hand};
ghost use Rattle.gc_table.specs.Seats.{Across, did, state_of, view_of};
ghost use Rattle.packet_pools.specs.OnlyTraced.{OnlyTraced};
ghost use Rattle.packet_pools.specs.Tracing.{IsTracer};
ghost use Rattle.packet_pools.specs.Hands.{HoldsPacket};
ghost use Rattle.packet_pools.specs.Scanning.{InHand, Pushes, scan_end, cleaning_end};
ghost use Rattle.packet_pools.specs.Counts.{CountsScanned};
ghost use Rattle.packet_pools.specs.Fields.{Follows, fields_from, fields_left};
ghost use Rattle.packet_pools.specs.StepBounds.{follow_steps, room_left, room_steps, scan_steps};
ghost use Rattle.packet_pools.specs.Tried.{DirtiesLast, SearchesOn};

use crate::held::Held;
use crate::marking::mark_cell;
use crate::scanned::Scanned;
use crate::search::Search;
use gc_table::{Heap, HeapSeat};
use mark_core::{Cell, cell_of};

#[inline(always)]
fn scan_field(
    heap: &Heap,
    seat: &mut HeapSeat,
    out: &mut Held,
    search: &mut Search,
    cell: Cell,
    i: u8,
) -> Scanned
    requires seat { IsTracer heap.now seat.old }
    requires out { HoldsPacket out.old (view_of seat.old) × IsTrue (has_free_slot (state_of seat.old).held) }
    requires hand { InHand None None (state_of seat.old) }
    requires field { (i < heap.now.shape.fields) × IsTrue (may_read_field heap.now.shape (state_of seat.old) cell i) }
    ensures seat { IsTracer heap.now seat.new }
    ensures only { Across OnlyTraced seat.old seat.new }
    ensures pushes { Across (Pushes out.old out.new (Some (cell, i + 1)) (without_cell (state_of seat.old).cleaning cell)) seat.old seat.new }
    ensures most { (result.overflowed ≤ result.marked) × (result.marked ≤ 1) }
    ensures counts { CountsScanned heap.now.shape result (did seat.old seat.new) }
    ensures follows { Follows ((cell, i) ∷ []) (did seat.old seat.new) }
    ensures tried { SearchesOn heap.now.shape search.old search.new out.old out.new (did seat.old seat.new) }
    ensures few { length (did seat.old seat.new) + room_left heap.now.shape search.new out.new.length ≤ room_left heap.now.shape search.old out.old.length + follow_steps heap.now.shape }
{
    let word = heap.read_field(seat, cell, i);
    if word == 0 {
        return Scanned::none();
    }
    mark_cell(heap, seat, out, search, cell_of(word))
}

#[inline(always)]
fn scan_fields(
    heap: &Heap,
    seat: &mut HeapSeat,
    out: &mut Held,
    search: &mut Search,
    cell: Cell,
    next: u8,
) -> Scanned
    requires seat { IsTracer heap.now seat.old }
    requires out { HoldsPacket out.old (view_of seat.old) × IsTrue (has_free_slot (state_of seat.old).held) }
    requires hand { InHand None None (state_of seat.old) }
    requires scan { (state_of seat.old).scan ≡ Some (cell, next) }
    ensures seat { IsTracer heap.now seat.new }
    ensures only { Across OnlyTraced seat.old seat.new }
    ensures pushes { Across (Pushes out.old out.new (scan_end heap.now.shape.fields (Some (cell, next))) (cleaning_end heap.now.shape.fields (Some (cell, next)) (state_of seat.old).cleaning)) seat.old seat.new }
    ensures most { (result.overflowed ≤ result.marked) × (result.marked ≤ heap.now.shape.fields - next) }
    ensures counts { CountsScanned heap.now.shape result (did seat.old seat.new) }
    ensures follows { Follows (fields_from cell next (heap.now.shape.fields - next)) (did seat.old seat.new) }
    ensures tried { SearchesOn heap.now.shape search.old search.new out.old out.new (did seat.old seat.new) }
    ensures few { length (did seat.old seat.new) + room_left heap.now.shape search.new out.new.length ≤ room_left heap.now.shape search.old out.old.length + scan_steps (heap.now.shape.fields - next) heap.now.shape }
{
    let mut scanned = Scanned::none();
    for i in next..heap.shape().fields as u8 {
        let one = scan_field(heap, seat, out, search, cell, i);
        scanned.marked += one.marked;
        scanned.overflowed += one.overflowed;
    }
    scanned
}

/// Scans what is left of the object in scan: marks what its fields refer to, and pushes what was white. If no packet
/// has room it dirties the marked cell's card. A packet that is full is exchanged for another, which is then in `out`.
#[inline(always)]
pub fn scan_cell(heap: &Heap, seat: &mut HeapSeat, out: &mut Held) -> Scanned
    requires seat { IsTracer heap.now seat.old }
    requires out { HoldsPacket out.old (view_of seat.old) × IsTrue (has_free_slot (state_of seat.old).held) }
    requires hand { InHand None None (state_of seat.old) }
    ensures seat { IsTracer heap.now seat.new }
    ensures only { Across OnlyTraced seat.old seat.new }
    ensures pushes { Across (Pushes out.old out.new (scan_end heap.now.shape.fields (state_of seat.old).scan) (cleaning_end heap.now.shape.fields (state_of seat.old).scan (state_of seat.old).cleaning)) seat.old seat.new }
    ensures work { IsFalse (cleaning_left (state_of seat.old).cleaning) → IsFalse (work_in_hand heap.now.shape.fields (state_of seat.new)) }
    ensures most { (result.overflowed ≤ result.marked) × (result.marked ≤ heap.now.shape.fields) }
    ensures counts { CountsScanned heap.now.shape result (did seat.old seat.new) }
    ensures follows { Follows (fields_left heap.now.shape.fields (state_of seat.old).scan) (did seat.old seat.new) }
    ensures cause { DirtiesLast heap.now.shape (did seat.old seat.new) }
    ensures few { length (did seat.old seat.new) ≤ scan_steps heap.now.shape.fields heap.now.shape + room_steps heap.now.shape }
{
    match seat.state().scan {
        None => Scanned::none(),
        Some((cell, next)) => scan_fields(heap, seat, out, &mut Search::open(), cell, next),
    }
}

/// Scans the object in scan, `cell`, from its first field on, as [`scan_cell`] does.
#[inline(always)]
pub fn scan_whole(
    heap: &Heap,
    seat: &mut HeapSeat,
    out: &mut Held,
    search: &mut Search,
    cell: Cell,
) -> Scanned
    requires seat { IsTracer heap.now seat.old }
    requires out { HoldsPacket out.old (view_of seat.old) × IsTrue (has_free_slot (state_of seat.old).held) }
    requires hand { InHand None None (state_of seat.old) }
    requires scan { (state_of seat.old).scan ≡ Some (cell, 0) }
    ensures seat { IsTracer heap.now seat.new }
    ensures only { Across OnlyTraced seat.old seat.new }
    ensures pushes { Across (Pushes out.old out.new (scan_end heap.now.shape.fields (state_of seat.old).scan) (cleaning_end heap.now.shape.fields (state_of seat.old).scan (state_of seat.old).cleaning)) seat.old seat.new }
    ensures work { IsFalse (cleaning_left (state_of seat.old).cleaning) → IsFalse (work_in_hand heap.now.shape.fields (state_of seat.new)) }
    ensures most { (result.overflowed ≤ result.marked) × (result.marked ≤ heap.now.shape.fields) }
    ensures counts { CountsScanned heap.now.shape result (did seat.old seat.new) }
    ensures follows { Follows (fields_left heap.now.shape.fields (state_of seat.old).scan) (did seat.old seat.new) }
    ensures tried { SearchesOn heap.now.shape search.old search.new out.old out.new (did seat.old seat.new) }
    ensures few { length (did seat.old seat.new) + room_left heap.now.shape search.new out.new.length ≤ room_left heap.now.shape search.old out.old.length + scan_steps heap.now.shape.fields heap.now.shape }
{
    scan_fields(heap, seat, out, search, cell, 0)
}

/// Scans a cell that is left in the seat's cleaning, as [`scan_cell`] does.
pub fn scan_again(
    heap: &Heap,
    seat: &mut HeapSeat,
    out: &mut Held,
    search: &mut Search,
    cell: Cell,
) -> Scanned
    requires seat { IsTracer heap.now seat.old }
    requires out { HoldsPacket out.old (view_of seat.old) × IsTrue (has_free_slot (state_of seat.old).held) }
    requires hand { InHand None None (state_of seat.old) }
    requires left { IsTrue (may_scan (state_of seat.old).cleaning cell) × IsFalse (scan_left heap.now.shape.fields (state_of seat.old).scan) }
    ensures seat { IsTracer heap.now seat.new }
    ensures only { Across OnlyTraced seat.old seat.new }
    ensures pushes { Across (Pushes out.old out.new (Some (cell, heap.now.shape.fields)) (without_cell (state_of seat.old).cleaning cell)) seat.old seat.new }
    ensures most { (result.overflowed ≤ result.marked) × (result.marked ≤ heap.now.shape.fields) }
    ensures counts { CountsScanned heap.now.shape result (did seat.old seat.new) }
    ensures follows { Follows (fields_from cell 0 heap.now.shape.fields) (did seat.old seat.new) }
    ensures tried { SearchesOn heap.now.shape search.old search.new out.old out.new (did seat.old seat.new) }
    ensures few { length (did seat.old seat.new) + room_left heap.now.shape search.new out.new.length ≤ room_left heap.now.shape search.old out.old.length + scan_steps heap.now.shape.fields heap.now.shape }
{
    let first = scan_field(heap, seat, out, search, cell, 0);
    let rest = scan_fields(heap, seat, out, search, cell, 1);
    Scanned {
        marked: first.marked + rest.marked,
        overflowed: first.overflowed + rest.overflowed,
    }
}
