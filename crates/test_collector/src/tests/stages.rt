//! The stages of a collection in steps, in pieces of `most`. A stage tells how many of its pieces were full, before one
//! that was less.
ghost use Rattle.std.specs.Prelude.{◌≢◌, ◌+◌, IfNone, IfSome};
ghost use Rattle.std.specs.Bool.{OnFalse, OnTrue};
ghost use Rattle.gc_table.specs.Seats.{view_of};
ghost use Rattle.gc_cycle.specs.Collecting.{HoldsWorld};
ghost use Rattle.gc_cycle.specs.Pieces.{HasLooked, LooksFrom};
ghost use Rattle.gc_cycle.specs.Stepping.{Drains, HasMarkedAll, HasSwept, IsAtRoots};
ghost use Rattle.test_heaps.specs.Seats.{HasEachObject};

use gc_cycle::{
    Counts, Look, begin_collection, clean_step, clear_step, count_step, finds_all_marked,
    finish_clear, finish_count, look_step, root_piece, start_clear, start_count, start_sweep,
    sweep_step, trace_step,
};
use gc_table::{Heap, HeapSeat};

/// What a drain did.
#[derive(PartialEq, Drop)]
pub struct Drained {
    /// How many objects it popped.
    pub popped: u32,
    /// How many cards it cleaned.
    pub cleaned: u32,
    /// How many pieces of its last look at the cards were full.
    pub looks: u32,
}

/// What a sweep did.
#[derive(Drop)]
pub struct Swept {
    /// How many of its pieces were full.
    pub full: u32,
    /// How many cells it freed.
    pub freed: u32,
}

fn sees_roots(heap: &Heap, seat: &mut HeapSeat, most: u32) -> Option<u32>
    requires { HasEachObject heap.now seat.old × IsAtRoots (view_of seat.old) }
    ensures { IfSome result (λ _. HasEachObject heap.now seat.new × Drains (view_of seat.new)) }
{
    let mut from: u32 = 0;
    for full in 0..1_000 {
        let seen = root_piece(heap, seat, from, most)?;
        if seen != most {
            return Some(full);
        }
        from = from.checked_add(seen)?;
    }
    None
}

fn traces(heap: &Heap, seat: &mut HeapSeat, most: u32) -> u32
    requires { HasEachObject heap.now seat.old × Drains (view_of seat.old) }
    ensures { HasEachObject heap.now seat.new × Drains (view_of seat.new) }
{
    let mut popped: u32 = 0;
    for _piece in 0..1_000 {
        let more = trace_step(heap, seat, most);
        popped = popped.wrapping_add(more);
        if more != most {
            return popped;
        }
    }
    popped
}

/// Looks at cards from this one on: how many were clean. None if one is dirty.
fn looks_at_some(heap: &Heap, seat: &mut HeapSeat, from: u32, most: u32) -> Option<u32>
    requires { HasEachObject heap.now seat.old × LooksFrom from (view_of seat.old) }
    ensures some { IfSome result (λ n. HasEachObject heap.now seat.new × LooksFrom (from + n) (view_of seat.new)) }
    ensures last { IfSome result (λ n. n ≢ most → HasLooked (view_of seat.new)) }
    ensures none { IfNone result (HasEachObject heap.now seat.new × Drains (view_of seat.new)) }
{
    match look_step(heap, seat, from, most) {
        Look::Clean(seen) => Some(seen),
        Look::Dirty(_) => None,
    }
}

fn looks_at_all(heap: &Heap, seat: &mut HeapSeat, most: u32) -> Option<u32>
    requires { HasEachObject heap.now seat.old × Drains (view_of seat.old) }
    ensures some { IfSome result (λ _. HasEachObject heap.now seat.new × HasLooked (view_of seat.new)) }
    ensures none { IfNone result (HasEachObject heap.now seat.new × Drains (view_of seat.new)) }
{
    let mut from: u32 = 0;
    for full in 0..1_000 {
        let seen = looks_at_some(heap, seat, from, most)?;
        if seen != most {
            return Some(full);
        }
        from = from.checked_add(seen)?;
    }
    None
}

/// How many cards were dirty.
fn cleans(heap: &Heap, seat: &mut HeapSeat, most: u32) -> u32
    requires { HasEachObject heap.now seat.old × Drains (view_of seat.old) }
    ensures { HasEachObject heap.now seat.new × Drains (view_of seat.new) }
{
    let mut from: u32 = 0;
    let mut cleaned: u32 = 0;
    for _piece in 0..1_000 {
        let Some(step) = clean_step(heap, seat, from, most) else {
            return cleaned;
        };
        cleaned = cleaned.wrapping_add(step.cleaned);
        if step.passed != most {
            return cleaned;
        }
        from = from.wrapping_add(step.passed);
    }
    cleaned
}

/// Whether all is marked. If a card is dirty, it cleans.
fn makes_round(heap: &Heap, seat: &mut HeapSeat, most: u32, drained: &mut Drained) -> bool
    requires { HasEachObject heap.now seat.old × Drains (view_of seat.old) }
    ensures yes { OnTrue result (HasEachObject heap.now seat.new × HasMarkedAll (view_of seat.new)) }
    ensures no { OnFalse result (HasEachObject heap.now seat.new × Drains (view_of seat.new)) }
{
    let popped = traces(heap, seat, most);
    drained.popped = drained.popped.wrapping_add(popped);
    match looks_at_all(heap, seat, most) {
        Some(full) => {
            drained.looks = full;
            finds_all_marked(heap, seat)
        }
        None => {
            let cleaned = cleans(heap, seat, most);
            drained.cleaned = drained.cleaned.wrapping_add(cleaned);
            false
        }
    }
}

fn drains(heap: &Heap, seat: &mut HeapSeat, most: u32) -> Option<Drained>
    requires { HasEachObject heap.now seat.old × Drains (view_of seat.old) }
    ensures { IfSome result (λ _. HasEachObject heap.now seat.new × HasMarkedAll (view_of seat.new)) }
{
    let mut drained = Drained {
        popped: 0,
        cleaned: 0,
        looks: 0,
    };
    for _round in 0..100 {
        if makes_round(heap, seat, most, &mut drained) {
            return Some(drained);
        }
    }
    None
}

fn clears(heap: &Heap, seat: &mut HeapSeat, most: u32) -> Option<u32>
    requires { HasEachObject heap.now seat.old × HasMarkedAll (view_of seat.old) }
    ensures { IfSome result (λ _. HasEachObject heap.now seat.new × IsAtRoots (view_of seat.new)) }
{
    start_clear(heap, seat);
    for full in 0..1_000 {
        if clear_step(heap, seat, most) != most {
            finish_clear(heap, seat);
            return Some(full);
        }
    }
    None
}

fn sweeps(heap: &Heap, seat: &mut HeapSeat, most: u32) -> Option<Swept>
    requires { HasEachObject heap.now seat.old × HasMarkedAll (view_of seat.old) }
    ensures { IfSome result (λ _. HasEachObject heap.now seat.new × HasSwept (view_of seat.new)) }
{
    start_sweep(heap, seat);
    let mut freed: u32 = 0;
    for full in 0..1_000 {
        let step = sweep_step(heap, seat, most);
        freed = freed.wrapping_add(step.freed);
        if step.stretches != most {
            return Some(Swept { full, freed });
        }
    }
    None
}

/// Ends the cycle and counts the cells in use.
fn counts(heap: &Heap, seat: &mut HeapSeat, most: u32, freed: u32) -> Option<(u32, Counts)>
    requires { HasEachObject heap.now seat.old × HasSwept (view_of seat.old) }
    ensures { IfSome result (λ _. HasEachObject heap.now seat.new) }
{
    start_count(heap, seat);
    let mut from: u32 = 0;
    let mut counted: u32 = 0;
    for full in 0..1_000 {
        let step = count_step(heap, seat, from, counted, most);
        counted = step.counted;
        if step.blocks != most {
            return Some((full, finish_count(heap, seat, counted, 0, freed)));
        }
        from = from.checked_add(step.blocks)?;
    }
    None
}

fn begins(heap: &Heap, seat: &mut HeapSeat) -> bool
    requires { HasEachObject heap.now seat.old × HoldsWorld (view_of seat.old) }
    ensures { OnTrue result (HasEachObject heap.now seat.new × IsAtRoots (view_of seat.new)) }
{
    begin_collection(heap, seat)
}

/// How many pieces that saw to roots were full, and what the drain did.
#[derive(PartialEq, Drop)]
pub struct Marked {
    pub roots: u32,
    pub drained: Drained,
}

fn marks(heap: &Heap, seat: &mut HeapSeat, most: u32) -> Option<Marked>
    requires { HasEachObject heap.now seat.old × IsAtRoots (view_of seat.old) }
    ensures { IfSome result (λ _. HasEachObject heap.now seat.new × HasMarkedAll (view_of seat.new)) }
{
    let roots = sees_roots(heap, seat, most)?;
    let drained = drains(heap, seat, most)?;
    Some(Marked { roots, drained })
}

/// What a collection in steps did: what was marked, twice; how many full pieces cleared, swept and counted; what was
/// found.
#[derive(PartialEq, Drop)]
pub struct Collected {
    pub first: Marked,
    pub cleared: u32,
    pub again: Marked,
    pub swept: u32,
    pub counted: u32,
    pub found: Counts,
}

/// Collects in the stop, and marks twice.
pub fn collects_in_steps(heap: &Heap, seat: &mut HeapSeat, most: u32) -> Option<Collected>
    requires { HasEachObject heap.now seat.old × HoldsWorld (view_of seat.old) }
    ensures { IfSome result (λ _. HasEachObject heap.now seat.new) }
{
    if !begins(heap, seat) {
        return None;
    }
    let first = marks(heap, seat, most)?;
    let cleared = clears(heap, seat, most)?;
    let again = marks(heap, seat, most)?;
    let swept = sweeps(heap, seat, most)?;
    let (counted, found) = counts(heap, seat, most, swept.freed)?;
    Some(Collected {
        first,
        cleared,
        again,
        swept: swept.full,
        counted,
        found,
    })
}
