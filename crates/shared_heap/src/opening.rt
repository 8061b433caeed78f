//! A heap with its seats, the root, and the mutators' turn. Nothing waits: in a new heap nobody is inside.
ghost use Rattle.std.specs.Prelude.{◌≡◌, ◌+◌, ◌<◌, IfOk, IsTrue, Some, slice_get, vec_len};
ghost use Rattle.std.specs.Bool.{OnTrue};
ghost use Rattle.mark_core.specs.Shapes.{IsShape};
ghost use Rattle.gc_table.specs.Seats.{Across, view_of};
ghost use Rattle.gc_table.specs.declared.seat.HeapSeat.{HeapSeat};
ghost use Rattle.seat_turns.specs.Standing.{RestsOutside};
ghost use Rattle.shared_heap.specs.Lending.{shared_shape_for};
ghost use Rattle.shared_heap.specs.Opening.{AreNew, HasFirstCache, HasRoot, IsAloneInIdle, IsAtFirstTurn, IsNewSeat, StopsWithRoot};
ghost use Rattle.shared_heap.specs.Rooting.{MakesRoot, Spares, SparesSeason};
ghost use Rattle.managed_heap.specs.Sizing.{Fits};

use crate::planning::RootPlan;
use alloc_cache::{Cache, claim, leave_with_seat, retire};
use cache_refills::{Pass, try_enter};
use gc_cycle::{ask_to_stop, finds_stopped};
use gc_table::{Heap, HeapSeat};
use managed_heap::Sizes;
use mark_core::{Phase, Shape, usual_stretch};
use mutator_ops::{flush_roots, share_create};
use seat_turns::{NotOpened, is_turn};
use std::alloc::Global;
use stop_world::{leave, resume};

/// A section for each mutator besides section 0, which has the root.
fn shape_of(sizes: &Sizes) -> Shape
    requires fits { Fits sizes.now }
    ensures shape { IsShape result }
    ensures sizes { result ≡ shared_shape_for sizes.now }
{
    Shape {
        cells: sizes.cells,
        packets: sizes.packets,
        entries: sizes.entries,
        sections: 1 + sizes.mutators,
        fields: sizes.fields,
        objects: u32::MAX,
        sharing: true,
        slots: sizes.slots,
        stretch: usual_stretch(sizes.cells),
    }
}

/// The heap, with a seat for each section and each tracer.
pub fn open(alloc: Global, sizes: &Sizes) -> Result<(Heap, Vec<HeapSeat>), NotOpened>
    requires fits { Fits sizes.now }
    ensures shape { IfOk result (λ r. r.0.shape ≡ shared_shape_for sizes.now) }
    ensures count { IfOk result (λ r. vec_len r.1 ≡ 1 + sizes.now.mutators + sizes.now.tracers) }
    ensures seats { IfOk result (λ r. AreNew r.0 0 r.1.items) }
    ensures first { IfOk result (λ r. (s : HeapSeat) → slice_get r.1.items 0 ≡ Some s → (view_of s).opened ≡ r.0.shape.sections + sizes.now.tracers) }
{
    let shape = shape_of(sizes);
    match Heap::create(alloc, shape, shape.sections + sizes.tracers, &RootPlan) {
        Ok(made) => Ok(made),
        Err(_) => Err(NotOpened::OutOfMemory),
    }
}

fn goes_in(heap: &Heap, seat: &mut HeapSeat) -> bool
    requires new { IsNewSeat heap.now 0 seat.old × (0 < heap.now.shape.sections) }
    ensures turn { OnTrue result (IsAtFirstTurn heap.now seat.new) }
    ensures comes { OnTrue result (Across SparesSeason seat.old seat.new) }
{
    match try_enter(heap, seat) {
        Pass::Going => is_turn(heap, seat, 0),
        _ => false,
    }
}

fn makes_in(heap: &Heap, seat: &mut HeapSeat, cache: Cache) -> bool
    requires turn { HasFirstCache heap.now cache seat.old }
    requires shared { IsTrue heap.now.shape.sharing }
    requires room { 0 < heap.now.shape.objects }
    ensures root { OnTrue result (HasRoot heap.now seat.new) }
    ensures makes { OnTrue result (Across MakesRoot seat.old seat.new) }
{
    let mut cache = cache;
    match share_create(heap, seat, &mut cache, 0, 0) {
        None => {
            leave_with_seat(cache);
            false
        }
        Some(_) => {
            flush_roots(heap, seat);
            retire(heap, seat, cache);
            true
        }
    }
}

fn makes_root(heap: &Heap, seat: &mut HeapSeat) -> bool
    requires turn { IsAtFirstTurn heap.now seat.old }
    requires shared { IsTrue heap.now.shape.sharing }
    requires room { 0 < heap.now.shape.objects }
    ensures root { OnTrue result (HasRoot heap.now seat.new) }
    ensures makes { OnTrue result (Across MakesRoot seat.old seat.new) }
{
    match claim(heap, seat) {
        None => false,
        Some(cache) => makes_in(heap, seat, cache),
    }
}

/// Stops the world, by one look.
fn stops(heap: &Heap, seat: &mut HeapSeat) -> bool
    requires root { HasRoot heap.now seat.old }
    ensures stops { OnTrue result (StopsWithRoot heap.now seat.new) }
    ensures spares { OnTrue result (Across Spares seat.old seat.new) }
{
    if !ask_to_stop(heap, seat, 0) || !finds_stopped(heap, seat) {
        return false;
    }
    match seat.state().phase_seen {
        Some(Phase::Idle) => true,
        _ => false,
    }
}

fn goes_on(heap: &Heap, seat: &mut HeapSeat)
    requires { IsAloneInIdle heap.now seat.old }
    ensures rests { RestsOutside heap.now seat.new }
    ensures season { (view_of seat.new).own.seasons ≡ (view_of seat.old).own.seasons }
    ensures spares { Across Spares seat.old seat.new }
{
    resume(heap, seat);
    leave(heap, seat);
}

/// Makes the root and opens the mutators' turn with the seat of section 0. False if another seat is at work, as none
/// is in a new heap.
pub fn open_turn(heap: &Heap, seat: &mut HeapSeat) -> bool
    requires new { IsNewSeat heap.now 0 seat.old × (0 < heap.now.shape.sections) }
    requires shared { IsTrue heap.now.shape.sharing }
    requires room { 0 < heap.now.shape.objects }
    ensures rests { OnTrue result (RestsOutside heap.now seat.new) }
    ensures season { OnTrue result ((view_of seat.new).own.seasons ≡ 1) }
    ensures makes { OnTrue result (Across MakesRoot seat.old seat.new) }
{
    if !goes_in(heap, seat) || !makes_root(heap, seat) || !stops(heap, seat) {
        return false;
    }
    heap.next_season(seat);
    goes_on(heap, seat);
    true
}
