//! A heap with its seats, and the mutators' turn. Nothing waits: in a new heap nobody is inside.
ghost use Rattle.std.specs.Prelude.{◌≡◌, ◌+◌, ◌<◌, IfOk, IsFalse, Some, slice_get, vec_len};
ghost use Rattle.std.specs.Bool.{OnTrue};
ghost use Rattle.mark_core.specs.Shapes.{IsShape};
ghost use Rattle.mark_core.specs.declared.kinds.Phase.TheVariants.{Idle};
ghost use Rattle.gc_table.specs.Running.{Alone, Ran};
ghost use Rattle.gc_table.specs.Seats.{Across, view_of};
ghost use Rattle.gc_table.specs.Stopping.{has_moved};
ghost use Rattle.gc_table.specs.SeatRecords.{At, resting};
ghost use Rattle.gc_table.specs.declared.seat.HeapSeat.{HeapSeat};
ghost use Rattle.managed_heap.specs.Lending.{shape_for};
ghost use Rattle.managed_heap.specs.Opening.{AreNew, Opens};
ghost use Rattle.stop_world.specs.StopRecords.{flagged, stopped, KeepsMeaningAndPlan};
ghost use Rattle.managed_heap.specs.Sizing.{Fits};

use crate::sizes::Sizes;
use gc_table::{Heap, HeapSeat};
use mark_core::{Phase, Shape, usual_stretch};
use plain_heap::NoPlan;
use seat_turns::NotOpened;
use std::alloc::Global;
use stop_world::{Raised, leave, raise, resume};

/// A section for each mutator besides section 0, whose seat has nothing to do with objects.
fn shape_of(sizes: &Sizes) -> Shape
    requires fits { Fits sizes.now }
    ensures shape { IsShape result }
    ensures sizes { result ≡ shape_for sizes.now }
{
    Shape {
        cells: sizes.cells,
        packets: sizes.packets,
        entries: sizes.entries,
        sections: 1 + sizes.mutators,
        fields: sizes.fields,
        objects: u32::MAX,
        sharing: false,
        slots: 0,
        stretch: usual_stretch(sizes.cells),
    }
}

/// The heap, with a seat for each section and each tracer.
pub fn open(alloc: Global, sizes: &Sizes) -> Result<(Heap, Vec<HeapSeat>), NotOpened>
    requires fits { Fits sizes.now }
    ensures shape { IfOk result (λ r. r.0.shape ≡ shape_for sizes.now) }
    ensures count { IfOk result (λ r. vec_len r.1 ≡ 1 + sizes.now.mutators + sizes.now.tracers) }
    ensures seats { IfOk result (λ r. AreNew r.0 0 r.1.items) }
    ensures first { IfOk result (λ r. (s : HeapSeat) → slice_get r.1.items 0 ≡ Some s → (view_of s).opened ≡ r.0.shape.sections + sizes.now.tracers) }
{
    let shape = shape_of(sizes);
    match Heap::create(alloc, shape, shape.sections + sizes.tracers, &NoPlan) {
        Ok(made) => Ok(made),
        Err(_) => Err(NotOpened::OutOfMemory),
    }
}

fn raises(heap: &Heap, seat: &mut HeapSeat) -> bool
    requires { At heap.now resting 0 seat.old }
    ensures raised { OnTrue result (At heap.now flagged 0 seat.new × IsFalse (has_moved (view_of seat.new).log)) }
    ensures keeps { Across KeepsMeaningAndPlan seat.old seat.new }
    ensures ran { Across Ran seat.old seat.new }
{
    match raise(heap, seat) {
        Raised::Yours => true,
        Raised::Theirs => false,
    }
}

/// Whether the world has stopped with no cycle under way, by one look.
fn stops_now(heap: &Heap, seat: &mut HeapSeat) -> bool
    requires { At heap.now flagged 0 seat.old × IsFalse (has_moved (view_of seat.old).log) }
    ensures stopped { OnTrue result (At heap.now stopped 0 seat.new × Alone Idle (view_of seat.new)) }
    ensures keeps { Across KeepsMeaningAndPlan seat.old seat.new }
    ensures ran { Across Ran seat.old seat.new }
{
    heap.observe(seat);
    match heap.read_phase(seat) {
        Phase::Idle => seat.state().knows,
        _ => false,
    }
}

#[tactic(auto, using(crate::proofs::Runs::runs))]
fn goes_on(heap: &Heap, seat: &mut HeapSeat)
    requires { At heap.now stopped 0 seat.old × Alone Idle (view_of seat.old) }
    ensures rests { At heap.now resting 0 seat.new }
    ensures season { (view_of seat.new).own.seasons ≡ (view_of seat.old).own.seasons }
    ensures ran { Across Ran seat.old seat.new }
{
    resume(heap, seat);
    leave(heap, seat);
}

/// Opens the mutators' turn with the seat of section 0. False if another seat is at work, as none is in a new heap.
pub fn open_turn(heap: &Heap, seat: &mut HeapSeat) -> bool
    requires { Opens heap.now resting seat.old × (0 < heap.now.shape.sections) }
    ensures rests { OnTrue result (At heap.now resting 0 seat.new) }
    ensures season { OnTrue result ((view_of seat.new).own.seasons ≡ 1) }
    ensures ran { OnTrue result (Across Ran seat.old seat.new) }
{
    if !raises(heap, seat) || !stops_now(heap, seat) {
        return false;
    }
    heap.next_season(seat);
    goes_on(heap, seat);
    true
}
