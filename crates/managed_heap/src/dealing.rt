//! The seats of a new heap are dealt out, and a world is made of it.
ghost use Rattle.std.specs.Prelude.{ℕ, ◌≡◌, ◌+◌, ◌<◌, ◌≤◌, IfErr, IfOk, IsFalse, IsTrue, is_some, vec_len};
ghost use Rattle.std.specs.Arc.{arc_value};
ghost use Rattle.gc_table.specs.SeatRecords.{At, resting};
ghost use Rattle.gc_table.specs.Seats.{state_of, view_of};
ghost use Rattle.managed_heap.specs.Lending.{IsFreshMutator, IsOpened, shape_for};
ghost use Rattle.managed_heap.specs.Opening.{AreNew, IsNewSeat};
ghost use Rattle.seat_turns.specs.Standing.{RestsOutside};
ghost use Rattle.seat_turns.specs.declared.refused.NotOpened.TheVariants.{OutOfMemory};
ghost use Rattle.managed_heap.specs.Gathering.{IsFirstSeat};
ghost use Rattle.managed_heap.specs.WorldOpening.{AreNumbered};
ghost use Rattle.managed_heap.specs.Sizing.{Fits};

use crate::dealt_tracers::deal_tracers;
use crate::mutator::{Mutator, Place};
use crate::opening::{open, open_turn};
use crate::sizes::Sizes;
use crate::taking::first_of;
use crate::world::World;
use gc_table::{Heap, HeapSeat};
use seat_turns::NotOpened;
use std::alloc::{AllocError, Global};
use std::sync::Arc;

fn mutator_of(
    heap: &Arc<Heap, Global>,
    seat: HeapSeat,
    name: u32,
    in_stops: bool,
) -> Result<Mutator, AllocError>
    ghost k: { ℕ }
    requires seat { IsNewSeat (arc_value heap.now) k seat }
    requires section { (0 < k) × (k < (arc_value heap.now).shape.sections) }
    requires owned { IsFalse (arc_value heap.now).shape.sharing }
    ensures fresh { IfOk result (IsFreshMutator (arc_value heap.now) name in_stops k) }
{
    Ok(Mutator {
        heap: Arc::try_clone(heap)?,
        seat,
        place: Place::Outside,
        name,
        in_stops,
    })
}

fn deal_mutators(
    alloc: Global,
    heap: &Arc<Heap, Global>,
    sizes: Sizes,
    seats: &mut Vec<HeapSeat>,
) -> Result<Vec<Mutator>, AllocError>
    requires new { AreNew (arc_value heap.now) 1 seats.old.items }
    requires enough { sizes.mutators ≤ vec_len seats.old }
    requires sections { (arc_value heap.now).shape.sections ≡ 1 + sizes.mutators }
    requires owned { IsFalse (arc_value heap.now).shape.sharing }
    ensures fresh { IfOk result (λ r. AreNumbered (IsFreshMutator (arc_value heap.now) sizes.name sizes.in_stops) 1 r.items) }
    ensures count { IfOk result (λ r. vec_len r ≡ sizes.mutators) }
    ensures rest { IfOk result (λ _. AreNew (arc_value heap.now) (1 + sizes.mutators) seats.new.items) }
    ensures left { IfOk result (λ _. vec_len seats.new + sizes.mutators ≡ vec_len seats.old) }
{
    let mut all = Vec::new(alloc);
    for _at in 0..sizes.mutators {
        let seat = first_of(seats);
        let mutator = mutator_of(heap, seat, sizes.name, sizes.in_stops)?;
        all.push(mutator)?;
    }
    Ok(all)
}

fn share(
    alloc: Global,
    heap: Heap,
    zero: HeapSeat,
    seats: &mut Vec<HeapSeat>,
    sizes: Sizes,
) -> Result<World, AllocError>
    requires fits { Fits sizes }
    requires zero { RestsOutside heap zero × IsTrue (is_some (state_of zero).section) }
    requires rests { At heap resting 0 zero }
    requires season { (view_of zero).own.seasons ≡ 1 }
    requires first { IsFirstSeat heap sizes.tracers zero }
    requires new { AreNew heap 1 seats.old.items }
    requires count { vec_len seats.old ≡ sizes.mutators + sizes.tracers }
    requires shape { heap.shape ≡ shape_for sizes }
    ensures opened { IfOk result (λ w. IsOpened sizes w) }
{
    let heap = Arc::new(alloc, heap)?;
    let mutators = deal_mutators(alloc, &heap, sizes, seats)?;
    let tracers = deal_tracers(alloc, &heap, sizes, seats)?;
    Ok(World {
        heap,
        zero,
        mutators,
        tracers,
        sizes,
    })
}

/// A world of these sizes.
pub fn open_fitting(alloc: Global, sizes: Sizes) -> Result<World, NotOpened>
    requires fits { Fits sizes }
    ensures opened { IfOk result (λ w. IsOpened sizes w) }
    ensures refused { IfErr result (λ e. e ≡ OutOfMemory) }
{
    let (heap, mut seats) = match open(alloc, &sizes) {
        Ok(made) => made,
        Err(_) => return Err(NotOpened::OutOfMemory),
    };
    let mut zero = first_of(&mut seats);
    if !open_turn(&heap, &mut zero) {
        return Err(NotOpened::OutOfMemory);
    }
    match share(alloc, heap, zero, &mut seats, sizes) {
        Ok(world) => Ok(world),
        Err(_) => Err(NotOpened::OutOfMemory),
    }
}
