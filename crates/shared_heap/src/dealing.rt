//! The seats of a new heap are dealt out, and a shared world is made of it.
ghost use Rattle.std.specs.Arc.{arc_value};
ghost use Rattle.std.specs.Prelude.{ℕ, ◌≡◌, ◌+◌, ◌<◌, ◌≤◌, IfErr, IfOk, IsTrue, vec_len};
ghost use Rattle.gc_table.specs.Seats.{view_of};
ghost use Rattle.seat_turns.specs.Standing.{RestsOutside};
ghost use Rattle.seat_turns.specs.declared.refused.NotOpened.TheVariants.{OutOfMemory};
ghost use Rattle.shared_heap.specs.Lending.{AreFresh, IsFreshSharer, IsSharedOpened, shared_shape_for};
ghost use Rattle.shared_heap.specs.Opening.{AreNew, IsNewSeat};
ghost use Rattle.shared_heap.specs.Rooting.{HasSeats, IsRootSeat};
ghost use Rattle.managed_heap.specs.Sizing.{Fits};

use crate::mutator::{Place, SharedMutator};
use crate::opening::{open, open_turn};
use crate::world::SharedWorld;
use gc_table::{Heap, HeapSeat};
use managed_heap::{Sizes, deal_tracers, first_of};
use seat_turns::NotOpened;
use std::alloc::{AllocError, Global};
use std::sync::Arc;

fn mutator_of(
    heap: &Arc<Heap, Global>,
    seat: HeapSeat,
    name: u32,
) -> Result<SharedMutator, AllocError>
    ghost k: { ℕ }
    requires seat { IsNewSeat (arc_value heap.now) k seat }
    requires section { (0 < k) × (k < (arc_value heap.now).shape.sections) }
    requires shared { IsTrue (arc_value heap.now).shape.sharing }
    ensures fresh { IfOk result (IsFreshSharer (arc_value heap.now) name k) }
{
    Ok(SharedMutator {
        heap: Arc::try_clone(heap)?,
        seat,
        place: Place::Outside,
        name,
    })
}

fn deal_mutators(
    alloc: Global,
    heap: &Arc<Heap, Global>,
    sizes: Sizes,
    seats: &mut Vec<HeapSeat>,
) -> Result<Vec<SharedMutator>, AllocError>
    requires new { AreNew (arc_value heap.now) 1 seats.old.items }
    requires enough { sizes.mutators ≤ vec_len seats.old }
    requires sections { (arc_value heap.now).shape.sections ≡ 1 + sizes.mutators }
    requires shared { IsTrue (arc_value heap.now).shape.sharing }
    ensures fresh { IfOk result (λ r. AreFresh (arc_value heap.now) sizes.name 1 r.items) }
    ensures count { IfOk result (λ r. vec_len r ≡ sizes.mutators) }
    ensures rest { IfOk result (λ _. AreNew (arc_value heap.now) (1 + sizes.mutators) seats.new.items) }
    ensures left { IfOk result (λ _. vec_len seats.new + sizes.mutators ≡ vec_len seats.old) }
{
    let mut all = Vec::new(alloc);
    for _at in 0..sizes.mutators {
        let seat = first_of(seats);
        let mutator = mutator_of(heap, seat, sizes.name)?;
        all.push(mutator)?;
    }
    Ok(all)
}

fn share(
    alloc: Global,
    heap: Heap,
    zero: HeapSeat,
    seats: &mut Vec<HeapSeat>,
    sizes: Sizes,
) -> Result<SharedWorld, AllocError>
    requires fits { Fits sizes }
    requires zero { RestsOutside heap zero × IsRootSeat heap zero }
    requires season { (view_of zero).own.seasons ≡ 1 }
    requires opened { HasSeats heap sizes.tracers zero }
    requires new { AreNew heap 1 seats.old.items }
    requires count { vec_len seats.old ≡ sizes.mutators + sizes.tracers }
    requires shape { heap.shape ≡ shared_shape_for sizes }
    ensures opened { IfOk result (λ w. IsSharedOpened sizes w) }
{
    let heap = Arc::new(alloc, heap)?;
    let mutators = deal_mutators(alloc, &heap, sizes, seats)?;
    let tracers = deal_tracers(alloc, &heap, sizes, seats)?;
    Ok(SharedWorld {
        heap,
        zero,
        mutators,
        tracers,
        sizes,
    })
}

/// A world of these sizes.
pub fn open_fitting(alloc: Global, sizes: Sizes) -> Result<SharedWorld, NotOpened>
    requires fits { Fits sizes }
    ensures opened { IfOk result (λ w. IsSharedOpened sizes w) }
    ensures refused { IfErr result (λ e. e ≡ OutOfMemory) }
{
    let (heap, mut seats) = match open(alloc, &sizes) {
        Ok(made) => made,
        Err(_) => return Err(NotOpened::OutOfMemory),
    };
    let mut zero = first_of(&mut seats);
    if !open_turn(&heap, &mut zero) {
        return Err(NotOpened::OutOfMemory);
    }
    match share(alloc, heap, zero, &mut seats, sizes) {
        Ok(world) => Ok(world),
        Err(_) => Err(NotOpened::OutOfMemory),
    }
}
