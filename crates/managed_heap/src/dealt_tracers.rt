//! Seats of a new heap are dealt out to tracers.
ghost use Rattle.std.specs.Prelude.{◌≡◌, ◌+◌, ◌≤◌, List, IfOk, vec_len};
ghost use Rattle.std.specs.Arc.{arc_value};
ghost use Rattle.plain_heap.specs.declared.operation.Op.{Op};
ghost use Rattle.managed_heap.specs.WorldOpening.{AreNewOf, AreNumbered, IsFreshTracer};

use crate::sizes::Sizes;
use crate::taking::first_of;
use gc_table::{Heap, HeapSeat};
use seat_turns::Tracer;
use std::alloc::{AllocError, Global};
use std::sync::Arc;

/// Deals the next seats, which come after those of the mutators, out to tracers.
pub fn deal_tracers(
    alloc: Global,
    heap: &Arc<Heap, Global>,
    sizes: Sizes,
    seats: &mut Vec<HeapSeat>,
) -> Result<Vec<Tracer>, AllocError>
    ghost plan: { List (List Op) }
    requires new { AreNewOf plan (arc_value heap.now) (1 + sizes.mutators) seats.old.items }
    requires enough { sizes.tracers ≤ vec_len seats.old }
    ensures fresh { IfOk result (λ r. AreNumbered (IsFreshTracer plan (arc_value heap.now) sizes.name) (1 + sizes.mutators) r.items) }
    ensures count { IfOk result (λ r. vec_len r ≡ sizes.tracers) }
{
    let mut all = Vec::new(alloc);
    for _at in 0..sizes.tracers {
        let seat = first_of(seats);
        let held = Arc::try_clone(heap)?;
        all.push(Tracer::of_seat(held, seat, sizes.name))?;
    }
    Ok(all)
}
