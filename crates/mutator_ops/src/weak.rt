//! Weak references are taken, in a heap whose objects are shared.
ghost use Rattle.std.specs.Prelude.{◌≡◌, ◌<◌, IfNone, IfSome, false};
ghost use Rattle.mark_core.specs.Numbers.{section_variables};
ghost use Rattle.mark_core.specs.Seats.{used_in as used_in_cache};
ghost use Rattle.mark_core.specs.Steps.MutatorSteps.{seat_variable as word_in};
ghost use Rattle.gc_table.specs.Seats.{Across, Sits, state_of, view_of};
ghost use Rattle.mutator_ops.specs.Few.{AtMost};
ghost use Rattle.mutator_ops.specs.Sharing.{SharesReady};
ghost use Rattle.mutator_ops.specs.Weak.{FindsUnpublished, PublishesOwn, TakesWeak};

use crate::variables::word_of;
use gc_table::{Heap, HeapSeat};
use mark_core::{Cell, used_in};

/// Publishes what the seat made, if cell c is of it.
fn publish_own(heap: &Heap, seat: &mut HeapSeat, c: Cell)
    requires seat { Sits heap.now seat.old × SharesReady (view_of seat.old) }
    ensures seat { Sits heap.now seat.new × SharesReady (view_of seat.new) }
    ensures publishes { Across (PublishesOwn c) seat.old seat.new }
    ensures none { used_in_cache (state_of seat.new).cache c ≡ false }
{
    if used_in(seat.state().cache, c) {
        heap.publish_cells(seat);
    }
}

/// The identity of variable v's object, which isn't nil, if the object is published: from then on its death can be told.
/// What the seat made itself it publishes first. None if another seat made the object and hasn't published it yet.
pub fn share_weak(heap: &Heap, seat: &mut HeapSeat, v: u8) -> Option<u64>
    requires seat { Sits heap.now seat.old × SharesReady (view_of seat.old) }
    requires range { v < section_variables }
    requires some { 0 < word_in (state_of seat.old) v }
    ensures seat { Sits heap.now seat.new × SharesReady (view_of seat.new) }
    ensures takes { IfSome result (λ id. Across (TakesWeak v id) seat.old seat.new) }
    ensures none { IfNone result (Across (FindsUnpublished v) seat.old seat.new) }
    ensures few { Across (AtMost 4) seat.old seat.new }
{
    let word = word_of(seat, v);
    let cell = Cell::make(word - 1);
    publish_own(heap, seat, cell);
    heap.read_weak(seat, cell);
    let reference = seat.state().got;
    if reference == 0 {
        return None;
    }
    let identity = heap.read_ident(seat, cell);
    heap.hold_root(seat, v, u64::from(reference));
    Some(identity)
}
