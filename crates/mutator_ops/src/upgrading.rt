//! Objects to which nothing need lead, by cell and identity: weak references, in a heap whose objects are shared.
ghost use Rattle.std.specs.Prelude.{◌<◌};
ghost use Rattle.mark_core.specs.Numbers.{section_variables};
ghost use Rattle.gc_table.specs.Seats.{Across, Sits, view_of};
ghost use Rattle.mutator_ops.specs.Sharing.{SharesReady};
ghost use Rattle.mutator_ops.specs.Upgrading.{Upgrades};

use gc_table::{Heap, HeapSeat};
use mark_core::Cell;

/// Variable v becomes the object of this identity if it is still in cell c, and then it is kept: true. Else v is nil.
/// Until the next safe point nothing is freed, so what is found stays until the variable has it.
pub fn share_upgrade(heap: &Heap, seat: &mut HeapSeat, v: u8, c: Cell, identity: u64) -> bool
    requires seat { Sits heap.now seat.old × SharesReady (view_of seat.old) }
    requires range { (v < section_variables) × (c < heap.now.shape.cells) }
    ensures seat { Sits heap.now seat.new × SharesReady (view_of seat.new) }
    ensures upgrades { Across (Upgrades v c identity result) seat.old seat.new }
{
    heap.read_weak(seat, c);
    let reference = seat.state().got;
    if reference == 0 {
        heap.hold_root(seat, v, 0);
        return false;
    }
    if heap.read_ident(seat, c) == identity {
        heap.hold_root(seat, v, u64::from(reference));
        true
    } else {
        heap.hold_root(seat, v, 0);
        false
    }
}
