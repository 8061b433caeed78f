//! The variables whose roots lag are stored.
ghost use Rattle.std.specs.Prelude.{◌<◌, IsTrue};
ghost use Rattle.mark_core.specs.Numbers.{section_variables};
ghost use Rattle.mark_core.specs.Seats.{may_mutate};
ghost use Rattle.gc_table.specs.Seats.{Across, Sits, state_of};
ghost use Rattle.mutator_ops.specs.Flushing.{Flushes, FlushesOne, word_of_variables};

use gc_table::{Heap, HeapSeat};
use mark_core::{VARIABLES, has_bit};

/// Stores variable v in its root, if that lags.
fn flush_lagging(heap: &Heap, seat: &mut HeapSeat, v: u8)
    requires seat { Sits heap.now seat.old }
    requires turn { IsTrue (may_mutate (state_of seat.old)) }
    requires range { v < section_variables }
    ensures seat { Sits heap.now seat.new }
    ensures flushes { Across (FlushesOne v) seat.old seat.new }
{
    if has_bit(seat.state().lags, u32::from(v)) {
        heap.flush_root(seat, v);
    }
}

/// Stores each variable whose root lags in its root, in their order. Afterwards none lags, and else nothing is changed.
/// Where none lags, no bit is looked at.
pub fn flush_roots(heap: &Heap, seat: &mut HeapSeat)
    requires seat { Sits heap.now seat.old }
    requires turn { IsTrue (may_mutate (state_of seat.old)) }
    requires few { (state_of seat.old).lags < word_of_variables }
    ensures seat { Sits heap.now seat.new }
    ensures flushes { Across Flushes seat.old seat.new }
{
    if seat.state().lags == 0 {
        return;
    }
    for v in 0..VARIABLES {
        flush_lagging(heap, seat, v);
    }
}
