ghost use Rattle.std.specs.Prelude.{◌≡◌};
ghost use Rattle.std.specs.Bool.{OnTrue};
ghost use Rattle.mark_core.specs.declared.kinds.Phase.TheVariants.{Drain, Sweep};
ghost use Rattle.gc_table.specs.Running.{Alone};
ghost use Rattle.gc_table.specs.Seats.{Sits, state_of, view_of};
ghost use Rattle.card_clean.specs.Drained.{IsBeforeSweep, IsDrained, IsRooted};
ghost use Rattle.test_heaps.specs.Seats.{MayBeginDrain};

use crate::checks::holds_nothing;
use card_clean::{is_drained, see_to_roots};
use gc_table::{Heap, HeapSeat};
use mark_core::{BLOCK_COUNTER, Phase};

/// Begins a drain.
pub fn drains(heap: &Heap, seat: &mut HeapSeat)
    requires seat { Sits heap.now seat.old }
    requires begins { MayBeginDrain (view_of seat.old) }
    ensures seat { Sits heap.now seat.new }
    ensures alone { Alone Drain (view_of seat.new) }
    ensures opened { (state_of seat.new).opened ≡ (state_of seat.old).opened }
{
    heap.store_phase(seat, Phase::Drain);
}

/// The counter of blocks begins again.
pub fn resets(heap: &Heap, seat: &mut HeapSeat)
    requires { Sits heap.now seat.old × Alone Drain (view_of seat.old) }
    ensures { Sits heap.now seat.new × IsBeforeSweep (view_of seat.new) }
{
    heap.reset(seat, BLOCK_COUNTER);
}

/// Sees to all roots, if no block was handed out.
pub fn scans_all(heap: &Heap, seat: &mut HeapSeat) -> bool
    requires { Sits heap.now seat.old × IsBeforeSweep (view_of seat.old) }
    ensures { OnTrue result (Sits heap.now seat.new × IsRooted (view_of seat.new)) }
{
    holds_nothing(seat) && see_to_roots(heap, seat)
}

/// Whether the drain ends: all roots are seen to, every card is clean, and every packet is empty.
pub fn drained(heap: &Heap, seat: &mut HeapSeat) -> bool
    requires { Sits heap.now seat.old × IsBeforeSweep (view_of seat.old) }
    ensures seat { Sits heap.now seat.new }
    ensures drained { OnTrue result (IsDrained (view_of seat.new)) }
{
    holds_nothing(seat) && see_to_roots(heap, seat) && is_drained(heap, seat)
}

/// Begins the sweep.
pub fn begins_sweep(heap: &Heap, seat: &mut HeapSeat)
    requires { Sits heap.now seat.old × IsDrained (view_of seat.old) }
    ensures alone { Sits heap.now seat.new × Alone Sweep (view_of seat.new) }
    ensures block { (state_of seat.new).block ≡ (state_of seat.old).block }
{
    heap.store_phase(seat, Phase::Sweep);
}
