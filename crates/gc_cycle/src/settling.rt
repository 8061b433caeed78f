//! The numbers for the next cycle.
ghost use Rattle.std.specs.Prelude.{◌≡◌, ◌≤◌, ◌-◌, ◌*◌, [], ◌∷◌, length, false};
ghost use Rattle.mark_core.specs.Cards.{block_cells};
ghost use Rattle.mark_core.specs.Numbers.{free_count, last_count};
ghost use Rattle.mark_core.specs.Layout.{block_count};
ghost use Rattle.mark_core.specs.declared.kinds.Phase.TheVariants.{Idle};
ghost use Rattle.mark_core.specs.declared.kinds.Step.TheVariants.{AddStat, Reset};
ghost use Rattle.gc_table.specs.Log.{Only, steps_of};
ghost use Rattle.gc_table.specs.Seats.{Across, did, Sits, view_of};
ghost use Rattle.gc_cycle.specs.Courses.{sets_numbers};
ghost use Rattle.gc_cycle.specs.Ending.{InEach, IsCycleEnd};
ghost use Rattle.gc_cycle.specs.Finishing.{AllocsNoted, IsAloneIn, IsPart, ones_noted};
ghost use Rattle.gc_cycle.specs.Settling.{Sets, alloc_reads};
ghost use Rattle.gc_cycle.specs.Statistics.{ChangesBy, leaves_numbers};

use crate::counts::Counts;
use gc_table::{Heap, HeapSeat};
use mark_core::{BLOCK_CELLS, CARD_COUNTER, FREE, LAST, RESCANNED, TRACED};

/// How many allocation bits are set before block `end`, of which `counted` were counted before `from`.
pub(crate) fn count_between(
    heap: &Heap,
    seat: &mut HeapSeat,
    from: u32,
    end: u32,
    counted: u32,
) -> u32
    requires seat { Sits heap.now seat.old }
    requires alone { IsAloneIn Idle (view_of seat.old) }
    requires blocks { (from ≤ end) × (end ≤ block_count heap.now.shape) }
    requires noted { AllocsNoted from (view_of seat.old) }
    requires count { counted ≡ ones_noted from (view_of seat.old) }
    requires bound { counted ≤ block_cells * from }
    ensures seat { Sits heap.now seat.new }
    ensures part { Across (IsPart Idle) seat.old seat.new }
    ensures numbers { Across (Only leaves_numbers) seat.old seat.new }
    ensures noted { AllocsNoted end (view_of seat.new) }
    ensures count { result ≡ ones_noted end (view_of seat.new) }
    ensures bound { result ≤ block_cells * end }
    ensures reads { steps_of (did seat.old seat.new) ≡ alloc_reads from (end - from) }
{
    let mut published = counted;
    for b in from..end {
        published += heap.read_alloc(seat, b).count_ones();
    }
    published
}

fn count_published(heap: &Heap, seat: &mut HeapSeat) -> u32
    requires seat { Sits heap.now seat.old }
    requires alone { IsAloneIn Idle (view_of seat.old) }
    ensures seat { Sits heap.now seat.new }
    ensures part { Across (IsPart Idle) seat.old seat.new }
    ensures noted { AllocsNoted (block_count heap.now.shape) (view_of seat.new) }
    ensures count { result ≡ ones_noted (block_count heap.now.shape) (view_of seat.new) }
    ensures bound { result ≤ heap.now.shape.cells }
{
    let end = heap.shape().cells / BLOCK_CELLS;
    count_between(heap, seat, 0, end, 0)
}

fn set_statistic(heap: &Heap, seat: &mut HeapSeat, which: u8, number: u32)
    requires seat { Sits heap.now seat.old }
    requires alone { IsAloneIn Idle (view_of seat.old) }
    requires which { (last_count ≤ which) × (which ≤ free_count) }
    ensures seat { Sits heap.now seat.new }
    ensures sets { Across (Sets which number) seat.old seat.new }
    ensures numbers { Across (ChangesBy (Reset which ∷ AddStat which number false ∷ [])) seat.old seat.new }
    ensures few { length (did seat.old seat.new) ≤ 2 }
{
    heap.reset(seat, which);
    heap.add_stat(seat, which, number, false);
}

pub(crate) fn set_numbers(
    heap: &Heap,
    seat: &mut HeapSeat,
    marked: u32,
    rescanned: u32,
    freed: u32,
) -> Counts
    requires seat { Sits heap.now seat.old }
    requires alone { IsAloneIn Idle (view_of seat.old) }
    requires noted { AllocsNoted (block_count heap.now.shape) (view_of seat.old) }
    requires count { marked ≡ ones_noted (block_count heap.now.shape) (view_of seat.old) }
    requires bound { marked ≤ heap.now.shape.cells }
    ensures seat { Sits heap.now seat.new }
    ensures part { Across (IsPart Idle) seat.old seat.new }
    ensures numbers { Across (ChangesBy (sets_numbers heap.now.shape result)) seat.old seat.new }
    ensures counts { result ≡ record { marked = marked; freed = freed; rescanned = rescanned } }
    ensures end { InEach (IsCycleEnd result) (view_of seat.new) }
    ensures few { length (did seat.old seat.new) ≤ 8 }
{
    let free = heap.shape().cells - marked;
    set_statistic(heap, seat, LAST, marked);
    set_statistic(heap, seat, RESCANNED, rescanned);
    set_statistic(heap, seat, FREE, free);
    heap.reset(seat, TRACED);
    heap.reset(seat, CARD_COUNTER);
    Counts {
        marked,
        freed,
        rescanned,
    }
}

pub(crate) fn settle(heap: &Heap, seat: &mut HeapSeat, rescanned: u32, freed: u32) -> Counts
    requires seat { Sits heap.now seat.old }
    requires alone { IsAloneIn Idle (view_of seat.old) }
    ensures seat { Sits heap.now seat.new }
    ensures part { Across (IsPart Idle) seat.old seat.new }
    ensures counts { (result.rescanned ≡ rescanned) × (result.freed ≡ freed) }
    ensures end { InEach (IsCycleEnd result) (view_of seat.new) }
{
    let marked = count_published(heap, seat);
    set_numbers(heap, seat, marked, rescanned, freed)
}
