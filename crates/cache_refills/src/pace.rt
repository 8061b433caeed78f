//! The numbers that pace a cycle, and its beginning.
ghost use Rattle.std.specs.Prelude.{◌≡◌, ◌≤◌, ◌+◌, ◌∷◌, [], length, Some, IsTrue};
ghost use Rattle.mark_core.specs.Numbers.{free_count, last_count};
ghost use Rattle.mark_core.specs.declared.kinds.Step.TheVariants.{ReadStat};
ghost use Rattle.gc_table.specs.Seats.{Across, Answered, did, Sits, state_of};
ghost use Rattle.gc_table.specs.Log.{Only};
ghost use Rattle.gc_table.specs.Running.{Ran};
ghost use Rattle.packet_pools.specs.Counts.{count_of};
ghost use Rattle.cache_refills.specs.Pace.Pacing.{KicksOff, begins_where_due, kicks, late, late_seen, most_told, statistic as statistic_of, tries_marking};
ghost use Rattle.cache_refills.specs.Pace.Payment.{reads_number};

use gc_table::{Heap, HeapSeat};
use mark_core::{FREE, LAST, Phase, RESCANNED, TRACED};

/// The cells of the largest heap.
const MOST_TOLD: u64 = 16_777_216;

/// A word from here on fell below 0.
const BELOW_ZERO: u64 = 1 << 63;

fn statistic(word: u64) -> u32
    ensures value { result ≡ statistic_of word }
    ensures bound { result ≤ most_told }
{
    if word >= BELOW_ZERO {
        return 0;
    }
    word.min(MOST_TOLD) as u32
}

/// A statistic from `LAST` to `FREE`, bounded; 0 if its word fell below 0.
pub(crate) fn read_statistic(heap: &Heap, seat: &mut HeapSeat, which: u8) -> u32
    requires seat { Sits heap.now seat.old }
    requires which { (last_count ≤ which) × (which ≤ free_count) }
    ensures seat { Sits heap.now seat.new }
    ensures ran { Across Ran seat.old seat.new }
    ensures read { Across (Answered (ReadStat which) (λ n. result ≡ statistic_of n)) seat.old seat.new }
    ensures state { state_of seat.new ≡ state_of seat.old }
    ensures bound { result ≤ most_told }
{
    statistic(heap.read_stat(seat, which))
}

/// Seven eighths of what the last cycle traced are traced, or hardly a cell is free.
pub(crate) fn is_late(last: u32, traced: u32, free: u32) -> bool
    ensures { result ≡ late last traced free }
{
    7 * u64::from(last) <= 8 * u64::from(traced) || 64 * u64::from(free) <= u64::from(last)
}

/// Whether the cycle under way is far on. Only then the late pass is worth it: a card cleaned earlier is dirtied
/// again, and the stop cleans it.
pub fn is_far_on(heap: &Heap, seat: &mut HeapSeat) -> bool
    requires seat { Sits heap.now seat.old }
    ensures seat { Sits heap.now seat.new }
    ensures ran { Across Ran seat.old seat.new }
    ensures only { Across (Only reads_number) seat.old seat.new }
    ensures state { state_of seat.new ≡ state_of seat.old }
    ensures late { late_seen (did seat.old seat.new) ≡ Some result }
    ensures few { length (did seat.old seat.new) ≤ 3 }
{
    let last = read_statistic(heap, seat, LAST);
    let traced = read_statistic(heap, seat, TRACED);
    let free = read_statistic(heap, seat, FREE);
    is_late(last, traced, free)
}

/// It wakes nobody, as a thread of a C program can't.
pub(crate) fn begin_due(heap: &Heap, seat: &mut HeapSeat) -> bool
    requires seat { Sits heap.now seat.old }
    requires active { IsTrue (state_of seat.old).active }
    ensures seat { Sits heap.now seat.new }
    ensures ran { Across Ran seat.old seat.new }
    ensures begins { KicksOff result (did seat.old seat.new) }
    ensures due { IsTrue (begins_where_due (did seat.old seat.new)) }
    ensures state { state_of seat.new ≡ state_of seat.old }
    ensures only { Across (Only kicks) seat.old seat.new }
    ensures reads { length (did seat.old seat.new) ≤ 3 + count_of tries_marking (did seat.old seat.new) }
    ensures few { length (did seat.old seat.new) ≤ 4 }
{
    let last = read_statistic(heap, seat, LAST);
    let rescanned = read_statistic(heap, seat, RESCANNED);
    let free = read_statistic(heap, seat, FREE);
    if 8 * free >= last + rescanned {
        return false;
    }
    heap.store_phase(seat, Phase::Marking)
}

/// Begins a cycle if one is due: if fewer cells are free than an eighth of the work of the last one. It wakes the
/// tracers that rest.
pub fn kick_off(heap: &Heap, seat: &mut HeapSeat) -> bool
    requires seat { Sits heap.now seat.old }
    requires active { IsTrue (state_of seat.old).active }
    ensures seat { Sits heap.now seat.new }
    ensures ran { Across Ran seat.old seat.new }
    ensures begins { KicksOff result (did seat.old seat.new) }
    ensures due { IsTrue (begins_where_due (did seat.old seat.new)) }
    ensures state { state_of seat.new ≡ state_of seat.old }
    ensures only { Across (Only kicks) seat.old seat.new }
    ensures reads { length (did seat.old seat.new) ≤ 3 + count_of tries_marking (did seat.old seat.new) }
{
    if begin_due(heap, seat) {
        heap.wake_resting();
        return true;
    }
    false
}
