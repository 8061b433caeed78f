//! A seat that waits helps the stop of another.
ghost use Rattle.std.specs.Prelude.{◌≡◌, ◌≢◌, ◌≤◌, Some, IsTrue};
ghost use Rattle.std.specs.Bool.{OnFalse, OnTrue};
ghost use Rattle.mark_core.specs.declared.kinds.Phase.TheVariants.{Drain, Sweep};
ghost use Rattle.gc_table.specs.Seats.{Across, did, Sits, state_of, view_of};
ghost use Rattle.gc_table.specs.Log.{Only};
ghost use Rattle.gc_table.specs.Running.{Ran};
ghost use Rattle.gc_cycle.specs.Cycles.{never_fills};
ghost use Rattle.gc_cycle.specs.Draining.{EndsAs, HelpsOn, SweepsOn, end_as};
ghost use Rattle.gc_cycle.specs.declared.counts.HelpEnd.TheVariants.{NoWork};
ghost use Rattle.gc_table.specs.declared.view.View.{View};
ghost use Rattle.gc_cycle.specs.Events.{never};
ghost use Rattle.gc_cycle.specs.Helping.{HelpsAs, PassesAll, PassesFirst};
ghost use Rattle.gc_cycle.specs.Mutating.{stays_calm};
ghost use Rattle.gc_cycle.specs.Sorts.{joins, leaves, passes_card};
ghost use Rattle.gc_cycle.specs.Standing.{Helps, KeepsSeat};
ghost use Rattle.gc_cycle.specs.Statistics.{leaves_numbers};

use crate::blocks::sweep_next;
use crate::cards::clean_dirty_round;
use crate::counts::{HelpEnd, Helped};
use crate::tracing::{lacks_work, sees_all_empty, trace};
use gc_table::{Heap, HeapSeat};
use mark_core::Phase;
use std::thread;
use tracer::Stopped;

/// Helps another seat's stop: traces at most `quota` objects in a drain, or sweeps until no block is left. It draws and
/// cleans no card.
pub fn help(heap: &Heap, seat: &mut HeapSeat, quota: u32) -> Helped
    requires seat { Sits heap.now seat.old × Helps (view_of seat.old) }
    ensures seat { Sits heap.now seat.new × Helps (view_of seat.new) }
    ensures ran { Across Ran seat.old seat.new }
    ensures helps { HelpsAs quota result (view_of seat.old) (did seat.old seat.new) }
    ensures unpassed { IsTrue (never passes_card (did seat.old seat.new)) }
    ensures not_full { IsTrue (never_fills (did seat.old seat.new)) }
    ensures only { Across (Only stays_calm) seat.old seat.new }
    ensures numbers { Across (Only leaves_numbers) seat.old seat.new }
    ensures inside { IsTrue (never leaves (did seat.old seat.new)) }
    ensures stays { IsTrue (never joins (did seat.old seat.new)) }
    ensures phase { (state_of seat.new).phase_seen ≡ (state_of seat.old).phase_seen }
    ensures keeps { Across KeepsSeat seat.old seat.new }
    ensures own { (view_of seat.new).own ≡ (view_of seat.old).own }
{
    help_with(heap, seat, quota, false)
}

/// In a drain it passes all cards first if `cards` says so.
///
/// It ends by itself: the counter of blocks never falls while the seat is admitted.
pub(crate) fn help_with(heap: &Heap, seat: &mut HeapSeat, quota: u32, cards: bool) -> Helped
    requires seat { Sits heap.now seat.old × Helps (view_of seat.old) }
    ensures seat { Sits heap.now seat.new × Helps (view_of seat.new) }
    ensures ran { Across Ran seat.old seat.new }
    ensures helps { HelpsAs quota result (view_of seat.old) (did seat.old seat.new) }
    ensures passes { Across (PassesFirst cards) seat.old seat.new }
    ensures not_full { IsTrue (never_fills (did seat.old seat.new)) }
    ensures only { Across (Only stays_calm) seat.old seat.new }
    ensures numbers { Across (Only leaves_numbers) seat.old seat.new }
    ensures inside { IsTrue (never leaves (did seat.old seat.new)) }
    ensures stays { IsTrue (never joins (did seat.old seat.new)) }
    ensures phase { (state_of seat.new).phase_seen ≡ (state_of seat.old).phase_seen }
    ensures keeps { Across KeepsSeat seat.old seat.new }
    ensures own { (view_of seat.new).own ≡ (view_of seat.old).own }
{
    if sees_sweep(seat) {
        return help_sweep(heap, seat);
    }
    if cards {
        return help_anew(heap, seat, quota);
    }
    help_drain(heap, seat, quota)
}

fn sees_sweep(seat: &HeapSeat) -> bool
    ensures sweep { OnTrue result ((state_of seat.now).phase_seen ≡ Some Sweep) }
    ensures other { OnFalse result ((state_of seat.now).phase_seen ≢ Some Sweep) }
{
    match seat.state().phase_seen {
        Some(Phase::Sweep) => true,
        _ => false,
    }
}

fn help_sweep(heap: &Heap, seat: &mut HeapSeat) -> Helped
    requires seat { Sits heap.now seat.old × Helps (view_of seat.old) }
    requires sweep { (state_of seat.old).phase_seen ≡ Some Sweep }
    ensures seat { Sits heap.now seat.new }
    ensures swept { Across (SweepsOn result) seat.old seat.new }
{
    let mut swept = 0;
    while let Some(_) = sweep_next(heap, seat) {
        swept += 1;
    }
    Helped {
        traced: 0,
        rescanned: 0,
        swept,
        ended: HelpEnd::Swept,
    }
}

fn trace_on(heap: &Heap, seat: &mut HeapSeat, quota: u32, before: Helped) -> Helped
    requires seat { Sits heap.now seat.old × Helps (view_of seat.old) }
    requires drain { (state_of seat.old).phase_seen ≡ Some Drain }
    requires quota { (before.traced ≤ quota) × (before.traced ≢ quota) }
    requires ended { before.ended ≡ NoWork }
    ensures seat { Sits heap.now seat.new }
    ensures ran { Across Ran seat.old seat.new }
    ensures none { result.rescanned ≡ before.rescanned }
    ensures unpassed { IsTrue (never passes_card (did seat.old seat.new)) }
    ensures helps { (u : View) → HelpsOn quota before u (view_of seat.old) → HelpsOn quota result u (view_of seat.new) }
{
    if lacks_work(heap, seat) {
        thread::yield_now();
        return before;
    }
    let more = trace(heap, seat, quota - before.traced);
    Helped {
        traced: before.traced + more.done,
        rescanned: before.rescanned,
        swept: before.swept,
        ended: end_of(more.stopped),
    }
}

/// How often a helper without work looks whether others give it some.
const LOOKS: u32 = 64;

fn help_drain(heap: &Heap, seat: &mut HeapSeat, quota: u32) -> Helped
    requires seat { Sits heap.now seat.old × Helps (view_of seat.old) }
    requires drain { (state_of seat.old).phase_seen ≡ Some Drain }
    ensures seat { Sits heap.now seat.new }
    ensures helps { Across (HelpsOn quota result) seat.old seat.new }
    ensures none { result.rescanned ≡ 0 }
    ensures unpassed { IsTrue (never passes_card (did seat.old seat.new)) }
    ensures ends { Across (EndsAs result) seat.old seat.new }
{
    let first = trace(heap, seat, quota);
    let mut helped = Helped {
        traced: first.done,
        rescanned: 0,
        swept: 0,
        ended: end_of(first.stopped),
    };
    for look in 0..LOOKS {
        let HelpEnd::NoWork = helped.ended else {
            return helped;
        };
        if sees_all_empty(heap, seat) {
            return helped;
        }
        helped = trace_on(heap, seat, quota, helped);
    }
    helped
}

fn help_anew(heap: &Heap, seat: &mut HeapSeat, quota: u32) -> Helped
    requires seat { Sits heap.now seat.old × Helps (view_of seat.old) }
    requires drain { (state_of seat.old).phase_seen ≡ Some Drain }
    ensures seat { Sits heap.now seat.new }
    ensures helps { Across (HelpsOn quota result) seat.old seat.new }
    ensures passes { Across PassesAll seat.old seat.new }
    ensures ends { Across (EndsAs result) seat.old seat.new }
{
    let rescanned = clean_dirty_round(heap, seat);
    let helped = help_drain(heap, seat, quota);
    Helped {
        traced: helped.traced,
        rescanned,
        swept: helped.swept,
        ended: helped.ended,
    }
}

fn end_of(stopped: Stopped) -> HelpEnd
    ensures { result ≡ end_as stopped }
{
    match stopped {
        Stopped::Quota => HelpEnd::Quota,
        Stopped::NoWork => HelpEnd::NoWork,
        Stopped::NoPacket => HelpEnd::NoPacket,
    }
}
