//! What a mutator pays for its cache while a cycle is marking.
//!
//! Its quota of objects is larger the fewer cells are free, so marking keeps pace with allocation: Barabash and
//! others, *A parallel, incremental, mostly concurrent garbage collector for servers*, 2005.
//!
//! A mutator outside the world pays nothing. So that its roots aren't left to the stop, each payment scans those of
//! one more section, another at nearly each claim. What that section's mutator stores later it scans itself.
//!
//! If a payment finds nothing to trace, and the cycle is far on, it cleans cards, which fills packets again. A card
//! that is dirtied again is left to late payments and the stop.
ghost use Rattle.std.specs.Prelude.{◌≡◌, ◌<◌, ◌≤◌, ◌+◌, Some, IfSome, IfNone, IsTrue, ◌-◌, ◌*◌, ◌%◌, length};
ghost use Rattle.mark_core.specs.Cards.{block_cells};
ghost use Rattle.mark_core.specs.declared.kinds.Phase.TheVariants.{Marking};
ghost use Rattle.gc_table.specs.Log.{Only};
ghost use Rattle.gc_table.specs.PlainSteps.{own_section};
ghost use Rattle.gc_table.specs.Running.{Ran};
ghost use Rattle.gc_table.specs.Seats.{Across, did, Sits, state_of, view_of};
ghost use Rattle.packet_pools.specs.Counts.{count_of};
ghost use Rattle.cache_refills.specs.Pace.Deferring.{RecyclesLast, TracesApart, TracesThenRecycles};
ghost use Rattle.cache_refills.specs.Pace.Early.{HasPassed, PassesNext, early_seen};
ghost use Rattle.cache_refills.specs.Pace.Payment.{HasPaid, MarksAndTraces, TracesNone, TracesOn, reads_number, stop_of};
ghost use Rattle.cache_refills.specs.Pace.Pacing.{card_looks, looks_by, looks_seen, owed_seen};
ghost use Rattle.gc_cycle.specs.CardLooks.{looks_at_card};
ghost use Rattle.gc_cycle.specs.Events.{never};
ghost use Rattle.gc_cycle.specs.Sorts.{reads_counter};
ghost use Rattle.gc_cycle.specs.Standing.{Mutates};
ghost use Rattle.gc_cycle.specs.Turns.{SeesToRoots};
ghost use Rattle.cache_refills.specs.Pace.Others.{SeesToNext, turn_seen};
ghost use Rattle.tracer.specs.StepBounds.{section_steps, trace_steps};
ghost use Rattle.card_clean.specs.StepBounds.{clean_next_steps, next_steps};
ghost use Rattle.cache_refills.specs.Pace.StepBounds.{early_steps, payment_rounds, payment_steps, quota_steps, round_steps};

use crate::early::{early_end, pass_early};
use crate::pace::{is_late, read_statistic};
use crate::quota::{floor_of, quota_of};
use gc_cycle::{Paid, clean_next, recycle_deferred, scan_roots, trace};
use gc_table::{Heap, HeapSeat};
use mark_core::{BLOCK_CELLS, FREE, LAST, RESCANNED, TRACED};
use tracer::{RootScan, Stopped};

/// How many cards a payment looks at, at most. A look takes three steps, since late in a cycle most cards are clean;
/// so this takes about as long as a quota.
const CARD_LOOKS: u32 = 1_024;

/// How often a payment cleans cards with a packet and then traces what was found, at most.
const ROUNDS: u32 = 8;

#[derive(Clone, Copy)]
struct Owed {
    /// How many objects it traces, if it finds as many.
    objects: u32,
    /// How many cards it looks at, at most.
    looks: u32,
    /// The cards that it passes before it traces: from this one to `end`.
    from: u32,
    end: u32,
    /// Whose roots it scans too: a section's number, modulo how many there are.
    turn: u32,
}

/// Pays for a cache of `cells` free cells, at most 64, by the numbers read now.
///
/// It is to trace its quota, or the floor where that is more. `stopped` is Quota exactly if it traced as many. NoWork: once its roots were read, no packet to read from was
/// found with nothing left in hand. NoPacket: none with room was found. If no packet could be taken at all, nothing
/// was marked.
pub(crate) fn pay(heap: &Heap, seat: &mut HeapSeat, cells: u32) -> Paid
    requires seat { Sits heap.now seat.old × Mutates (view_of seat.old) }
    requires marking { (state_of seat.old).phase_seen ≡ Some Marking }
    requires cells { cells ≤ block_cells }
    ensures seat { Sits heap.now seat.new }
    ensures paid { Across (HasPaid cells result) seat.old seat.new }
    ensures passes { Across (PassesNext heap.now.shape cells) seat.old seat.new }
    ensures others { Across (SeesToNext heap.now.shape) seat.old seat.new }
    ensures defers { Across (RecyclesLast heap.now.shape result) seat.old seat.new }
    ensures own { (view_of seat.new).own ≡ (view_of seat.old).own }
    ensures few { length (did seat.old seat.new) ≤ payment_steps result.done card_looks heap.now.shape }
{
    let owed = owed_now(heap, seat, cells);
    let paid = mark_and_trace(heap, seat, owed);
    heap.add_stat(seat, TRACED, paid.done, false);
    paid
}

fn looks_of(late: bool) -> u32
    ensures { result ≡ looks_by (Some late) }
{
    if late { CARD_LOOKS } else { 0 }
}

fn owed_now(heap: &Heap, seat: &mut HeapSeat, cells: u32) -> Owed
    requires seat { Sits heap.now seat.old }
    requires cells { cells ≤ block_cells }
    ensures seat { Sits heap.now seat.new }
    ensures ran { Across Ran seat.old seat.new }
    ensures only { Across (Only reads_number) seat.old seat.new }
    ensures uncounted { IsTrue (never reads_counter (did seat.old seat.new)) }
    ensures state { state_of seat.new ≡ state_of seat.old }
    ensures owed { owed_seen cells (did seat.old seat.new) ≡ Some result.objects }
    ensures most { result.objects ≤ 1024 }
    ensures looks { looks_seen (did seat.old seat.new) ≡ result.looks }
    ensures fewer { result.looks ≤ card_looks }
    ensures end { early_seen (did seat.old seat.new) ≡ result.end }
    ensures from { result.from ≡ result.end - 16 * cells }
    ensures turn { turn_seen (did seat.old seat.new) ≡ result.turn }
    ensures few { length (did seat.old seat.new) ≤ 4 }
{
    let last = read_statistic(heap, seat, LAST);
    let rescanned = read_statistic(heap, seat, RESCANNED);
    let traced = read_statistic(heap, seat, TRACED);
    let free = read_statistic(heap, seat, FREE);
    let late = is_late(last, traced, free);
    let end = early_end(late, last, rescanned, free);
    Owed {
        objects: quota_of(cells, last, rescanned, traced, free).max(floor_of(cells, last, free)),
        looks: looks_of(late),
        from: end.saturating_sub(16 * cells),
        end,
        turn: free / BLOCK_CELLS,
    }
}

fn mark_and_trace(heap: &Heap, seat: &mut HeapSeat, owed: Owed) -> Paid
    requires seat { Sits heap.now seat.old × Mutates (view_of seat.old) }
    requires marking { (state_of seat.old).phase_seen ≡ Some Marking }
    requires most { owed.end ≤ owed.from + card_looks }
    ensures seat { Sits heap.now seat.new }
    ensures pays { Across (MarksAndTraces (own_section (state_of seat.old)) owed.objects owed.looks result) seat.old seat.new }
    ensures passes { Across (HasPassed heap.now.shape owed.from owed.end owed.looks) seat.old seat.new }
    ensures other { Across (SeesToRoots (owed.turn % heap.now.shape.sections)) seat.old seat.new }
    ensures recycles { Across (TracesThenRecycles heap.now.shape result.stopped) seat.old seat.new }
    ensures few { length (did seat.old seat.new) ≤ 2 * section_steps heap.now.shape + early_steps heap.now.shape + quota_steps result.done owed.looks heap.now.shape }
{
    let section = seat.state().section.unwrap_or(0);
    match scan_roots(heap, seat, section) {
        RootScan::NoPacket => Paid {
            quota: owed.objects,
            done: 0,
            stopped: stopped_at(owed.objects),
        },
        RootScan::Done { marked: _ } => {
            let other = section_at(owed.turn, heap.shape().sections);
            scan_roots(heap, seat, other);
            pass_early(heap, seat, owed.from, owed.end);
            pay_quota(heap, seat, owed.objects, owed.looks)
        }
    }
}

fn section_at(turn: u32, sections: u32) -> u32
    requires { 0 < sections }
    ensures { result ≡ turn % sections }
{
    turn % sections
}

fn stopped_at(quota: u32) -> Stopped
    ensures { result ≡ stop_of quota }
{
    if quota == 0 {
        Stopped::Quota
    } else {
        Stopped::NoPacket
    }
}

fn pay_quota(heap: &Heap, seat: &mut HeapSeat, quota: u32, looks: u32) -> Paid
    requires seat { Sits heap.now seat.old × Mutates (view_of seat.old) }
    requires marking { (state_of seat.old).phase_seen ≡ Some Marking }
    ensures seat { Sits heap.now seat.new }
    ensures traces { Across (TracesOn quota 0 looks result) seat.old seat.new }
    ensures late { count_of looks_at_card (did seat.old seat.new) ≤ looks }
    ensures recycles { Across (TracesThenRecycles heap.now.shape result.stopped) seat.old seat.new }
    ensures few { length (did seat.old seat.new) ≤ quota_steps result.done looks heap.now.shape }
{
    let paid = trace_and_clean(heap, seat, quota, looks);
    if let Stopped::NoWork = paid.stopped {
        recycle_deferred(heap, seat);
    }
    paid
}

/// While there is nothing to trace it cleans the dirty ones of the next `looks` cards of the pass.
fn trace_and_clean(heap: &Heap, seat: &mut HeapSeat, quota: u32, looks: u32) -> Paid
    requires seat { Sits heap.now seat.old × Mutates (view_of seat.old) }
    requires marking { (state_of seat.old).phase_seen ≡ Some Marking }
    ensures seat { Sits heap.now seat.new }
    ensures traces { Across (TracesOn quota 0 looks result) seat.old seat.new }
    ensures late { count_of looks_at_card (did seat.old seat.new) ≤ looks }
    ensures apart { Across TracesApart seat.old seat.new }
    ensures few { length (did seat.old seat.new) ≤ trace_steps result.done heap.now.shape + payment_rounds * round_steps heap.now.shape + looks * next_steps heap.now.shape }
{
    let first = trace(heap, seat, quota);
    let mut paid = Paid {
        quota,
        done: first.done,
        stopped: first.stopped,
    };
    let mut left = looks;
    for _round in 0..ROUNDS {
        let Stopped::NoWork = paid.stopped else {
            return paid;
        };
        let Some((more, rest)) = clean_and_trace(heap, seat, left, paid) else {
            return paid;
        };
        paid = more;
        left = rest;
    }
    paid
}

/// How many cells are worth a trace: as many as are owed, or half a packet.
fn worth_tracing(heap: &Heap, owed: u32) -> u32 {
    owed.min(heap.shape().entries / 2)
}

/// What was paid then, and how many looks are left. None: no card was cleaned.
fn clean_and_trace(
    heap: &Heap,
    seat: &mut HeapSeat,
    looks: u32,
    before: Paid,
) -> Option<(Paid, u32)>
    requires seat { Sits heap.now seat.old × Mutates (view_of seat.old) }
    requires marking { (state_of seat.old).phase_seen ≡ Some Marking }
    requires quota { before.done ≤ before.quota }
    ensures seat { Sits heap.now seat.new }
    ensures some { IfSome result (λ r. (r.1 ≤ looks) × Across (TracesOn before.quota before.done (looks - r.1) r.0) seat.old seat.new) }
    ensures none { IfNone result (Across (TracesNone looks) seat.old seat.new) }
    ensures ran { Across Ran seat.old seat.new }
    ensures late { IfSome result (λ r. count_of looks_at_card (did seat.old seat.new) + r.1 ≤ looks) × IfNone result (count_of looks_at_card (did seat.old seat.new) ≤ looks) }
    ensures apart { Across TracesApart seat.old seat.new }
    ensures few { IfSome result (λ r. (before.done ≤ r.0.done) × (length (did seat.old seat.new) ≤ clean_next_steps (looks - r.1) heap.now.shape + trace_steps (r.0.done - before.done) heap.now.shape)) × IfNone result (length (did seat.old seat.new) ≤ clean_next_steps looks heap.now.shape) }
{
    let owed = before.quota - before.done;
    let Some(left) = clean_next(heap, seat, looks, worth_tracing(heap, owed)) else {
        return None;
    };
    let more = trace(heap, seat, owed);
    let paid = Paid {
        quota: before.quota,
        done: before.done + more.done,
        stopped: more.stopped,
    };
    Some((paid, left))
}
