//! A mutator stops the world, and waits for the stop of another.
ghost use Rattle.std.specs.Prelude.{ℕ, ◌≡◌, ◌<◌, ◌↔◌, ◌∷◌, [], if◌then◌else◌, List, None, is_some, IsTrue};
ghost use Rattle.mark_core.specs.Layout.{block_count};
ghost use Rattle.std.specs.Bool.{OnTrue, OnFalse};
ghost use Rattle.gc_table.specs.Seats.{Across, did, Sits, state_of, view_of};
ghost use Rattle.packet_pools.specs.Seeking.{some_event};
ghost use Rattle.mark_core.specs.declared.kinds.Step.TheVariants.{LeaveStep, StorePosition};
ghost use Rattle.packet_pools.specs.Counts.{count_of};
ghost use Rattle.gc_table.specs.Log.{event, Only};
ghost use Rattle.gc_table.specs.Running.{Ran};
ghost use Rattle.gc_table.specs.declared.view.Entry.{Entry};
ghost use Rattle.gc_cycle.specs.Answering.{waits_helping};
ghost use Rattle.gc_cycle.specs.Cycles.{never_fills};
ghost use Rattle.gc_cycle.specs.Events.{each_after, never};
ghost use Rattle.gc_cycle.specs.Helping.{PassesFirst};
ghost use Rattle.gc_cycle.specs.Mutating.{AsksOnce, GoesOut, HasEntered, StopsWorld, TriesToStop, is_in_stop, stays_calm, works_in_stops};
ghost use Rattle.gc_cycle.specs.Polling.{offered_help, saw_resumed};
ghost use Rattle.gc_cycle.specs.Sorts.{comes_in, joins, leaves, lets_in, pops_or_clears, raises_flag, resumes};
ghost use Rattle.gc_cycle.specs.Sparing.{spares_part};
ghost use Rattle.gc_cycle.specs.Standing.{IsAdmitted, IsOut, KeepsSeat, KeepsSection, Mutates};
ghost use Rattle.gc_cycle.specs.Statistics.{leaves_numbers};
ghost use Rattle.gc_cycle.specs.Turns.{HelpsFor, HelpsInTurns, HelpsOnce, WaitsInTurns, help_quota};

use crate::helping::help_with;
use gc_table::{Heap, HeapSeat};
use mark_core::{BLOCK_CELLS, BLOCK_COUNTER, Phase, Shape, has_flag};
use packet_pools::all_empty;
use std::sync::Wait;
use std::thread;
use stop_world::{Raised, await_stopped, enter, join_help, leave, leave_help, poll, raise};

/// How many objects a waiting seat traces before it looks again whether the stop has ended.
const TURN: u32 = 1_024;

/// How often a waiting seat looks before it offers help unasked: seldom, since helpers hold each other up in a sweep
/// whose blocks are handed out one by one.
const PAUSE: u32 = 65_536;

fn help_joined(heap: &Heap, seat: &mut HeapSeat, cards: bool)
    requires seat { Sits heap.now seat.old × IsAdmitted (view_of seat.old) }
    ensures seat { Sits heap.now seat.new × IsAdmitted (view_of seat.new) }
    ensures out { Across GoesOut seat.old seat.new }
    ensures own { (view_of seat.new).own ≡ (view_of seat.old).own }
    ensures numbers { Across (Only leaves_numbers) seat.old seat.new }
    ensures inside { IsTrue (never leaves (did seat.old seat.new)) }
    ensures stays { IsTrue (never joins (did seat.old seat.new)) }
    ensures helps { Across (HelpsFor help_quota) seat.old seat.new }
    ensures passes { Across (PassesFirst cards) seat.old seat.new }
{
    match seat.state().phase_seen {
        Some(Phase::Drain) => {
            help_with(heap, seat, TURN, cards);
        }
        Some(Phase::Sweep) => {
            help_with(heap, seat, TURN, false);
        }
        _ => {}
    }
}

/// Whether help was open, and it helped.
fn help_once(heap: &Heap, seat: &mut HeapSeat, cards: bool) -> bool
    requires seat { Sits heap.now seat.old × IsOut (view_of seat.old) }
    ensures seat { Sits heap.now seat.new × IsOut (view_of seat.new) }
    ensures out { Across GoesOut seat.old seat.new }
    ensures own { (view_of seat.new).own ≡ (view_of seat.old).own }
    ensures numbers { Across (Only leaves_numbers) seat.old seat.new }
    ensures offered { IsTrue (some_event joins (did seat.old seat.new)) }
    ensures inside { IsTrue (never leaves (did seat.old seat.new)) }
    ensures helps { Across (HelpsOnce cards help_quota) seat.old seat.new }
    ensures let_in { some_event lets_in (did seat.old seat.new) ≡ result }
{
    if join_help(heap, seat) {
        help_joined(heap, seat, cards);
        leave_help(heap, seat);
        return true;
    }
    false
}

/// How often it yields between two looks: the stopping seat counts in a word beside the one that it reads.
const YIELDS: u32 = 16;

/// Of blocks that are handed out one by one none is called left, since helpers hold each other up.
fn is_partly_handed_out(shape: &Shape, next: u64) -> bool
    ensures { IsTrue result ↔ ((1 < shape.now.stretch) × (0 < next) × (next < block_count shape.now)) }
{
    1 < shape.stretch && 0 < next && next < u64::from(shape.cells / BLOCK_CELLS)
}

fn has_blocks_left(heap: &Heap, seat: &mut HeapSeat) -> bool
    requires seat { Sits heap.now seat.old × IsOut (view_of seat.old) }
    ensures seat { Sits heap.now seat.new × IsOut (view_of seat.new) }
    ensures out { Across GoesOut seat.old seat.new }
    ensures own { (view_of seat.new).own ≡ (view_of seat.old).own }
    ensures numbers { Across (Only leaves_numbers) seat.old seat.new }
    ensures inside { IsTrue (never leaves (did seat.old seat.new)) }
    ensures apart { IsTrue (never joins (did seat.old seat.new)) }
{
    let next = heap.read_stat(seat, BLOCK_COUNTER);
    is_partly_handed_out(&heap.shape(), next)
}

fn is_wanted(heap: &Heap, seat: &mut HeapSeat) -> bool
    requires seat { Sits heap.now seat.old × IsOut (view_of seat.old) }
    ensures seat { Sits heap.now seat.new × IsOut (view_of seat.new) }
    ensures out { Across GoesOut seat.old seat.new }
    ensures own { (view_of seat.new).own ≡ (view_of seat.old).own }
    ensures numbers { Across (Only leaves_numbers) seat.old seat.new }
    ensures inside { IsTrue (never leaves (did seat.old seat.new)) }
    ensures apart { IsTrue (never joins (did seat.old seat.new)) }
{
    if !has_flag(heap.see_help(seat)) {
        return false;
    }
    if !all_empty(heap, seat) {
        return true;
    }
    has_blocks_left(heap, seat)
}

fn is_over_or_wanted(heap: &Heap, seat: &mut HeapSeat) -> bool
    requires seat { Sits heap.now seat.old × IsOut (view_of seat.old) }
    ensures seat { Sits heap.now seat.new × IsOut (view_of seat.new) }
    ensures out { Across GoesOut seat.old seat.new }
    ensures own { (view_of seat.new).own ≡ (view_of seat.old).own }
    ensures numbers { Across (Only leaves_numbers) seat.old seat.new }
    ensures inside { IsTrue (never leaves (did seat.old seat.new)) }
    ensures apart { IsTrue (never joins (did seat.old seat.new)) }
{
    if !poll(heap, seat) {
        return true;
    }
    is_wanted(heap, seat)
}

fn yield_some() {
    for _ in 0..YIELDS {
        thread::yield_now();
    }
}

fn pause(heap: &Heap, seat: &mut HeapSeat)
    requires seat { Sits heap.now seat.old × IsOut (view_of seat.old) }
    ensures seat { Sits heap.now seat.new × IsOut (view_of seat.new) }
    ensures out { Across GoesOut seat.old seat.new }
    ensures own { (view_of seat.new).own ≡ (view_of seat.old).own }
    ensures numbers { Across (Only leaves_numbers) seat.old seat.new }
    ensures inside { IsTrue (never leaves (did seat.old seat.new)) }
    ensures apart { IsTrue (never joins (did seat.old seat.new)) }
{
    for _ in 0..PAUSE {
        if is_over_or_wanted(heap, seat) {
            return;
        }
        yield_some();
    }
}

/// Waits until no stop is under way, and helps meanwhile. In a drain it passes all cards the first time that it is let
/// in, and never again.
pub fn await_resumed_helping<R: Wait>(rt: &R, heap: &Heap, seat: &mut HeapSeat)
    requires seat { Sits heap.now seat.old × IsOut (view_of seat.old) }
    ensures seat { Sits heap.now seat.new × IsOut (view_of seat.new) }
    ensures ran { Across Ran seat.old seat.new }
    ensures resumed { IsTrue (saw_resumed (did seat.old seat.new)) }
    ensures offered { IsTrue (offered_help (did seat.old seat.new)) }
    ensures only { Across (Only stays_calm) seat.old seat.new }
    ensures numbers { Across (Only leaves_numbers) seat.old seat.new }
    ensures not_full { IsTrue (never_fills (did seat.old seat.new)) }
    ensures keeps { Across KeepsSeat seat.old seat.new }
    ensures own { (view_of seat.new).own ≡ (view_of seat.old).own }
    ensures inside { IsTrue (never leaves (did seat.old seat.new)) }
    ensures helps { Across WaitsInTurns seat.old seat.new }
{
    let mut cards = true;
    for _ in rt.forever() {
        if !poll(heap, seat) {
            return;
        }
        let helped = help_once(heap, seat, cards);
        cards = cards && !helped;
        pause(heap, seat);
    }
    unreachable!()
}

/// Leaves the world with the position stored.
#[inline(never)]
pub fn go_out(heap: &Heap, seat: &mut HeapSeat, done: u32)
    requires seat { Sits heap.now seat.old × Mutates (view_of seat.old) }
    requires cache { (state_of seat.old).cache ≡ None }
    ensures seat { Sits heap.now seat.new × IsOut (view_of seat.new) }
    ensures out { Across GoesOut seat.old seat.new }
    ensures position { (view_of seat.new).own.position ≡ done }
    ensures left { (n : ℕ) × (did seat.old seat.new ≡ event (StorePosition done) done ∷ event LeaveStep n ∷ []) }
    ensures spares { Across (Only spares_part) seat.old seat.new }
    ensures numbers { Across (Only leaves_numbers) seat.old seat.new }
{
    heap.store_position(seat, done);
    leave(heap, seat);
}

/// Enters the world as soon as no stop is under way, and helps meanwhile. Once it is inside it traces nothing and
/// cleans no card.
#[inline(never)]
pub fn go_in<R: Wait>(rt: &R, heap: &Heap, seat: &mut HeapSeat)
    requires seat { Sits heap.now seat.old × IsOut (view_of seat.old) }
    requires section { IsTrue (is_some (state_of seat.old).section) }
    ensures seat { Sits heap.now seat.new × Mutates (view_of seat.new) }
    ensures entered { Across HasEntered seat.old seat.new }
    ensures waits { IsTrue (waits_helping (did seat.old seat.new)) }
    ensures offered { IsTrue (offered_help (did seat.old seat.new)) }
    ensures helps { Across HelpsInTurns seat.old seat.new }
    ensures unresumed { IsTrue (never resumes (did seat.old seat.new)) }
    ensures away { (before : List Entry) → IsTrue (is_in_stop before) → IsTrue (each_after is_in_stop pops_or_clears before (did seat.old seat.new)) }
    ensures spares { Across (Only spares_part) seat.old seat.new }
    ensures numbers { Across (Only leaves_numbers) seat.old seat.new }
{
    for _ in rt.forever() {
        await_resumed_helping(rt, heap, seat);
        if enter(heap, seat) {
            return;
        }
    }
    unreachable!()
}

/// Asks for a stop, with the position stored. True: the seat is alone in the world. False: another seat's flag was
/// up; it has waited until that stop had ended, and has entered again.
pub fn stop<R: Wait>(rt: &R, heap: &Heap, seat: &mut HeapSeat, done: u32) -> bool
    requires seat { Sits heap.now seat.old × Mutates (view_of seat.old) }
    requires cache { (state_of seat.old).cache ≡ None }
    ensures seat { Sits heap.now seat.new }
    ensures tries { Across TriesToStop seat.old seat.new }
    ensures yours { OnTrue result (Across StopsWorld seat.old seat.new) }
    ensures theirs { OnFalse result (Mutates (view_of seat.new)) }
    ensures position { (view_of seat.new).own.position ≡ done }
    ensures raises { count_of raises_flag (did seat.old seat.new) ≡ (if result then 1 else 0) }
    ensures asks { Across AsksOnce seat.old seat.new }
    ensures outside { IsTrue (each_after (never comes_in) raises_flag [] (did seat.old seat.new)) }
    ensures unresumed { IsTrue (never resumes (did seat.old seat.new)) }
    ensures pops { IsTrue (works_in_stops (did seat.old seat.new)) }
    ensures numbers { Across (Only leaves_numbers) seat.old seat.new }
{
    go_out(heap, seat, done);
    match raise(heap, seat) {
        Raised::Yours => {
            await_stopped(rt, heap, seat);
            true
        }
        Raised::Theirs => {
            go_in(rt, heap, seat);
            false
        }
    }
}
