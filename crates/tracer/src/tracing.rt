//! The loop of a tracer.
ghost use Rattle.std.specs.Prelude.{ℕ, ◌≡◌, ◌<◌, ◌≤◌, ◌+◌, ◌⊎◌, Option, Some, None, false, IsTrue, IsFalse, IfSome, IfNone, ◌*◌, length};
ghost use Rattle.mark_core.specs.Seats.{cleaning_left, work_in_hand};
ghost use Rattle.gc_table.specs.Seats.{Across, did, state_of, view_of};
ghost use Rattle.mark_core.specs.declared.kinds.Phase.TheVariants.{Drain};
ghost use Rattle.gc_table.specs.Running.{Alone};
ghost use Rattle.packet_pools.specs.Counts.{count_of, dirties, marks_white, pushes};
ghost use Rattle.packet_pools.specs.OnlyTraced.{OnlyTraced};
ghost use Rattle.packet_pools.specs.Tracing.{IsTracer};
ghost use Rattle.packet_pools.specs.Scanning.{InHand};
ghost use Rattle.packet_pools.specs.Seeking.{NoInput, input_pools, only_moves};
ghost use Rattle.tracer.specs.Causes.{FoundNoWork, NotesNoInput};
ghost use Rattle.tracer.specs.Deferral.{Defers};
ghost use Rattle.tracer.specs.Ends.{all_end_well};
ghost use Rattle.tracer.specs.Hands.{Carries, HasCellAndRoom, IsIdle, KeepsRecord, no_packets, packet_of, packets_of};
ghost use Rattle.tracer.specs.Parts.{SearchedInVain, HasPopped, Did};
ghost use Rattle.tracer.specs.Tally.{Tally};
ghost use Rattle.packet_pools.specs.StepBounds.{give_steps, input_steps, room_left, scan_steps};
ghost use Rattle.tracer.specs.Searched.{Searches};
ghost use Rattle.tracer.specs.StepBounds.{filled_length, hand_left, object_steps, popped_steps, trace_steps, turn_steps};

use crate::deferring::defer;
use crate::finding::next_cell;
use crate::packets::{Packets, give_some};
use crate::sharing::share_in_turn;
use crate::traced::{Passed, Stopped, Traced};
use gc_table::{Heap, HeapSeat};
use mark_core::{BLOCK_CELLS, Cell, has_bit};
use packet_pools::{Scanned, Search, give, scan_whole, take_input};

fn scan(
    heap: &Heap,
    seat: &mut HeapSeat,
    packets: &mut Packets,
    search: &mut Search,
    cell: Cell,
) -> Scanned
    requires seat { IsTracer heap.now seat.old }
    requires packets { Carries (packets_of packets.old) (view_of seat.old) }
    requires hand { InHand None None (state_of seat.old) × IsFalse (cleaning_left (state_of seat.old).cleaning) }
    requires scan { (state_of seat.old).scan ≡ Some (cell, 0) }
    ensures seat { IsTracer heap.now seat.new }
    ensures only { Across OnlyTraced seat.old seat.new }
    ensures packets { Carries (packets_of packets.new) (view_of seat.new) × (packets.new.deferred ≡ packets.old.deferred) }
    ensures work { IsFalse (work_in_hand heap.now.shape.fields (state_of seat.new)) }
    ensures most { (result.overflowed ≤ result.marked) × (result.marked ≤ heap.now.shape.fields) }
    ensures part { (o : Option ℕ) → Did o o 0 0 result.overflowed (view_of seat.old) (did seat.old seat.new) }
    ensures tried { Searches heap.now.shape search.old search.new (did seat.old seat.new) }
    ensures few { length (did seat.old seat.new) + room_left heap.now.shape search.new (filled_length packets.new) ≤ room_left heap.now.shape search.old (filled_length packets.old) + scan_steps heap.now.shape.fields heap.now.shape }
{
    match &mut packets.output {
        Some(output) => scan_whole(heap, seat, output, search, cell),
        None => scan_whole(heap, seat, &mut packets.input, search, cell),
    }
}

fn trace_cell(
    heap: &Heap,
    seat: &mut HeapSeat,
    packets: &mut Packets,
    search: &mut Search,
    cell: Cell,
) -> Passed
    requires seat { IsTracer heap.now seat.old }
    requires packets { Carries (packets_of packets.old) (view_of seat.old) × HasCellAndRoom heap.now.shape packets.old.deferred }
    requires cell { HasPopped cell false (view_of seat.old) }
    ensures seat { IsTracer heap.now seat.new }
    ensures only { Across OnlyTraced seat.old seat.new }
    ensures packets { Carries (packets_of packets.new) (view_of seat.new) × HasCellAndRoom heap.now.shape packets.new.deferred }
    ensures work { IsFalse (work_in_hand heap.now.shape.fields (state_of seat.new)) }
    ensures most { (result.deferred ≤ 1) × (result.overflowed ≤ 16) }
    ensures undeferred { IsFalse (state_of seat.old).active → result.deferred ≡ 0 }
    ensures part { Did (packet_of packets.old.deferred) (packet_of packets.new.deferred) 0 result.deferred result.overflowed (view_of seat.old) (did seat.old seat.new) }
    ensures tried { Searches heap.now.shape search.old search.new (did seat.old seat.new) }
    ensures few { length (did seat.old seat.new) + hand_left heap.now.shape search.new packets.new ≤ hand_left heap.now.shape search.old packets.old + object_steps heap.now.shape }
{
    let word = heap.read_alloc(seat, cell.number() / BLOCK_CELLS);
    if has_bit(word, cell.number() % BLOCK_CELLS) {
        let scanned = scan(heap, seat, packets, search, cell);
        return Passed {
            deferred: 0,
            overflowed: scanned.overflowed,
        };
    }
    let overflowed = defer(heap, seat, packets, search, cell);
    Passed {
        deferred: u32::from(!overflowed),
        overflowed: u32::from(overflowed),
    }
}

fn trace_all(
    heap: &Heap,
    seat: &mut HeapSeat,
    packets: &mut Packets,
    search: &mut Search,
    quota: u32,
) -> Traced
    requires seat { IsTracer heap.now seat.old }
    requires packets { Carries (packets_of packets.old) (view_of seat.old) × HasCellAndRoom heap.now.shape packets.old.deferred }
    requires idle { IsFalse (work_in_hand heap.now.shape.fields (state_of seat.old)) × ((state_of seat.old).block ≡ None) }
    ensures seat { IsTracer heap.now seat.new }
    ensures only { Across OnlyTraced seat.old seat.new }
    ensures packets { Carries (packets_of packets.new) (view_of seat.new) × HasCellAndRoom heap.now.shape packets.new.deferred }
    ensures work { IsFalse (work_in_hand heap.now.shape.fields (state_of seat.new)) }
    ensures part { Did (packet_of packets.old.deferred) (packet_of packets.new.deferred) result.done result.deferred result.overflowed (view_of seat.old) (did seat.old seat.new) }
    ensures undeferred { IsFalse (state_of seat.old).active → result.deferred ≡ 0 }
    ensures stopped { ((result.stopped ≡ Stopped.Quota) × (result.done ≡ quota)) ⊎ ((result.stopped ≡ Stopped.NoWork) × (result.done < quota) × Across (SearchedInVain heap.now.shape packets.new) seat.old seat.new) }
    ensures works { 0 < packets.old.input.length → 0 < quota → 0 < result.done }
    ensures tried { Searches heap.now.shape search.old search.new (did seat.old seat.new) }
    ensures few { length (did seat.old seat.new) ≤ hand_left heap.now.shape search.old packets.old + popped_steps result.done heap.now.shape + turn_steps heap.now.shape }
{
    let mut traced = Traced::started();
    for turn in 0..quota {
        share_in_turn(heap, seat, packets, search, turn);
        let Some(cell) = next_cell(heap, seat, packets) else {
            traced.stopped = Stopped::NoWork;
            return traced;
        };
        let passed = trace_cell(heap, seat, packets, search, cell);
        traced.done += 1;
        traced.deferred += passed.deferred;
        traced.overflowed += u64::from(passed.overflowed);
    }
    traced
}

fn begin(heap: &Heap, seat: &mut HeapSeat) -> Option<Packets>
    requires seat { IsTracer heap.now seat.old }
    requires idle { IsIdle (view_of seat.old) }
    ensures seat { IsTracer heap.now seat.new }
    ensures only { Across OnlyTraced seat.old seat.new }
    ensures idle { IsFalse (work_in_hand heap.now.shape.fields (state_of seat.new)) × ((state_of seat.new).block ≡ None) }
    ensures part { Did None None 0 0 0 (view_of seat.old) (did seat.old seat.new) }
    ensures some { IfSome result (λ x. Carries (packets_of x) (view_of seat.new) × (x.deferred ≡ None)) }
    ensures full { IfSome result (λ x. 0 < x.input.length) }
    ensures none { IfNone result ((state_of seat.new ≡ state_of seat.old) × NoInput heap.now.shape (did seat.old seat.new) × IsTrue (only_moves input_pools (did seat.old seat.new))) }
    ensures noted { IfNone result (Across NotesNoInput seat.old seat.new) }
    ensures few { length (did seat.old seat.new) ≤ input_steps heap.now.shape }
{
    let input = take_input(heap, seat)?;
    Some(Packets {
        input,
        output: None,
        deferred: None,
    })
}

fn finish(heap: &Heap, seat: &mut HeapSeat, packets: Packets)
    requires seat { IsTracer heap.now seat.old }
    requires packets { Carries (packets_of packets) (view_of seat.old) × HasCellAndRoom heap.now.shape packets.deferred }
    requires work { IsFalse (work_in_hand heap.now.shape.fields (state_of seat.old)) }
    ensures seat { IsTracer heap.now seat.new }
    ensures only { Across OnlyTraced seat.old seat.new }
    ensures held { (state_of seat.new).held ≡ no_packets }
    ensures work { IsFalse (work_in_hand heap.now.shape.fields (state_of seat.new)) }
    ensures part { Did (packet_of packets.deferred) None 0 0 0 (view_of seat.old) (did seat.old seat.new) }
    ensures few { length (did seat.old seat.new) ≤ 3 * give_steps }
{
    let Packets {
        input,
        output,
        deferred,
    } = packets;
    give_some(heap, seat, deferred, true);
    give_some(heap, seat, output, false);
    give(heap, seat, input, false);
}

/// Traces at most `quota` objects: each is popped, and what it refers to is marked and pushed. The answer is Quota
/// exactly if `done` is the quota, and never NoPacket. While the world is stopped nothing is deferred. A seat that is
/// alone, and popped none, knows that no packet waits to be read; in a drain it pushes, and leaves to cards, no more
/// cells than it found white.
pub fn trace(heap: &Heap, seat: &mut HeapSeat, quota: u32) -> Traced
    requires seat { IsTracer heap.now seat.old }
    requires idle { IsIdle (view_of seat.old) }
    ensures seat { IsTracer heap.now seat.new }
    ensures only { Across OnlyTraced seat.old seat.new }
    ensures idle { IsIdle (view_of seat.new) }
    ensures state { Across KeepsRecord seat.old seat.new }
    ensures stopped { ((result.stopped ≡ Stopped.Quota) × (result.done ≡ quota)) ⊎ ((result.stopped ≡ Stopped.NoWork) × (result.done < quota) × Across FoundNoWork seat.old seat.new) }
    ensures tally { Across (Tally result.done result.deferred result.overflowed) seat.old seat.new }
    ensures undeferred { IsFalse (state_of seat.old).active → result.deferred ≡ 0 }
    ensures deferral { Across Defers seat.old seat.new }
    ensures spills { Alone Drain (view_of seat.old) → IsFalse (state_of seat.old).active → count_of pushes (did seat.old seat.new) + count_of dirties (did seat.old seat.new) ≤ count_of marks_white (did seat.old seat.new) }
    ensures noted { 0 < quota → result.done ≡ 0 → Across NotesNoInput seat.old seat.new }
    ensures ends { IsTrue (all_end_well (view_of seat.old) (did seat.old seat.new)) }
    ensures few { length (did seat.old seat.new) ≤ trace_steps result.done heap.now.shape }
{
    if quota == 0 {
        return Traced::started();
    }
    let Some(mut packets) = begin(heap, seat) else {
        return Traced::without_work();
    };
    let traced = trace_all(heap, seat, &mut packets, &mut Search::open(), quota);
    finish(heap, seat, packets);
    traced
}
