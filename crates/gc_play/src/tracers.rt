ghost use Rattle.std.specs.Prelude.{◌≡◌, [], All, None, Some};
ghost use Rattle.gc_table.specs.Seats.{Across, did, state_of};
ghost use Rattle.gc_play.specs.Crews.{IsAnyTracer};
ghost use Rattle.seat_turns.specs.TracerStanding.{Goes};
ghost use Rattle.gc_play.specs.Standing.{Rests};
ghost use Rattle.mark_core.specs.declared.kinds.Phase.TheVariants.{Marking};
ghost use Rattle.gc_play.specs.Stays.{RestsUnchanged, SeatStays};
ghost use Rattle.gc_play.specs.Traced.{AllTracedUntil, TracedUntil};
ghost use Rattle.gc_play.specs.Turns.{HasTakenTurns, IsOneTurn, IsVisit, TracesInside};

use crate::marking::trace_inside;
use gc_cycle::await_resumed_helping;
use gc_table::{Heap, HeapSeat};
use mark_core::{DONE, Phase};
use seat_turns::{rest, see_phase};
use std::sync::Wait;
use std::thread;
use std::thread::Threads;
use stop_world::{enter, leave};
use warehouse::Gate;

fn trace_if(heap: &Heap, seat: &mut HeapSeat, phase: Phase)
    requires seat { Goes heap.now seat.old }
    requires seen { (state_of seat.old).phase_seen ≡ Some phase }
    ensures seat { Goes heap.now seat.new }
    ensures stays { Across SeatStays seat.old seat.new }
    ensures marking { phase ≡ Marking → TracesInside heap.now.shape (state_of seat.old) (did seat.old seat.new) }
    ensures other { (phase ≡ Marking → ⊥) → did seat.old seat.new ≡ [] }
{
    if let Phase::Marking = phase {
        trace_inside(heap, seat);
    }
}

/// What a tracer does in the world. True if the heap is full.
fn visit<G: Gate>(heap: &Heap, seat: &mut HeapSeat, gate: &G) -> bool
    requires seat { Goes heap.now seat.old }
    requires section { (state_of seat.old).section ≡ None }
    ensures seat { Rests heap.now seat.new }
    ensures stays { Across SeatStays seat.old seat.new }
    ensures visit { IsVisit heap.now.shape result (state_of seat.old) (did seat.old seat.new) }
{
    let phase = see_phase(heap, seat);
    gate.turn(seat);
    trace_if(heap, seat, phase);
    leave(heap, seat);
    matches!(phase, Phase::Full)
}

/// One turn. True if nothing more is to be traced.
fn take_turn<R: Threads + Wait + Sync, G: Gate>(
    rt: &R,
    heap: &Heap,
    seat: &mut HeapSeat,
    until: u32,
    gate: &G,
) -> bool
    requires { IsAnyTracer heap.now seat.old }
    ensures seat { Rests heap.now seat.new }
    ensures stays { Across SeatStays seat.old seat.new }
    ensures turn { IsOneTurn heap.now.shape until result (state_of seat.old) (did seat.old seat.new) }
{
    if heap.read_stat(seat, DONE) >= u64::from(until) {
        return true;
    }
    if !enter(heap, seat) {
        await_resumed_helping(rt, heap, seat);
        return false;
    }
    visit(heap, seat, gate)
}

/// Traces beside the mutators until so many parts were played or the heap is full.
pub fn run_tracer<R: Threads + Wait + Sync, G: Gate>(
    rt: &R,
    heap: &Heap,
    seat: &mut HeapSeat,
    until: u32,
    gate: &G,
)
    requires { IsAnyTracer heap.now seat.old }
    ensures kept { RestsUnchanged heap.now seat.old seat.new }
    ensures turns { HasTakenTurns heap.now.shape until (state_of seat.old) (did seat.old seat.new) }
{
    for _ in rt.forever() {
        if take_turn(rt, heap, seat, until, gate) {
            return;
        }
        rest(rt, heap);
    }
    unreachable!()
}

pub(crate) fn run_tracers<R: Threads + Wait + Sync, G: Gate + Sync>(
    rt: &R,
    heap: &Heap,
    tracers: &mut Vec<HeapSeat>,
    until: u32,
    gate: &G,
)
    requires { All (IsAnyTracer heap.now) tracers.old.items }
    ensures { AllTracedUntil heap.now until tracers.old.items tracers.new.items }
{
    let threads = tracers.len();
    if threads == 0 {
        return;
    }
    thread::for_each_mut(
        rt,
        tracers.as_mut_slice(),
        threads,
        &|_, seat: &mut HeapSeat|
            requires { IsAnyTracer heap.now seat.now }
            ensures { TracedUntil heap.entry.now until seat.entry.now seat.exit.now }
        { run_tracer(rt, heap, seat, until, gate) },
    );
}
