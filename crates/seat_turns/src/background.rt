//! A tracer that owns its seat.
ghost use Rattle.std.specs.Arc.{arc_value};
ghost use Rattle.std.specs.Prelude.{◌≡◌};
ghost use Rattle.gc_table.specs.Seats.{Across, state_of};
ghost use Rattle.seat_turns.specs.Standing.{RestsOutside};
ghost use Rattle.seat_turns.specs.Tallying.{Tallies};
ghost use Rattle.seat_turns.specs.Tracing.{TracerRunsTo, TracerTakesTurn};

use crate::try_turns::TryTurn;
use gc_cycle::await_resumed_helping;
use gc_table::{Heap, HeapSeat};
use std::alloc::Global;
use std::sync::{Arc, Wait};
use std::thread::yield_now;
use std::time::Duration;

/// What a turn of a tracer came to.
#[derive(Clone, Copy, Debug, PartialEq, Eq, Drop)]
pub enum Turn {
    /// There may be more to trace.
    Going,
    /// The world has dismissed its tracers.
    Dismissed,
    /// The heap is full, for good.
    Full,
}

/// How often a tracer yields between two turns: a turn changes the word of the world, which each mutator reads at each
/// safe point.
const YIELDS: u32 = 64;

/// How long a tracer sleeps at most while no cycle marks, in microseconds. It is woken if one begins.
const SLEEP: u64 = 2_000;

/// A tracer, for one thread.
#[derive(Drop)]
pub struct Tracer {
    pub(crate) heap: Arc<Heap, Global>,
    pub(crate) seat: HeapSeat,
    pub(crate) name: u32,
    pub(crate) traced: u64,
    ghost rests: { RestsOutside (arc_value heap) seat },
}

/// Lets others run, and sleeps while no cycle marks.
pub fn rest<R: Wait>(rt: &R, heap: &Heap) {
    for _ in 0..YIELDS {
        yield_now();
    }
    heap.rest(rt, Duration::from_micros(SLEEP));
}

impl Tracer {
    /// A tracer with this seat, which has traced nothing.
    pub fn of_seat(heap: Arc<Heap, Global>, seat: HeapSeat, name: u32) -> Tracer
        requires rests { RestsOutside (arc_value heap) seat }
        ensures new { (result.heap ≡ heap) × (result.seat ≡ seat) × (result.name ≡ name) × (result.traced ≡ 0) }
    {
        Tracer {
            heap,
            seat,
            name,
            traced: 0,
        }
    }

    /// Its seat.
    pub fn into_seat(self) -> HeapSeat
        ensures seat { result ≡ self.seat }
        ensures rests { RestsOutside (arc_value self.heap) result }
    {
        self.seat
    }

    /// The name of the world that lends it.
    pub fn name(&self) -> u32
        ensures name { result ≡ self.now.name }
    {
        self.name
    }

    /// The number of its seat.
    pub fn number(&self) -> u32
        ensures number { result ≡ (state_of self.now.seat).number }
    {
        self.seat.number()
    }

    /// One turn, as [`Tracer::try_turn`]. If a stop is under way it helps until that has ended.
    pub fn trace_turn<R: Wait>(&mut self, rt: &R) -> Turn
        ensures turn { Across (TracerTakesTurn result) self.old.seat self.new.seat }
        ensures tally { Across (Tallies self.old.traced self.new.traced) self.old.seat self.new.seat }
        ensures world { (self.new.heap ≡ self.old.heap) × (self.new.name ≡ self.old.name) }
    {
        match self.try_turn() {
            TryTurn::Marked => Turn::Going,
            TryTurn::Idle => Turn::Going,
            TryTurn::Stopped => {
                await_resumed_helping(rt, &self.heap, &mut self.seat);
                Turn::Going
            }
            TryTurn::Dismissed => Turn::Dismissed,
            TryTurn::Full => Turn::Full,
        }
    }

    /// How many objects it has traced beside the mutators, without those that it traced while it helped a stop.
    pub fn traced(&self) -> u64
        ensures traced { result ≡ self.now.traced }
    {
        self.traced
    }

    /// Takes turns, and rests in between, until the world dismisses its tracers or the heap is full.
    pub fn run<R: Wait>(&mut self, rt: &R) -> Turn
        ensures runs { Across (TracerRunsTo result) self.old.seat self.new.seat }
        ensures tally { Across (Tallies self.old.traced self.new.traced) self.old.seat self.new.seat }
        ensures world { (self.new.heap ≡ self.old.heap) × (self.new.name ≡ self.old.name) }
    {
        for _ in rt.forever() {
            match self.trace_turn(rt) {
                Turn::Going => rest(rt, &self.heap),
                ended => return ended,
            }
        }
        unreachable!()
    }
}
