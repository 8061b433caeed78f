//! A turn of a tracer that doesn't wait.
ghost use Rattle.std.specs.Prelude.{◌≡◌};
ghost use Rattle.gc_table.specs.Seats.{Across};
ghost use Rattle.seat_turns.specs.Tallying.{Tallies};
ghost use Rattle.seat_turns.specs.TracerTries.{TriesTurn};

use crate::background::Tracer;
use crate::tracer_turn::{go_round, goes_in, see_dismissals};
use gc_table::Heap;
use mark_core::Phase;

/// How a turn ended.
#[derive(Clone, Copy, Debug, PartialEq, Eq, Drop)]
pub enum TryTurn {
    /// A cycle is marking: it traced and cleaned a little, and there may be more to trace.
    Marked,
    /// No cycle is marking: there was nothing to do.
    Idle,
    /// A stop is under way: it turned back at once.
    Stopped,
    /// The world has dismissed its tracers.
    Dismissed,
    /// The heap is full, for good.
    Full,
}

impl Tracer {
    /// One turn for a thread without a runtime: it traces at most 64 objects if a cycle is marking, and passes at most
    /// 1,024 cards if that is far on. Between two turns its thread lets others run. Each answer has a bound of steps
    /// (`tried_steps`).
    pub fn try_turn(&mut self) -> TryTurn
        ensures turn { Across (TriesTurn result) self.old.seat self.new.seat }
        ensures tally { Across (Tallies self.old.traced self.new.traced) self.old.seat self.new.seat }
        ensures world { (self.new.heap ≡ self.old.heap) × (self.new.name ≡ self.old.name) }
    {
        let heap: &Heap = &self.heap;
        if see_dismissals(heap, &mut self.seat) != 0 {
            return TryTurn::Dismissed;
        }
        if !goes_in(heap, &mut self.seat) {
            return TryTurn::Stopped;
        }
        match go_round(heap, &mut self.seat, &mut self.traced) {
            Phase::Marking => TryTurn::Marked,
            Phase::Full => TryTurn::Full,
            _ => TryTurn::Idle,
        }
    }
}
