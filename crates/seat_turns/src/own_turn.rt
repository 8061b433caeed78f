//! Whether a mutator is at its turn.
ghost use Rattle.std.specs.Prelude.{◌≡◌, Some, IsTrue, is_some};
ghost use Rattle.std.specs.Bool.{OnFalse};
ghost use Rattle.gc_table.specs.Seats.{Across, Sits, state_of, view_of};
ghost use Rattle.gc_cycle.specs.Standing.{Mutates};
ghost use Rattle.seat_turns.specs.SeasonLooks.{LooksAtSeason, SeesOther};

use gc_table::{Heap, HeapSeat};

/// Whether the season is this turn. A seat that is inside knows it once it has read it, since it moves on only in a
/// stop.
#[inline(always)]
pub fn is_turn(heap: &Heap, seat: &mut HeapSeat, turn: u64) -> bool
    requires seat { Sits heap.now seat.old × Mutates (view_of seat.old) }
    ensures seat { Sits heap.now seat.new }
    ensures looks { Across LooksAtSeason seat.old seat.new }
    ensures known { IsTrue (is_some (state_of seat.old).season_seen) → view_of seat.new ≡ view_of seat.old }
    ensures turn { IsTrue result → (state_of seat.new).season_seen ≡ Some turn }
    ensures other { OnFalse result (SeesOther turn (view_of seat.new)) }
{
    match seat.state().season_seen {
        Some(season) => season == turn,
        None => heap.read_season(seat) == turn,
    }
}
