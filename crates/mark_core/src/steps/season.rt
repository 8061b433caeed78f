//! The steps of the season, which says whose turn it is: the catalogue's or the warehouses'.
ghost use Rattle.std.specs.Prelude.{◌≡◌};
ghost use Rattle.mark_core.specs.Bits.{wrapped_sum};
ghost use Rattle.mark_core.specs.Steps.HelpSteps.{read_season_parts, read_season_effect, next_season_parts};
ghost use Rattle.mark_core.specs.Steps.{first_false as first_false_of};

use crate::failing_part::first_false;
use crate::kinds::Phase;
use crate::seat::SeatState;
use crate::standing::is_phase;

/// Otherwise the season could move on under the seat.
pub fn check_read_season(s: &SeatState) -> Option<u8>
    ensures { result ≡ first_false_of 1 (read_season_parts s.now) }
{
    first_false(&[s.active])
}

pub fn read_season(s: &mut SeatState, old: u64) -> u64
    ensures word { result ≡ (read_season_effect s.old).written old }
    ensures seat { s.new ≡ (read_season_effect s.old).seat old }
{
    s.season_seen = Some(old);
    old
}

/// Otherwise a seat that runs would be in a turn that has ended.
pub fn check_next_season(phase: u64, season: u64, s: &SeatState) -> Option<u8>
    ensures { result ≡ first_false_of 1 (next_season_parts phase season s.now) }
{
    first_false(&[s.knows, is_phase(phase, Phase::Idle), season < 128])
}

pub fn next_season(old: u64) -> u64
    ensures { result ≡ wrapped_sum old 1 }
{
    old.wrapping_add(1)
}
