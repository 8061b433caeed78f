//! What a seat may do, by how it stands to the world and to the phase.
ghost use Rattle.std.specs.Prelude.{◌≡◌, ◌&&◌};
ghost use Rattle.mark_core.specs.Seats.{phase_number as phase_number_of, phase_of as phase_of_word, is_phase as is_phase_of, saw as saw_phase, is_the as is_the_number, may_trace as may_trace_in, may_sweep as may_sweep_in, may_clear as may_clear_in, takes_part as takes_part_of, is_bare as is_bare_seat, has_turn as has_turn_of, may_mutate as may_mutate_of};
ghost use Rattle.mark_core.specs.declared.kinds.Phase.TheVariants.{Marking};

use crate::kinds::Phase;
use crate::seat::SeatState;

/// The number, 0 to 5, that stands for the phase in its word.
pub fn phase_number(phase: Phase) -> u64
    ensures { result ≡ phase_number_of phase }
{
    match phase {
        Phase::Idle => 0,
        Phase::Marking => 1,
        Phase::Drain => 2,
        Phase::Sweep => 3,
        Phase::Clear => 4,
        Phase::Full => 5,
    }
}

/// The phase that its word says. All numbers from 5 on say Full; none above 5 occurs.
pub fn phase_of(word: u64) -> Phase
    ensures { result ≡ phase_of_word word }
{
    match word {
        0 => Phase::Idle,
        1 => Phase::Marking,
        2 => Phase::Drain,
        3 => Phase::Sweep,
        4 => Phase::Clear,
        _ => Phase::Full,
    }
}

pub fn is_phase(word: u64, phase: Phase) -> bool
    ensures { result ≡ is_phase_of word phase }
{
    word == phase_number(phase)
}

pub fn saw(seen: Option<Phase>, phase: Phase) -> bool
    ensures { result ≡ saw_phase seen phase }
{
    match seen {
        None => false,
        Some(x) => phase_number(x) == phase_number(phase),
    }
}

pub fn is_the(held: Option<u32>, number: u32) -> bool
    ensures { result ≡ is_the_number held number }
{
    match held {
        None => false,
        Some(x) => x == number,
    }
}

pub fn may_trace(phase: u64, s: &SeatState) -> bool
    ensures { result ≡ may_trace_in phase s.now }
{
    s.active && saw(s.phase_seen, Phase::Marking)
        || s.knows && is_phase(phase, Phase::Drain)
        || s.admitted && saw(s.phase_seen, Phase::Drain)
}

pub fn may_sweep(phase: u64, s: &SeatState) -> bool
    ensures { result ≡ may_sweep_in phase s.now }
{
    s.knows && is_phase(phase, Phase::Sweep) || s.admitted && saw(s.phase_seen, Phase::Sweep)
}

pub fn may_clear(phase: u64, s: &SeatState) -> bool
    ensures { result ≡ may_clear_in phase s.now }
{
    s.knows && is_phase(phase, Phase::Clear)
}

/// Even seasons are the catalogue's turns, odd ones the warehouses'.
fn has_turn(section: Option<u32>, season: Option<u64>) -> bool
    ensures { result ≡ has_turn_of section season }
{
    match (section, season) {
        (Some(section), Some(season)) => season % 2 == if section == 0 { 0 } else { 1 },
        _ => false,
    }
}

impl SeatState {
    /// Whether the seat runs, or stopped the world, or helps.
    pub fn takes_part(&self) -> bool
        ensures { result ≡ takes_part_of self.now }
    {
        self.active || self.knows || self.admitted
    }

    /// Whether the seat is outside: not in the world's number, without a stop of its own, and not among the helpers.
    pub fn is_bare(&self) -> bool
        ensures { result ≡ is_bare_seat self.now }
    {
        !self.counted && !self.raised && !self.helping
    }

    /// Whether the seat is a mutator: active in its section's turn.
    pub fn may_mutate(&self) -> bool
        ensures { result ≡ may_mutate_of self.now }
    {
        self.active && has_turn(self.section, self.season_seen)
    }

    /// Whether the seat is active and has read that marking is under way.
    pub fn is_marking(&self) -> bool
        ensures { result ≡ (self.now.active && saw_phase self.now.phase_seen Marking) }
    {
        self.active && saw(self.phase_seen, Phase::Marking)
    }
}
