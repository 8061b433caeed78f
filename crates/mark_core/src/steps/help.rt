//! The steps of help: the seat that stopped the world admits helpers.
ghost use Rattle.std.specs.Prelude.{◌≡◌};
ghost use Rattle.mark_core.specs.Steps.HelpSteps.{open_parts, open_effect, join_help_parts, join_help_effect, leave_help_parts, leave_help_effect, close_parts, close_effect, see_help_effect};
ghost use Rattle.mark_core.specs.Steps.{first_false as first_false_of};

use crate::failing_part::first_false;
use crate::kinds::{Phase, Shape};
use crate::seat::SeatState;
use crate::standing::is_phase;
use crate::{bits, hand};

pub fn check_open(phase: u64, s: &SeatState) -> Option<u8>
    ensures { result ≡ first_false_of 1 (open_parts phase s.now) }
{
    first_false(&[
        s.knows && !s.opened,
        is_phase(phase, Phase::Drain) || is_phase(phase, Phase::Sweep),
    ])
}

pub fn open_help(s: &mut SeatState, old: u64) -> u64
    ensures word { result ≡ (open_effect s.old).written old }
    ensures seat { s.new ≡ (open_effect s.old).seat old }
{
    s.opened = true;
    s.alone = false;
    old | bits::FLAG
}

pub fn check_join_help(s: &SeatState) -> Option<u8>
    ensures { result ≡ first_false_of 1 (join_help_parts s.now) }
{
    first_false(&[s.is_bare()])
}

pub fn join_help(s: &mut SeatState, old: u64) -> u64
    ensures word { result ≡ (join_help_effect s.old).written old }
    ensures seat { s.new ≡ (join_help_effect s.old).seat old }
{
    s.helping = true;
    s.admitted = bits::has_flag(old);
    old.wrapping_add(1)
}

/// Otherwise what a helper kept in hand would be hidden from the seat that waits until none is left.
pub fn check_leave_help(shape: &Shape, s: &SeatState) -> Option<u8>
    ensures { result ≡ first_false_of 1 (leave_help_parts shape.now s.now) }
{
    first_false(&[
        s.helping,
        s.empty_handed(),
        !s.work_in_hand(shape.fields) && s.block.is_none(),
    ])
}

pub fn leave_help(s: &mut SeatState, old: u64) -> u64
    ensures word { result ≡ (leave_help_effect s.old).written old }
    ensures seat { s.new ≡ (leave_help_effect s.old).seat old }
{
    s.helping = false;
    s.admitted = false;
    s.phase_seen = None;
    old.wrapping_sub(1)
}

pub fn check_close(s: &SeatState) -> Option<u8>
    ensures { result ≡ first_false_of 1 (close_parts s.now) }
{
    first_false(&[s.opened])
}

pub fn close_help(s: &mut SeatState, old: u64) -> u64
    ensures word { result ≡ (close_effect s.old).written old }
    ensures seat { s.new ≡ (close_effect s.old).seat old }
{
    s.opened = false;
    old.wrapping_sub(bits::FLAG)
}

pub fn see_help(s: &mut SeatState, old: u64) -> u64
    ensures word { result ≡ (see_help_effect s.old).written old }
    ensures seat { s.new ≡ (see_help_effect s.old).seat old }
{
    s.alone = s.alone || s.knows && !s.opened && old == 0;
    old
}
