//! The steps that stop and resume the world, and split and join seats.
ghost use Rattle.std.specs.Prelude.{◌≡◌, ◌==◌, slice_get};
ghost use Rattle.std.specs.List.{list_all};
ghost use Rattle.mark_core.specs.Steps.WorldSteps.{enter_parts, enter_effect, leave_parts, leave_effect, raise_parts, raise_effect, observe_effect, drop_parts, drop_effect, split_parts, join_parts};
ghost use Rattle.mark_core.specs.Steps.WorldSteps.{is_stopped as is_stopped_word, is_plain_standing as is_plain_standing_of, has_nothing as has_nothing_of, is_new as is_new_of, may_be_joined as may_be_joined_of, other_has_nothing as other_has_nothing_of};
ghost use Rattle.mark_core.specs.Steps.{first_false as first_false_of};

use crate::failing_part::first_false;
use crate::kinds::{Phase, Shape};
use crate::numbers::SEATS;
use crate::seat::SeatState;
use crate::standing::is_phase;
use crate::{bits, hand};

pub fn check_enter(s: &SeatState) -> Option<u8>
    ensures { result ≡ first_false_of 1 (enter_parts s.now) }
{
    first_false(&[s.is_bare()])
}

pub fn enter(s: &mut SeatState, old: u64) -> u64
    ensures word { result ≡ (enter_effect s.old).written old }
    ensures seat { s.new ≡ (enter_effect s.old).seat old }
{
    s.counted = true;
    s.active = !bits::has_flag(old);
    s.season_seen = None;
    old.wrapping_add(1)
}

/// Otherwise what a seat kept in hand would be hidden from the stop that waits until it has left.
pub fn check_leave(shape: &Shape, s: &SeatState) -> Option<u8>
    ensures { result ≡ first_false_of 1 (leave_parts shape.now s.now) }
{
    first_false(&[
        s.counted,
        s.empty_handed(),
        !s.work_in_hand(shape.fields),
        s.owes.is_none() && s.cache.is_none() && s.got == 0 && s.lags == 0,
    ])
}

pub fn leave(s: &mut SeatState, old: u64) -> u64
    ensures word { result ≡ (leave_effect s.old).written old }
    ensures seat { s.new ≡ (leave_effect s.old).seat old }
{
    s.counted = false;
    s.active = false;
    s.phase_seen = None;
    s.season_seen = None;
    old.wrapping_sub(1)
}

/// Otherwise a seat that is counted would wait for itself.
pub fn check_raise(s: &SeatState) -> Option<u8>
    ensures { result ≡ first_false_of 1 (raise_parts s.now) }
{
    first_false(&[s.is_bare()])
}

pub fn raise(s: &mut SeatState, old: u64) -> u64
    ensures word { result ≡ (raise_effect s.old).written old }
    ensures seat { s.new ≡ (raise_effect s.old).seat old }
{
    s.raised = !bits::has_flag(old);
    old | bits::FLAG
}

fn is_stopped(word: u64) -> bool
    ensures { result ≡ is_stopped_word word }
{
    word == bits::FLAG
}

pub fn observe(s: &mut SeatState, old: u64) -> u64
    ensures word { result ≡ (observe_effect s.old).written old }
    ensures seat { s.new ≡ (observe_effect s.old).seat old }
{
    let learns = s.raised && is_stopped(old);
    s.alone = s.alone || learns && !s.knows;
    s.knows = s.knows || learns;
    old
}

/// Otherwise mutators would run beside a helper, or in a phase that rests on a stop.
pub fn check_drop(shape: &Shape, phase: u64, s: &SeatState) -> Option<u8>
    ensures { result ≡ first_false_of 1 (drop_parts shape.now phase s.now) }
{
    first_false(&[
        s.knows,
        s.empty_handed() && !s.work_in_hand(shape.fields) && s.block.is_none(),
        is_phase(phase, Phase::Idle) || is_phase(phase, Phase::Full),
        s.alone,
    ])
}

/// The seat is active in the same step, so that no other stop comes between.
pub fn drop_flag(s: &mut SeatState, old: u64) -> u64
    ensures word { result ≡ (drop_effect s.old).written old }
    ensures seat { s.new ≡ (drop_effect s.old).seat old }
{
    s.raised = false;
    s.knows = false;
    s.exact = false;
    s.alone = false;
    s.counted = true;
    s.active = true;
    s.phase_seen = None;
    s.season_seen = None;
    old.wrapping_sub(bits::FLAG - 1)
}

fn is_plain_standing(s: &SeatState) -> bool
    ensures { result ≡ is_plain_standing_of s.now }
{
    s.is_bare()
        && !s.active
        && !s.knows
        && !s.admitted
        && !s.opened
        && !s.alone
        && !s.exact
        && !s.spent
}

fn has_nothing(shape: &Shape, s: &SeatState) -> bool
    ensures { result ≡ has_nothing_of shape.now s.now }
{
    s.empty_handed()
        && !s.work_in_hand(shape.fields)
        && s.owes.is_none()
        && s.cache.is_none()
        && s.block.is_none()
        && (s.got == 0 && s.lags == 0)
}

fn is_nil_throughout(env: &[u32]) -> bool
    ensures { result ≡ list_all (λ x. x == 0) env.now }
{
    env.iter().all(|x| *x == 0)
}

fn is_new(shape: &Shape, s: &SeatState) -> bool
    ensures { result ≡ is_new_of shape.now s.now }
{
    is_plain_standing(s)
        && has_nothing(shape, s)
        && s.phase_seen.is_none()
        && s.season_seen.is_none()
        && s.scan.is_none()
        && s.cleaning.is_none()
        && is_nil_throughout(&s.env)
        && s.made == 0
        && !s.below_card
        && !s.below_block
}

/// All seats are made before the first does anything.
pub fn check_split(shape: &Shape, seats: &[SeatState], s: &SeatState) -> Option<u8>
    ensures { result ≡ first_false_of 1 (split_parts shape.now seats.now s.now) }
{
    first_false(&[s.number == 0 && is_new(shape, s) && seats.len() < SEATS as usize])
}

fn may_be_joined(seats: &[SeatState], other: u32) -> bool
    ensures { result ≡ may_be_joined_of (slice_get seats.now other) }
{
    match seats.get(other as usize) {
        None => false,
        Some(o) => !o.spent && o.is_bare(),
    }
}

fn other_has_nothing(shape: &Shape, seats: &[SeatState], other: u32) -> bool
    ensures { result ≡ other_has_nothing_of shape.now (slice_get seats.now other) }
{
    match seats.get(other as usize) {
        None => false,
        Some(o) => has_nothing(shape, o),
    }
}

/// Otherwise what the other seat had in hand would be lost with its record.
pub fn check_join(shape: &Shape, seats: &[SeatState], s: &SeatState, other: u32) -> Option<u8>
    ensures { result ≡ first_false_of 1 (join_parts shape.now seats.now s.now other) }
{
    first_false(&[
        !(other == s.number) && may_be_joined(seats, other) && s.is_bare(),
        has_nothing(shape, s) && other_has_nothing(shape, seats, other),
    ])
}
