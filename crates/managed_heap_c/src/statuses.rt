//! What a call answers to C: the numbers of `mh_status`.
ghost use Rattle.std.specs.Prelude.{◌≡◌};
ghost use Rattle.managed_heap_c.specs.Answering.{status_of_came};
ghost use Rattle.managed_heap_c.specs.Tracers.{status_of_help, status_of_turn};

use seat_steps::Came;
use seat_turns::{TryHelp, TryTurn};

pub const OK: u32 = 0;

/// A stop is under way.
pub const STOPPED: u32 = 2;

/// The mutator is between two steps of a collection.
pub const COLLECTING: u32 = 5;

pub const OUT_OF_RANGE: u32 = 6;

pub const OUT_OF_MEMORY: u32 = 10;

/// The handle was given back, or the world closed.
pub const GIVEN_BACK: u32 = 11;

/// A call of another thread uses the handle.
pub const IN_USE: u32 = 12;

/// All mutators, or all tracers, are taken.
pub const NONE_LEFT: u32 = 13;

/// The world doesn't take the mutator or the tracer back.
pub const REFUSED: u32 = 14;

/// Not all mutators and tracers are back.
pub const STILL_LENT: u32 = 17;

/// The number of what a mutator's call came to.
pub fn status(came: Came) -> u32
    ensures number { result ≡ status_of_came came }
{
    match came {
        Came::Done => 0,
        Came::NotYet => 1,
        Came::Stopped => 2,
        Came::NoCell => 3,
        Came::Outside => 4,
        Came::Collecting => 5,
        Came::OutOfRange => 6,
        Came::Nil => 7,
        Came::Full => 8,
        Came::Spent => 9,
        Came::NotShared => 19,
        Came::NoCache => 20,
        Came::Dead => 21,
        Came::Unpublished => 22,
        Came::OtherWorld => 14,
        Came::Inside => 23,
        Came::NoHelp => 24,
    }
}

/// The number of what a tracer's turn came to.
pub fn turn_status(tried: TryTurn) -> u32
    ensures number { result ≡ status_of_turn tried }
{
    match tried {
        TryTurn::Marked => 0,
        TryTurn::Stopped => 2,
        TryTurn::Full => 8,
        TryTurn::Idle => 15,
        TryTurn::Dismissed => 16,
    }
}

/// The number of what a tracer's step of help came to.
pub fn help_status(helped: TryHelp) -> u32
    ensures number { result ≡ status_of_help helped }
{
    match helped {
        TryHelp::Helped => 0,
        TryHelp::OutOfRange => 6,
        TryHelp::NoHelp => 24,
    }
}
