//! What lies behind a handle. A mutator and a tracer write there with each call, so what lies behind a handle has 128
//! unused bytes on each side, wherever it is allocated: it shares no line of the processor's cache, nor two lines that
//! are fetched together, with anything else.
ghost use Rattle.std.specs.Prelude.{IsFalse, IsNone};

use managed_heap::World;
use seat_steps::Stepper;
use seat_turns::Tracer;
use shared_heap::SharedWorld;

/// A mutator, or none if it was given back.
#[derive(Drop)]
#[repr(C)]
pub struct Hand {
    before: [u64; 16],
    pub stepper: Option<Stepper>,
    /// A call uses it.
    pub busy: bool,
    after: [u64; 16],
}

impl Hand {
    /// One that has no mutator, and that no call uses.
    pub fn empty() -> Hand
        ensures none { IsNone result.stepper }
        ensures rests { IsFalse result.busy }
    {
        Hand {
            before: [0; 16],
            stepper: None,
            busy: false,
            after: [0; 16],
        }
    }
}

/// A tracer, or none if it was given back.
#[derive(Drop)]
#[repr(C)]
pub struct TracerHand {
    before: [u64; 16],
    pub tracer: Option<Tracer>,
    /// A call uses it.
    pub busy: bool,
    after: [u64; 16],
}

impl TracerHand {
    /// One that has no tracer, and that no call uses.
    pub fn empty() -> TracerHand
        ensures none { IsNone result.tracer }
        ensures rests { IsFalse result.busy }
    {
        TracerHand {
            before: [0; 16],
            tracer: None,
            busy: false,
            after: [0; 16],
        }
    }
}

/// A world of either kind.
#[derive(Drop)]
pub enum AnyWorld {
    /// Each mutator has objects of its own.
    Owned(World),
    /// The mutators share all objects.
    Shared(SharedWorld),
}

/// A world, or none if it was closed.
#[derive(Drop)]
pub struct Whole {
    pub world: Option<AnyWorld>,
}
