//! A tracer that finds a stop under way helps in it.
ghost use Rattle.seat_turns.specs.TracerHelps.{TracerHelps};

use crate::background::Tracer;
use gc_cycle::{help_turn, stretches_of};

/// How a step of help ended.
#[derive(Clone, Copy, Debug, PartialEq, Eq, Drop)]
pub enum TryHelp {
    /// It did some of the work of a stop.
    Helped,
    /// No stop was open to helpers, or nothing was left to do in it.
    NoHelp,
    /// It was to do nothing at most, which is out of range.
    OutOfRange,
}

impl Tracer {
    /// A step of help for a thread without a runtime, after a turn that was answered `Stopped`: if the stop is open to
    /// helpers it traces at most `most` objects while that drains, or sweeps at most `most` blocks (one stretch at least)
    /// while it sweeps; 0 is out of range. It is none of the helpers any more when the call ends. What it traces so isn't
    /// counted by [`Tracer::traced`].
    ///
    /// The stop waits for a call that is under way.
    pub fn help_step(&mut self, most: u32) -> TryHelp
        ensures helps { TracerHelps most result self.old self.new }
    {
        if most == 0 {
            return TryHelp::OutOfRange;
        }
        let stretches = stretches_of(&self.heap, most);
        match help_turn(&self.heap, &mut self.seat, most, stretches) {
            None => TryHelp::NoHelp,
            Some(done) => {
                if done == 0 {
                    return TryHelp::NoHelp;
                }
                TryHelp::Helped
            }
        }
    }
}
