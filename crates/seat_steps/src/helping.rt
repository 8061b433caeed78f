//! A stepper that is turned back by a stop helps in it.
ghost use Rattle.std.specs.Prelude.{◌≡◌};
ghost use Rattle.seat_steps.specs.Helping.{HelpsOnce};
ghost use Rattle.seat_steps.specs.declared.stepper.Stage.TheVariants as stages;

use crate::came::Came;
use crate::stepper::{Stage, Stepper};
use gc_cycle::{help_turn, stretches_of};

impl Stepper {
    /// Helps in the stop of another, if that is open to helpers: traces at most `most` objects while it drains, or sweeps
    /// at most `most` blocks (one stretch at least) while it sweeps; 0 is out of range. The stepper is outside the world,
    /// and none of the helpers any more when the call ends.
    ///
    /// The stop waits for a call that is under way.
    pub fn help_step(&mut self, most: u32) -> Came
        ensures helps { HelpsOnce most result self.old self.new }
    {
        if most == 0 {
            return Came::OutOfRange;
        }
        match self.stage {
            Stage::Outside => self.help_outside(most),
            Stage::Inside => Came::Inside,
            _ => Came::Collecting,
        }
    }

    fn help_outside(&mut self, most: u32) -> Came
        requires outside { self.old.stage ≡ stages.Outside }
        ensures helps { HelpsOnce most result self.old self.new }
    {
        let stretches = stretches_of(&self.heap, most);
        match help_turn(&self.heap, &mut self.seat, most, stretches) {
            None => Came::NoHelp,
            Some(done) => {
                if done == 0 {
                    return Came::NoHelp;
                }
                Came::Done
            }
        }
    }
}
