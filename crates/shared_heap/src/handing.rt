//! A mutator of a shared world in steps, for a thread that may not wait, and back.
ghost use Rattle.std.specs.Prelude.{IfErr, IfOk};
ghost use Rattle.shared_heap.specs.Handing.{IsHandedBack, IsOfSteps, IsInSteps};

use crate::mutator::{Place, SharedMutator};
use seat_steps::{RestingSeat, Stepper};

impl SharedMutator {
    /// The mutator in steps, outside the world.
    pub fn into_steps(self) -> Stepper
        ensures steps { IsInSteps self result }
    {
        let mut mutator = self;
        mutator.leave();
        Stepper::of_resting(RestingSeat {
            heap: mutator.heap,
            seat: mutator.seat,
            name: mutator.name,
            in_stops: false,
        })
    }

    /// The mutator that a stepper was, outside the world. The stepper is handed back if it collects, or its world
    /// doesn't share objects.
    pub fn of_steps(stepper: Stepper) -> Result<SharedMutator, Stepper>
        ensures ok { IfOk result (λ m. IsOfSteps stepper m) }
        ensures err { IfErr result (λ s. IsHandedBack stepper s) }
    {
        if !stepper.shares() {
            return Err(stepper);
        }
        match stepper.into_resting() {
            Err(stepper) => Err(stepper),
            Ok(resting) => Ok(SharedMutator {
                heap: resting.heap,
                seat: resting.seat,
                place: Place::Outside,
                name: resting.name,
            }),
        }
    }
}
