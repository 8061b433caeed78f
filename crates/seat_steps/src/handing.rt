//! A stepper is made of a resting seat, and comes apart into one.
ghost use Rattle.std.specs.Prelude.{◌≡◌, IfErr, IfOk};
ghost use Rattle.seat_steps.specs.Handing.{HasStopped, IsHandedBack, IsSteppedBy};
ghost use Rattle.seat_steps.specs.Stepping.{fields_in, shares as is_shared};

use crate::resting::RestingSeat;
use crate::stepper::{Stage, Stepper};
use seat_turns::leave_flushed;

impl Stepper {
    /// A stepper with this seat, outside the world.
    pub fn of_resting(resting: RestingSeat) -> Stepper
        ensures stepped { IsSteppedBy resting result }
    {
        Stepper {
            heap: resting.heap,
            seat: resting.seat,
            stage: Stage::Outside,
            name: resting.name,
            in_stops: resting.in_stops,
            precise: false,
            exact: false,
            again: false,
            shared: false,
            freed: 0,
            traced: 0,
            cleaned: 0,
            rescanned: 0,
            paid: 0,
            next: 0,
            counted: 0,
            block: 0,
            seen: 0,
        }
    }

    /// Its seat, which leaves the world first. A stepper that collects is handed back.
    pub fn into_resting(self) -> Result<RestingSeat, Stepper>
        ensures ok { IfOk result (λ r. HasStopped self r) }
        ensures err { IfErr result (λ s. IsHandedBack self s) }
    {
        match self.stage {
            Stage::Outside => Ok(RestingSeat {
                heap: self.heap,
                seat: self.seat,
                name: self.name,
                in_stops: self.in_stops,
            }),
            Stage::Inside => {
                let mut seat = self.seat;
                leave_flushed(&self.heap, &mut seat);
                Ok(RestingSeat {
                    heap: self.heap,
                    seat,
                    name: self.name,
                    in_stops: self.in_stops,
                })
            }
            _ => Err(self),
        }
    }

    /// Whether the mutators of its world share their objects.
    pub fn shares(&self) -> bool
        ensures shares { result ≡ is_shared self.now }
    {
        self.heap.shape().sharing
    }

    /// How many references each object of its world has.
    pub fn fields(&self) -> u32
        ensures fields { result ≡ fields_in self.now }
    {
        self.heap.shape().fields
    }

    /// The name of the world that lends it.
    pub fn name(&self) -> u32
        ensures name { result ≡ self.now.name }
    {
        self.name
    }
}
