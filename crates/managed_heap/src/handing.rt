//! A mutator in steps, for a thread that may not wait, and back.
ghost use Rattle.std.specs.Arc.{arc_value};
ghost use Rattle.std.specs.Prelude.{◌≡◌, ◌⊎◌, IfErr, IfOk, IsFalse, IsTrue};
ghost use Rattle.gc_table.specs.Seats.{Across};
ghost use Rattle.managed_heap.specs.Calls.{LeavesFrom, heap_of};
ghost use Rattle.mutator_ops.specs.Few.{AtMost};
ghost use Rattle.managed_heap.specs.declared.mutator.Place.TheVariants as places;
ghost use Rattle.seat_steps.specs.Handing.{IsNewStepper, StopsFrom};
ghost use Rattle.seat_steps.specs.Stepping.{heap_of_stepper, is_collecting, shares};
ghost use Rattle.seat_steps.specs.declared.stepper.Stage.TheVariants as stages;

use crate::mutator::{Mutator, Place};
use seat_steps::{RestingSeat, Stepper};

impl Mutator {
    /// The mutator in steps, outside the world.
    pub fn into_steps(self) -> Stepper
        ensures outside { result.stage ≡ stages.Outside }
        ensures same { heap_of_stepper result ≡ heap_of self }
        ensures world { (arc_value result.heap ≡ arc_value self.heap) × (result.name ≡ self.name) }
        ensures owned { IsFalse (shares result) }
        ensures new { IsNewStepper result }
        ensures stops { result.in_stops ≡ self.in_stops }
        ensures rests { self.place ≡ places.Outside → result.seat ≡ self.seat }
        ensures leaves { LeavesFrom self.place self.seat result.seat }
    {
        let mut mutator = self;
        mutator.leave();
        Stepper::of_resting(RestingSeat {
            heap: mutator.heap,
            seat: mutator.seat,
            name: mutator.name,
            in_stops: mutator.in_stops,
        })
    }

    /// The mutator that a stepper was, outside the world. The stepper is handed back if it collects, or its world
    /// shares objects.
    pub fn of_steps(stepper: Stepper) -> Result<Mutator, Stepper>
        ensures ok { IfOk result (λ m. (m.place ≡ places.Outside) × (heap_of m ≡ heap_of_stepper stepper) × (arc_value m.heap ≡ arc_value stepper.heap) × (m.name ≡ stepper.name)) }
        ensures err { IfErr result (λ s. (IsTrue (is_collecting stepper.stage) ⊎ IsTrue (shares stepper)) × (s ≡ stepper)) }
        ensures few { IfOk result (λ m. Across (AtMost 5) stepper.seat m.seat) }
        ensures stopped { IfOk result (λ m. Across (StopsFrom stepper.stage) stepper.seat m.seat) }
        ensures stops { IfOk result (λ m. m.in_stops ≡ stepper.in_stops) }
    {
        if stepper.shares() {
            return Err(stepper);
        }
        match stepper.into_resting() {
            Err(stepper) => Err(stepper),
            Ok(resting) => Ok(Mutator {
                heap: resting.heap,
                seat: resting.seat,
                place: Place::Outside,
                name: resting.name,
                in_stops: resting.in_stops,
            }),
        }
    }
}
