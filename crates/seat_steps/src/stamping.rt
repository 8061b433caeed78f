//! Which calls of which mutators came before.
ghost use Rattle.std.specs.Arc.{arc_value};
ghost use Rattle.std.specs.Prelude.{◌≡◌, IfErr, IfOk};
ghost use Rattle.seat_steps.specs.Stamping.{CollectsNow, ComesAfter, IsOfWorld, SeesTo, StampKept, Stamps};

use crate::came::Came;
use crate::stepper::{Stage, Stepper};
use gc_table::Stamp as HeapStamp;

/// What a mutator had done when the stamp was taken, and what came before that. It has no bytes but the world's name.
#[derive(Drop)]
pub struct Stamp {
    pub stamp: HeapStamp,
    pub world: u32,
}

impl Stepper {
    /// A stamp of all that the mutator has done, and of what it came [`after`](Stepper::after).
    pub fn stamp(&mut self) -> Result<Stamp, Came>
        ensures stamps { IfOk result (λ stamp. Stamps stamp self.old self.new) }
        ensures refused { IfErr result (λ came. CollectsNow came self.old self.new) }
    {
        match self.stage {
            Stage::Outside => Ok(Stamp {
                stamp: self.heap.take_stamp(&mut self.seat),
                world: self.name,
            }),
            Stage::Inside => Ok(Stamp {
                stamp: self.heap.take_stamp(&mut self.seat),
                world: self.name,
            }),
            _ => Err(Came::Collecting),
        }
    }

    /// From now on each step of the mutator comes behind all that the stamp's mutator had done, and behind all that that
    /// one came after, in the one order in which a plain heap explains them all (`gc_table::order_kept`). No object,
    /// variable or record changes. `OtherWorld` if the stamp is another world's.
    pub fn after(&mut self, stamp: &mut Stamp) -> Came
        requires same { IsOfWorld stamp.old self.old }
        ensures after { ComesAfter result stamp.old self.old self.new }
        ensures kept { StampKept stamp.old stamp.new }
    {
        if stamp.world != self.name {
            return Came::OtherWorld;
        }
        match self.stage {
            Stage::Outside => {
                let copy = self.heap.copy_stamp(&mut stamp.stamp);
                self.heap.learn(&mut self.seat, copy);
                Came::Done
            }
            Stage::Inside => {
                let copy = self.heap.copy_stamp(&mut stamp.stamp);
                self.heap.learn(&mut self.seat, copy);
                Came::Done
            }
            _ => Came::Collecting,
        }
    }

    /// From now on the mutator has seen all that had happened at a moment of this call, whoever did it. No object,
    /// variable or record changes.
    pub fn see_all(&mut self) -> Came
        ensures sees { SeesTo result self.old self.new }
    {
        match self.stage {
            Stage::Outside => {
                self.heap.see_all(&mut self.seat);
                Came::Done
            }
            Stage::Inside => {
                self.heap.see_all(&mut self.seat);
                Came::Done
            }
            _ => Came::Collecting,
        }
    }
}
