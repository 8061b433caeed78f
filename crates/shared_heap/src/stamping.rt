//! Which calls of which mutators came before.
ghost use Rattle.std.specs.Arc.{arc_value};
ghost use Rattle.std.specs.Bool.{OnFalse, OnTrue};
ghost use Rattle.std.specs.Prelude.{◌≡◌};
ghost use Rattle.seat_steps.specs.Stamping.{StampKept};
ghost use Rattle.shared_heap.specs.Stamping.{GoesOnFrom, IsOfWorld, IsOther, Stamps};

use crate::mutator::SharedMutator;
use seat_steps::Stamp;

impl SharedMutator {
    /// A stamp of all that the mutator has done, and of what it came [`after`](SharedMutator::after).
    pub fn stamp(&mut self) -> Stamp
        ensures stamps { Stamps result self.old self.new }
        ensures world { arc_value self.new.heap ≡ arc_value self.old.heap }
    {
        Stamp {
            stamp: self.heap.take_stamp(&mut self.seat),
            world: self.name,
        }
    }

    /// From now on each step of the mutator comes behind all that the stamp's mutator had done, and behind all that that
    /// one came after, in the one order in which a plain heap explains them all ([`calls_in_order`](crate::calls_in_order)).
    /// No object, variable or record changes. False: the stamp is another world's, and nothing is changed.
    pub fn after(&mut self, stamp: &mut Stamp) -> bool
        requires same { IsOfWorld stamp.old self.old }
        ensures after { OnTrue result (GoesOnFrom stamp.old self.old self.new) }
        ensures refused { OnFalse result (IsOther stamp.old self.old self.new) }
        ensures kept { StampKept stamp.old stamp.new }
        ensures world { arc_value self.new.heap ≡ arc_value self.old.heap }
    {
        if stamp.world != self.name {
            return false;
        }
        let copy = self.heap.copy_stamp(&mut stamp.stamp);
        self.heap.learn(&mut self.seat, copy);
        true
    }
}
