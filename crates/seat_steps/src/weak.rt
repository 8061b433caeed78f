//! Weak references of a stepper, in a world whose mutators share objects.
ghost use Rattle.std.specs.Prelude.{IfErr, IfOk};
ghost use Rattle.mutator_ops.specs.Upgrading.{Upgrades};
ghost use Rattle.seat_turns.specs.Weak.{TakesWeakIn, identity_of};
ghost use Rattle.seat_steps.specs.Acting.{DeclinesToAct, IsVariable, StepperActs};
ghost use Rattle.seat_steps.specs.Received.{DeadWhoeverTook};
ghost use Rattle.seat_steps.specs.Taken.{HasTaken, UpgradeTellsDeath};
ghost use Rattle.seat_steps.specs.Weak.{CanUpgrade, HasNoWeak, UpgradesTo};

use crate::came::Came;
use crate::stepper::{Stage, Stepper};
use mark_core::VARIABLES;
use seat_turns::{Weak, upgrade_shared, weak_shared, word_of};

impl Stepper {
    /// A weak reference to variable v's object. What the mutator made itself it publishes first. `Unpublished` if another
    /// mutator made the object and hasn't published it yet, which it does at the next stop at the latest.
    pub fn weak(&mut self, v: u8) -> Result<Weak, Came>
        ensures takes { IfOk result (λ weak. StepperActs (IsVariable v) 4 (TakesWeakIn self.old.name v weak) self.old self.new) }
        ensures taken { IfOk result (λ weak. HasTaken weak self.new) }
        ensures refused { IfErr result (λ came. HasNoWeak came v self.old self.new) }
    {
        if !self.shares() {
            return Err(Came::NotShared);
        }
        if v >= VARIABLES {
            return Err(Came::OutOfRange);
        }
        match self.stage {
            Stage::Outside => Err(Came::Outside),
            Stage::Inside => {
                if word_of(&self.seat, v) == 0 {
                    return Err(Came::Nil);
                }
                match weak_shared(&self.heap, &mut self.seat, self.name, v) {
                    Some(weak) => Ok(weak),
                    None => Err(Came::Unpublished),
                }
            }
            _ => Err(Came::Collecting),
        }
    }

    fn upgrade_here(&mut self, weak: Weak, v: u8) -> Result<bool, Came>
        ensures upgrades { IfOk result (λ there. StepperActs (CanUpgrade self.old weak v) 3 (Upgrades v weak.place (identity_of weak) there) self.old self.new) }
        ensures refused { IfErr result (λ came. DeclinesToAct came (CanUpgrade self.old weak v) self.old self.new) }
    {
        if !self.shares() {
            return Err(Came::NotShared);
        }
        let shape = self.heap.shape();
        if v >= VARIABLES
            || weak.place >= shape.cells
            || weak.section >= shape.sections
            || weak.number >= shape.objects
        {
            return Err(Came::OutOfRange);
        }
        match self.stage {
            Stage::Outside => Err(Came::Outside),
            Stage::Inside => Ok(upgrade_shared(&self.heap, &mut self.seat, weak, v)),
            _ => Err(Came::Collecting),
        }
    }

    /// Variable v refers to the weak reference's object, which keeps it, if the object is alive. `Dead` if no path leads
    /// to it any more; then variable v refers to nothing. To the mutator that took the weak reference `Dead` says that no
    /// path leads to the object from any mutator's variables or slots, nor ever will. In each later run it says so to all
    /// that came [`after`](Stepper::after) a stamp of that one ([`death_received`](crate::death_received)).
    pub fn upgrade(&mut self, weak: Weak, v: u8) -> Came
        ensures upgrades { UpgradesTo result weak v self.old self.new }
        ensures told { UpgradeTellsDeath result weak v self.old self.new }
        ensures whoever { DeadWhoeverTook result weak self.old self.new }
    {
        if weak.world != self.name {
            return Came::OtherWorld;
        }
        match self.upgrade_here(weak, v) {
            Ok(true) => Came::Done,
            Ok(false) => Came::Dead,
            Err(came) => came,
        }
    }
}
