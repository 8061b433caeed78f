//! Weak references in a shared world.
ghost use Rattle.std.specs.Arc.{arc_value};
ghost use Rattle.std.specs.Prelude.{◌≡◌, IfErr, IfOk, IfSome};
ghost use Rattle.gc_table.specs.Seats.{Across};
ghost use Rattle.mutator_ops.specs.Few.{AtMost};
ghost use Rattle.mutator_ops.specs.Upgrading.{Upgrades};
ghost use Rattle.seat_turns.specs.Weak.{identity_of};
ghost use Rattle.shared_heap.specs.Calls.{ActRefused, SharerActs};
ghost use Rattle.shared_heap.specs.Deaths.{HasTaken, IsDeadToAll, IsToldDeath};
ghost use Rattle.shared_heap.specs.Wanting.{IsVariable, WantsObject};
ghost use Rattle.shared_heap.specs.Weak.{AsksForWeak, CanUpgrade, UpgradesTo};

use crate::mutator::{Place, SharedMutator};
use mark_core::VARIABLES;
use seat_turns::{Refused, Upgraded, Weak, upgrade_shared, weak_shared, word_of};

impl SharedMutator {
    /// A weak reference to variable v's object. What the mutator made itself it publishes first, so that others may
    /// find it. None if another mutator made the object and hasn't published it yet, which it does at the next stop at
    /// the latest: then nothing tells the object's death. Refused as Nil if the variable refers to nothing.
    pub fn weak(&mut self, v: u8) -> Result<Option<Weak>, Refused>
        ensures asks { IfOk result (λ weak. AsksForWeak v weak self.old self.new) }
        ensures taken { IfOk result (λ weak. IfSome weak (λ w. HasTaken w self.new)) }
        ensures refused { IfErr result (λ e. WantsObject e (IsVariable v) v self.old self.new) }
        ensures world { arc_value self.new.heap ≡ arc_value self.old.heap }
        ensures few { IfOk result (λ _. Across (AtMost 4) self.old.seat self.new.seat) }
    {
        if v >= VARIABLES {
            return Err(Refused::OutOfRange);
        }
        match self.place {
            Place::Outside => Err(Refused::Outside),
            Place::Inside => {
                if word_of(&self.seat, v) == 0 {
                    return Err(Refused::Nil);
                }
                Ok(weak_shared(&self.heap, &mut self.seat, self.name, v))
            }
        }
    }

    fn upgrade_here(&mut self, weak: Weak, v: u8) -> Result<bool, Refused>
        ensures upgrades { IfOk result (λ there. SharerActs (CanUpgrade self.old weak v) (Upgrades v weak.place (identity_of weak) there) self.old self.new) }
        ensures refused { IfErr result (λ e. ActRefused e (CanUpgrade self.old weak v) self.old self.new) }
        ensures world { arc_value self.new.heap ≡ arc_value self.old.heap }
        ensures few { IfOk result (λ _. Across (AtMost 3) self.old.seat self.new.seat) }
    {
        let shape = self.heap.shape();
        if v >= VARIABLES
            || weak.place >= shape.cells
            || weak.section >= shape.sections
            || weak.number >= shape.objects
        {
            return Err(Refused::OutOfRange);
        }
        match self.place {
            Place::Outside => Err(Refused::Outside),
            Place::Inside => Ok(upgrade_shared(&self.heap, &mut self.seat, weak, v)),
        }
    }

    /// Variable v refers to the weak reference's object, which keeps it, if the object is alive; else to nothing. To
    /// the mutator that took the weak reference `Dead` says that no path leads to the object from any mutator's variables
    /// or slots, nor ever will. In each later run it says so to all that came [`after`](SharedMutator::after) a stamp of
    /// that one ([`death_received`](crate::death_received)). So it never finds an object dead to which a path leads.
    pub fn upgrade(&mut self, weak: Weak, v: u8) -> Result<Upgraded, Refused>
        ensures upgrades { IfOk result (λ upgraded. UpgradesTo upgraded weak v self.old self.new) }
        ensures death { IfOk result (λ upgraded. IsToldDeath upgraded weak v self.old self.new) }
        ensures whoever { IfOk result (λ upgraded. IsDeadToAll upgraded weak self.old self.new) }
        ensures refused { IfErr result (λ e. ActRefused e (CanUpgrade self.old weak v) self.old self.new) }
        ensures world { arc_value self.new.heap ≡ arc_value self.old.heap }
        ensures few { IfOk result (λ _. Across (AtMost 3) self.old.seat self.new.seat) }
    {
        if weak.world != self.name {
            return Ok(Upgraded::OtherWorld);
        }
        match self.upgrade_here(weak, v) {
            Ok(true) => Ok(Upgraded::Alive),
            Ok(false) => Ok(Upgraded::Dead),
            Err(refused) => Err(refused),
        }
    }
}
