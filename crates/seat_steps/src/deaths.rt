//! Whether the object of a weak reference is dead, for tables of many: no variable gets what is alive, and of what is
//! dead nothing is stored.
ghost use Rattle.std.specs.Prelude.{◌≡◌, ◌<◌, IfErr, IfOk, IsTrue};
ghost use Rattle.mark_core.specs.Numbers.{section_variables};
ghost use Rattle.gc_table.specs.Seats.{Across};
ghost use Rattle.mutator_ops.specs.Few.{AtMost};
ghost use Rattle.seat_turns.specs.Standing.{HoldsTurn};
ghost use Rattle.seat_turns.specs.Weak.{identity_of};
ghost use Rattle.seat_steps.specs.Acting.{DeclinesToAct, StepperActs};
ghost use Rattle.seat_steps.specs.Deaths.{AsksFor, AsksTo};
ghost use Rattle.seat_steps.specs.Received.{DeadWhoeverTook};
ghost use Rattle.seat_steps.specs.Taken.{AskingTellsDeath};
ghost use Rattle.seat_steps.specs.Weak.{CanUpgrade};

use crate::came::Came;
use crate::stepper::{Stage, Stepper};
use gc_table::{Heap, HeapSeat};
use mark_core::{Cell, VARIABLES};
use seat_turns::Weak;

/// The objects that a mutator may number.
const SPAN: u64 = 4_294_967_296;

fn identity_in(weak: Weak) -> u64
    ensures identity { result ≡ identity_of weak }
{
    u64::from(weak.section) * SPAN + u64::from(weak.number)
}

fn asks_for(heap: &Heap, seat: &mut HeapSeat, v: u8, c: Cell, identity: u64) -> bool
    requires turn { HoldsTurn heap.now seat.old }
    requires shared { IsTrue heap.now.shape.sharing }
    requires range { (v < section_variables) × (c < heap.now.shape.cells) }
    ensures turn { HoldsTurn heap.now seat.new }
    ensures asks { Across (AsksFor v c identity result) seat.old seat.new }
    ensures few { Across (AtMost 3) seat.old seat.new }
{
    heap.read_weak(seat, c);
    let reference = seat.state().got;
    if reference == 0 {
        return false;
    }
    let found = heap.read_ident(seat, c);
    heap.hold_root(seat, v, 0);
    found == identity
}

impl Stepper {
    fn death_here(&mut self, weak: Weak, v: u8) -> Result<bool, Came>
        ensures asks { IfOk result (λ there. StepperActs (CanUpgrade self.old weak v) 3 (AsksFor v weak.place (identity_of weak) there) self.old self.new) }
        ensures refused { IfErr result (λ came. DeclinesToAct came (CanUpgrade self.old weak v) self.old self.new) }
    {
        if !self.shares() {
            return Err(Came::NotShared);
        }
        let shape = self.heap.shape();
        if v >= VARIABLES
            || weak.place >= shape.cells
            || weak.section >= shape.sections
            || weak.number >= shape.objects
        {
            return Err(Came::OutOfRange);
        }
        match self.stage {
            Stage::Outside => Err(Came::Outside),
            Stage::Inside => Ok(asks_for(
                &self.heap,
                &mut self.seat,
                v,
                Cell::make(weak.place),
                identity_in(weak),
            )),
            _ => Err(Came::Collecting),
        }
    }

    /// `Done` if the weak reference's object is alive, and `Dead` if no path leads to it any more. Variable v refers to
    /// nothing afterwards, or to what it did if the object's cell is free. `Dead` says the same, and
    /// to the same mutators, as that of [`upgrade`](Stepper::upgrade).
    pub fn death(&mut self, weak: Weak, v: u8) -> Came
        ensures asks { AsksTo result weak v self.old self.new }
        ensures told { AskingTellsDeath result weak v self.old self.new }
        ensures whoever { DeadWhoeverTook result weak self.old self.new }
    {
        if weak.world != self.name {
            return Came::OtherWorld;
        }
        match self.death_here(weak, v) {
            Ok(true) => Came::Done,
            Ok(false) => Came::Dead,
            Err(came) => came,
        }
    }
}
