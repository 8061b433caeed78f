//! What a call for a stamp does with the mutator behind a handle: that of the export of its name, or it answers
//! `GIVEN_BACK` if the handle is empty.
ghost use Rattle.managed_heap_c.specs.Answering.{Answers, SparesGone};
ghost use Rattle.managed_heap_c.specs.Stamping.{CatchesUp, StampsTo};

use crate::hands::Hand;
use crate::statuses::{GIVEN_BACK, OK, status};
use seat_steps::{Came, Stepper};

/// A stamp, as C has it: the name of its world.
#[derive(Drop)]
#[repr(C)]
pub struct CStamp {
    pub world: u32,
}

pub fn stamp_of_by(hand: &mut Hand, out: &mut CStamp) -> u32
    ensures answers { Answers (StampsTo out.new) result hand.old.stepper hand.new.stepper }
    ensures quiet { SparesGone hand.old.stepper out.old out.new }
{
    match &mut hand.stepper {
        None => GIVEN_BACK,
        Some(stepper) => {
            out.world = stepper.name();
            OK
        }
    }
}

fn catch_up(stepper: &mut Stepper, world: u32) -> Came
    ensures catches { CatchesUp world result stepper.old stepper.new }
{
    if world != stepper.name() {
        return Came::OtherWorld;
    }
    stepper.see_all()
}

pub fn after_by(hand: &mut Hand, stamp: &CStamp) -> u32
    ensures answers { Answers (CatchesUp stamp.now.world) result hand.old.stepper hand.new.stepper }
{
    match &mut hand.stepper {
        None => GIVEN_BACK,
        Some(stepper) => status(catch_up(stepper, stamp.world)),
    }
}
