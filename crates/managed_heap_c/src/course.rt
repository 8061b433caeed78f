//! How far a mutator's collection is, and how much a tracer has traced.
ghost use Rattle.std.specs.Prelude.{◌≡◌, None};
ghost use Rattle.managed_heap_c.specs.Answering.{Answers, AnswersOnce};
ghost use Rattle.managed_heap_c.specs.Telling.{SparesCourse, TellsCourse, TellsTraced, TellsTracedOnce, course_of, number_of_stage};

use crate::asked::number_of;
use crate::handles::{MutatorHandle, TracerHandle};
use crate::hands::{Hand, TracerHand};
use crate::lending::{lend_hand, lend_tracer};
use crate::statuses::{GIVEN_BACK, IN_USE, OK};
use crate::using::{begins, begins_turn, ends, ends_turn};
use seat_steps::{Stage, Stepper};

/// How far the collection of a mutator is, as C reads it.
#[derive(Drop)]
#[repr(C)]
pub struct CCourse {
    pub stage: u32,
    /// 1 if it is to mark once more, otherwise 0.
    pub again: u32,
    /// 1 if it read last that a cycle is marking, otherwise 0.
    pub marking: u32,
    /// How many cells it has freed by its own sweep.
    pub freed: u32,
    /// How many cells in use it has counted.
    pub kept: u32,
    /// How many objects it has scanned again.
    pub rescanned: u32,
    /// 1 if it leaves no garbage, otherwise 0.
    pub exact: u32,
}

fn number_at(stage: Stage) -> u32
    ensures number { result ≡ number_of_stage stage }
{
    match stage {
        Stage::Outside => 0,
        Stage::Inside => 1,
        Stage::Stopping => 2,
        Stage::Rooting => 3,
        Stage::Draining => 4,
        Stage::Looking => 5,
        Stage::Cleaning => 6,
        Stage::Clearing => 7,
        Stage::Sweeping => 8,
        Stage::Counting => 9,
        Stage::Ending => 10,
        Stage::Parting => 11,
        Stage::Sharing => 12,
        Stage::Passing => 13,
        Stage::Emptying => 14,
        Stage::Closing => 15,
    }
}

fn course_now(stepper: &Stepper) -> CCourse
    ensures course { result ≡ course_of stepper.now }
{
    let counts = stepper.counts();
    CCourse {
        stage: number_at(stepper.stage()),
        again: number_of(stepper.is_to_mark_again()),
        marking: number_of(stepper.saw_marking()),
        freed: counts.freed,
        kept: counts.marked,
        rescanned: counts.rescanned,
        exact: number_of(stepper.is_exact()),
    }
}

fn course_by(hand: &mut Hand, out: &mut CCourse) -> u32
    ensures answers { Answers (TellsCourse out.new) result hand.old.stepper hand.new.stepper }
    ensures quiet { hand.old.stepper ≡ None → out.new ≡ out.old }
{
    match &mut hand.stepper {
        None => GIVEN_BACK,
        Some(stepper) => {
            *out = course_now(stepper);
            OK
        }
    }
}

fn traced_by(hand: &mut TracerHand, out: &mut u64) -> u32
    ensures tells { TellsTraced result hand.old.tracer hand.new.tracer out.old out.new }
{
    match &mut hand.tracer {
        None => GIVEN_BACK,
        Some(tracer) => {
            *out = tracer.traced();
            OK
        }
    }
}

/// Writes how far the mutator's collection is.
#[unsafe(no_mangle)]
pub extern "C" fn mhl_course(h: &mut MutatorHandle, out: &mut CCourse) -> u32
    ensures answers { AnswersOnce (TellsCourse out.new) result h.old.hand h.new.hand }
    ensures quiet { SparesCourse h.old.hand out.old out.new }
{
    let hand = lend_hand(h);
    if !begins(hand) {
        return IN_USE;
    }
    let answer = course_by(hand, out);
    ends(hand);
    answer
}

/// Writes how many objects the tracer has traced beside the mutators.
#[unsafe(no_mangle)]
pub extern "C" fn mhl_traced(h: &mut TracerHandle, out: &mut u64) -> u32
    ensures tells { TellsTracedOnce result h.old.hand h.new.hand out.old out.new }
{
    let hand = lend_tracer(h);
    if !begins_turn(hand) {
        return IN_USE;
    }
    let answer = traced_by(hand, out);
    ends_turn(hand);
    answer
}
