//! What a stepper does to objects.
ghost use Rattle.std.specs.Prelude.{◌≡◌, ◌<◌};
ghost use Rattle.mark_core.specs.Numbers.{section_variables};
ghost use Rattle.plain_heap.specs.declared.operation.Op.TheVariants as ops;
ghost use Rattle.seat_steps.specs.Payments.{PaysMaking};
ghost use Rattle.seat_steps.specs.Stepping.{Entered, Left, StepperMakes, Operates, Passed, ReadsValue};
ghost use Rattle.seat_steps.specs.declared.stepper.Stage.TheVariants as stages;

use crate::came::Came;
use crate::getting::make_once;
use crate::operations::{copies, finds, forgets, gets, puts, sets};
use crate::stepper::{Stage, Stepper};
use crate::tries::{enter_once, pass_once};
use mark_core::VARIABLES;
use seat_turns::leave_flushed;

impl Stepper {
    /// Enters the world, if no stop is under way.
    pub fn enter(&mut self) -> Came
        ensures entered { Entered result self.old self.new }
    {
        match self.stage {
            Stage::Inside => Came::Done,
            Stage::Outside => self.enter_from_outside(),
            _ => Came::Collecting,
        }
    }

    fn enter_from_outside(&mut self) -> Came
        requires outside { self.old.stage ≡ stages.Outside }
        ensures entered { Entered result self.old self.new }
    {
        match enter_once(&self.heap, &mut self.seat) {
            Came::Done => {
                self.stage = Stage::Inside;
                Came::Done
            }
            other => other,
        }
    }

    /// Leaves the world, if it is inside. What its variables refer to is kept.
    pub fn leave(&mut self) -> Came
        ensures left { Left result self.old self.new }
    {
        match self.stage {
            Stage::Outside => Came::Done,
            Stage::Inside => {
                leave_flushed(&self.heap, &mut self.seat);
                self.stage = Stage::Outside;
                Came::Done
            }
            _ => Came::Collecting,
        }
    }

    /// A safe point. If a stop is under way it leaves.
    pub fn safe_point(&mut self) -> Came
        ensures passed { Passed result self.old self.new }
    {
        match self.stage {
            Stage::Outside => Came::Outside,
            Stage::Inside => self.pass_inside(),
            _ => Came::Collecting,
        }
    }

    fn pass_inside(&mut self) -> Came
        requires inside { self.old.stage ≡ stages.Inside }
        ensures passed { Passed result self.old self.new }
    {
        match pass_once(&self.heap, &mut self.seat) {
            Came::Done => Came::Done,
            other => {
                self.stage = Stage::Outside;
                other
            }
        }
    }

    /// A safe point, and then variable v refers to a new object with this value, whose references refer to nothing. If
    /// no cell of its cache is free it may look at all blocks and pay for another cache: `make_cached` and `refill_step`
    /// do so in steps.
    pub fn make(&mut self, v: u8, value: u32) -> Came
        ensures makes { StepperMakes result (ops.New v value) self.old self.new }
        ensures pays { PaysMaking self.old self.new }
    {
        if v >= VARIABLES {
            return Came::OutOfRange;
        }
        match self.stage {
            Stage::Outside => Came::Outside,
            Stage::Inside => self.make_inside(v, value),
            _ => Came::Collecting,
        }
    }

    fn make_inside(&mut self, v: u8, value: u32) -> Came
        requires inside { self.old.stage ≡ stages.Inside }
        requires range { v < section_variables }
        ensures makes { StepperMakes result (ops.New v value) self.old self.new }
        ensures pays { PaysMaking self.old self.new }
    {
        if self.seat.state().made >= self.heap.shape().objects {
            return Came::Spent;
        }
        match make_once(&self.heap, &mut self.seat, &mut self.paid, v, value) {
            Came::Done => Came::Done,
            Came::NoCell => Came::NoCell,
            other => {
                self.stage = Stage::Outside;
                other
            }
        }
    }

    /// Reference i of variable v's object becomes what variable w refers to. Nothing happens if v refers to nothing.
    pub fn set(&mut self, v: u8, i: u8, w: u8) -> Came
        ensures operates { Operates result (ops.Set v i w) self.old self.new }
    {
        if v >= VARIABLES || w >= VARIABLES || u32::from(i) >= self.heap.shape().fields {
            return Came::OutOfRange;
        }
        match self.stage {
            Stage::Outside => Came::Outside,
            Stage::Inside => {
                sets(&self.heap, &mut self.seat, v, i, w);
                Came::Done
            }
            _ => Came::Collecting,
        }
    }

    /// Variable w becomes what reference i of variable v's object refers to, or refers to nothing if v does.
    pub fn get(&mut self, w: u8, v: u8, i: u8) -> Came
        ensures operates { Operates result (ops.Get w v i) self.old self.new }
    {
        if w >= VARIABLES || v >= VARIABLES || u32::from(i) >= self.heap.shape().fields {
            return Came::OutOfRange;
        }
        match self.stage {
            Stage::Outside => Came::Outside,
            Stage::Inside => {
                gets(&self.heap, &mut self.seat, w, v, i);
                Came::Done
            }
            _ => Came::Collecting,
        }
    }

    /// Variable w becomes what variable v is.
    pub fn copy(&mut self, w: u8, v: u8) -> Came
        ensures operates { Operates result (ops.Let w v) self.old self.new }
    {
        if w >= VARIABLES || v >= VARIABLES {
            return Came::OutOfRange;
        }
        match self.stage {
            Stage::Outside => Came::Outside,
            Stage::Inside => {
                copies(&self.heap, &mut self.seat, w, v);
                Came::Done
            }
            _ => Came::Collecting,
        }
    }

    /// Variable v refers to nothing any more. What only it reached is garbage from then on.
    pub fn forget(&mut self, v: u8) -> Came
        ensures operates { Operates result (ops.Nil v) self.old self.new }
    {
        if v >= VARIABLES {
            return Came::OutOfRange;
        }
        match self.stage {
            Stage::Outside => Came::Outside,
            Stage::Inside => {
                forgets(&self.heap, &mut self.seat, v);
                Came::Done
            }
            _ => Came::Collecting,
        }
    }

    /// The value of variable v's object becomes this one. Nothing happens if v refers to nothing.
    pub fn put(&mut self, v: u8, value: u32) -> Came
        ensures operates { Operates result (ops.Put v value) self.old self.new }
    {
        if v >= VARIABLES {
            return Came::OutOfRange;
        }
        match self.stage {
            Stage::Outside => Came::Outside,
            Stage::Inside => {
                puts(&self.heap, &mut self.seat, v, value);
                Came::Done
            }
            _ => Came::Collecting,
        }
    }

    /// Writes the value of variable v's object, as one read finds it if objects are shared.
    pub fn value(&mut self, v: u8, out: &mut u32) -> Came
        ensures reads { ReadsValue result v self.old self.new out.old out.new }
    {
        if v >= VARIABLES {
            return Came::OutOfRange;
        }
        match self.stage {
            Stage::Outside => Came::Outside,
            Stage::Inside => match finds(&self.heap, &mut self.seat, v) {
                Some(value) => {
                    *out = value;
                    Came::Done
                }
                None => Came::Nil,
            },
            _ => Came::Collecting,
        }
    }
}
