//! A stepper drains, with helpers.
ghost use Rattle.std.specs.Prelude.{ℕ, ◌≡◌, Bool};
ghost use Rattle.seat_steps.specs.Bounds.{IsBoundedStep};
ghost use Rattle.seat_steps.specs.Steps.{StepsCollection};
ghost use Rattle.seat_steps.specs.declared.stepper.Stage.TheVariants as stages;

use crate::came::Came;
use crate::stepper::{Stage, Stepper};
use gc_cycle::{
    clean_shared, finds_helpers_gone, finds_no_work_shared, return_to_roots, shut_stop,
    trace_shared,
};

impl Stepper {
    pub(crate) fn share(&mut self, most: u32) -> Came
        requires sharing { self.old.stage ≡ stages.Sharing }
        ensures collects { (precise : Bool) → StepsCollection precise most result self.old self.new }
        ensures bounded { IsBoundedStep most self.old self.new }
    {
        let popped = trace_shared(&self.heap, &mut self.seat, most);
        self.traced = self.traced.saturating_add(popped);
        if popped != most {
            self.stage = Stage::Passing;
        }
        Came::NotYet
    }

    /// If no packet can be had it traces first.
    pub(crate) fn pass(&mut self, most: u32) -> Came
        requires passing { self.old.stage ≡ stages.Passing }
        ensures collects { (precise : Bool) → StepsCollection precise most result self.old self.new }
        ensures bounded { IsBoundedStep most self.old self.new }
    {
        let Some(step) = clean_shared(&self.heap, &mut self.seat, self.next, most) else {
            self.stage = Stage::Sharing;
            return Came::NotYet;
        };
        self.cleaned = self.cleaned.saturating_add(step.cleaned);
        self.rescanned = self.rescanned.saturating_add(step.rescanned);
        if step.passed == most {
            self.next += step.passed;
            return Came::NotYet;
        }
        self.stage = Stage::Emptying;
        Came::NotYet
    }

    pub(crate) fn empty(&mut self, most: u32) -> Came
        requires emptying { self.old.stage ≡ stages.Emptying }
        ensures collects { (precise : Bool) → StepsCollection precise most result self.old self.new }
        ensures bounded { IsBoundedStep most self.old self.new }
    {
        let popped = trace_shared(&self.heap, &mut self.seat, most);
        self.traced = self.traced.saturating_add(popped);
        if popped == most {
            return Came::NotYet;
        }
        if !finds_no_work_shared(&self.heap, &mut self.seat) {
            return Came::NotYet;
        }
        shut_stop(&self.heap, &mut self.seat);
        self.stage = Stage::Closing;
        Came::NotYet
    }

    /// What was noted while the stop was open isn't known: it sees to the roots once more.
    pub(crate) fn close(&mut self) -> Came
        requires closing { self.old.stage ≡ stages.Closing }
        ensures collects { (precise : Bool) (most : ℕ) → StepsCollection precise most result self.old self.new }
        ensures bounded { (most : ℕ) → IsBoundedStep most self.old self.new }
    {
        if !finds_helpers_gone(&self.heap, &mut self.seat) {
            return Came::NotYet;
        }
        return_to_roots(&self.heap, &mut self.seat);
        self.next = 0;
        self.stage = Stage::Rooting;
        Came::NotYet
    }
}
