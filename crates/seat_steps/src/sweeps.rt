//! A stepper sweeps, with helpers, and counts.
ghost use Rattle.std.specs.Prelude.{ℕ, ◌≡◌, Bool};
ghost use Rattle.seat_steps.specs.Bounds.{IsBoundedStep};
ghost use Rattle.seat_steps.specs.Steps.{StepsCollection};
ghost use Rattle.seat_steps.specs.declared.stepper.Stage.TheVariants as stages;

use crate::came::Came;
use crate::stepper::{Stage, Stepper};
use gc_cycle::{
    count_step, finds_helpers_gone, shut_stop, start_count, stretches_of, sweep_shared,
};

impl Stepper {
    pub(crate) fn sweep(&mut self, most: u32) -> Came
        requires sweeping { self.old.stage ≡ stages.Sweeping }
        ensures collects { (precise : Bool) → StepsCollection precise most result self.old self.new }
        ensures bounded { IsBoundedStep most self.old self.new }
    {
        let draws = stretches_of(&self.heap, most);
        let step = sweep_shared(&self.heap, &mut self.seat, draws);
        self.freed = self.freed.saturating_add(step.freed);
        if step.stretches == draws {
            return Came::NotYet;
        }
        shut_stop(&self.heap, &mut self.seat);
        self.stage = Stage::Parting;
        Came::NotYet
    }

    pub(crate) fn part(&mut self) -> Came
        requires parting { self.old.stage ≡ stages.Parting }
        ensures collects { (precise : Bool) (most : ℕ) → StepsCollection precise most result self.old self.new }
        ensures bounded { (most : ℕ) → IsBoundedStep most self.old self.new }
    {
        if !finds_helpers_gone(&self.heap, &mut self.seat) {
            return Came::NotYet;
        }
        start_count(&self.heap, &mut self.seat);
        self.next = 0;
        self.counted = 0;
        self.stage = Stage::Counting;
        Came::NotYet
    }

    pub(crate) fn count(&mut self, most: u32) -> Came
        requires counting { self.old.stage ≡ stages.Counting }
        ensures collects { (precise : Bool) → StepsCollection precise most result self.old self.new }
        ensures bounded { IsBoundedStep most self.old self.new }
    {
        let step = count_step(&self.heap, &mut self.seat, self.next, self.counted, most);
        self.counted = step.counted;
        if step.blocks == most {
            self.next += step.blocks;
            return Came::NotYet;
        }
        self.stage = Stage::Ending;
        Came::NotYet
    }
}
