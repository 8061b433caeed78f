//! A stepper collects.
ghost use Rattle.std.specs.Prelude.{ℕ, ◌≡◌, ◌&&◌, ◌||◌, Bool, true, false, not};
ghost use Rattle.std.specs.Bool.{OnFalse, OnTrue};
ghost use Rattle.gc_table.specs.Seats.{Across, state_of};
ghost use Rattle.gc_cycle.specs.Pieces.{HasCounted};
ghost use Rattle.gc_cycle.specs.Stepping.{AsksOnce, AwaitsStop};
ghost use Rattle.seat_steps.specs.Asked.{CountsSinceAsked, WaitsSinceAsked};
ghost use Rattle.seat_steps.specs.Collecting.{Collects};
ghost use Rattle.seat_steps.specs.Course.{EndsBy};
ghost use Rattle.seat_steps.specs.Bounds.{CollectsAtMost, EndsInFew, IsBoundedStep};
ghost use Rattle.seat_turns.specs.Sharing.{LeavesHeap};
ghost use Rattle.seat_turns.specs.Standing.{Halts, IsMutatorOutside, plain_of};
ghost use Rattle.seat_steps.specs.Arriving.{Arrives};
ghost use Rattle.seat_steps.specs.Steps.{StepsCollection};
ghost use Rattle.seat_steps.specs.declared.stepper.Stage.TheVariants as stages;

use crate::came::Came;
use crate::stepper::{Stage, Stepper};
use crate::telling::read_marking;
use crate::tries::arrive;
use gc_cycle::{
    Counts, Look, ask_to_stop, begin_collection, clean_step, clear_step, finds_all_marked,
    finds_stopped, finish_clear, finish_count, look_step, open_stop, root_piece, start_clear,
    start_sweep, stretches_of, trace_step,
};
use gc_table::{Heap, HeapSeat};
use seat_turns::{flush_turn, leave, retire_own_cache};

const STEP: u32 = 4_096;

/// Asks for a stop. False if another's comes first, and then the seat is outside.
fn asks(heap: &Heap, seat: &mut HeapSeat) -> bool
    requires halts { Halts heap.now seat.old }
    ensures yours { OnTrue result (Collects AwaitsStop WaitsSinceAsked heap.now seat.new) }
    ensures theirs { OnFalse result (IsMutatorOutside heap.now seat.new) }
    ensures same { plain_of seat.new ≡ plain_of seat.old }
    ensures leaves { Across LeavesHeap seat.old seat.new }
    ensures asks { Across (AsksOnce (state_of seat.old).made result) seat.old seat.new }
{
    let made = seat.state().made;
    ask_to_stop(heap, seat, made)
}

/// Whether a collection marks once more: a precise one does, if a cycle was marking.
fn marks_again(precise: bool, marking: bool) -> bool
    ensures again { result ≡ precise && marking }
{
    precise && marking
}

/// Whether a collection leaves no garbage: a precise one, or one before which no cycle was marking.
fn leaves_none(precise: bool, marking: bool) -> bool
    ensures exact { result ≡ precise || not marking }
{
    precise || !marking
}

fn end_to_turn(heap: &Heap, seat: &mut HeapSeat, exact: bool, counts: Counts) -> Came
    requires counted { Collects (HasCounted counts.marked) (CountsSinceAsked exact) heap.now seat.old }
    ensures arrives { Arrives result heap.now seat.new }
    ensures same { plain_of seat.new ≡ plain_of seat.old }
    ensures leaves { Across LeavesHeap seat.old seat.new }
    ensures ends { Across (EndsBy exact counts result) seat.old seat.new }
    ensures few { Across EndsInFew seat.old seat.new }
{
    finish_count(heap, seat, counts.marked, counts.rescanned, counts.freed);
    arrive(heap, seat)
}

impl Stepper {
    /// The next step of a precise collection, with 4,096 for `most`: `NotYet` if there is more to do. Meanwhile the world
    /// stands still.
    pub fn collect_step(&mut self) -> Came
        ensures collects { CollectsAtMost true 4096 result self.old self.new }
    {
        self.take_step(true, STEP)
    }

    /// The next step of a precise collection, of at most `most` roots, objects, cards or blocks; 0 is out of range.
    /// Blocks are cleared and swept in stretches (of 1 to 128, by the heap's size): one at least.
    ///
    /// If a cycle was marking, what it marked is finished, all marks are cleared, and all is marked anew. So no garbage
    /// is left at the end.
    pub fn collect_at_most(&mut self, most: u32) -> Came
        ensures collects { CollectsAtMost true most result self.old self.new }
    {
        if most == 0 {
            return Came::OutOfRange;
        }
        self.take_step(true, most)
    }

    /// The next step of an ordinary collection, as `collect_at_most`: if a cycle was marking, what it marked stays marked.
    /// So what died since it began may be kept until the next collection.
    ///
    /// A collection that is under way goes on as it was begun, by whichever of the two its steps are taken.
    pub fn finish_at_most(&mut self, most: u32) -> Came
        ensures collects { CollectsAtMost false most result self.old self.new }
    {
        if most == 0 {
            return Came::OutOfRange;
        }
        self.take_step(false, most)
    }

    fn take_step(&mut self, precise: bool, most: u32) -> Came
        ensures collects { StepsCollection precise most result self.old self.new }
        ensures bounded { IsBoundedStep most self.old self.new }
    {
        match self.stage {
            Stage::Outside => Came::Outside,
            Stage::Inside => self.ask(precise),
            Stage::Stopping => self.begin(),
            Stage::Rooting => self.scan(most),
            Stage::Draining => self.trace(most),
            Stage::Looking => self.look(most),
            Stage::Cleaning => self.clean(most),
            Stage::Clearing => self.clear(most),
            Stage::Sweeping => self.sweep(most),
            Stage::Counting => self.count(most),
            Stage::Ending => self.end(),
            Stage::Sharing => self.share(most),
            Stage::Passing => self.pass(most),
            Stage::Emptying => self.empty(most),
            Stage::Closing => self.close(),
            Stage::Parting => self.part(),
        }
    }

    fn ask(&mut self, precise: bool) -> Came
        requires inside { self.old.stage ≡ stages.Inside }
        ensures collects { (most : ℕ) → StepsCollection precise most result self.old self.new }
        ensures bounded { (most : ℕ) → IsBoundedStep most self.old self.new }
    {
        flush_turn(&self.heap, &mut self.seat);
        retire_own_cache(&self.heap, &mut self.seat);
        if asks(&self.heap, &mut self.seat) {
            self.precise = precise;
            self.stage = Stage::Stopping;
            return Came::NotYet;
        }
        self.stage = Stage::Outside;
        Came::Stopped
    }

    fn begin(&mut self) -> Came
        requires stopping { self.old.stage ≡ stages.Stopping }
        ensures collects { (precise : Bool) (most : ℕ) → StepsCollection precise most result self.old self.new }
        ensures bounded { (most : ℕ) → IsBoundedStep most self.old self.new }
    {
        if !finds_stopped(&self.heap, &mut self.seat) {
            return Came::NotYet;
        }
        let marking = read_marking(&self.seat);
        self.again = marks_again(self.precise, marking);
        self.exact = leaves_none(self.precise, marking);
        if begin_collection(&self.heap, &mut self.seat) {
            self.next = 0;
            self.traced = 0;
            self.cleaned = 0;
            self.rescanned = 0;
            self.shared = self.again;
            self.stage = Stage::Rooting;
            return Came::NotYet;
        }
        leave(&self.heap, &mut self.seat);
        self.stage = Stage::Outside;
        Came::Full
    }

    fn scan(&mut self, most: u32) -> Came
        requires rooting { self.old.stage ≡ stages.Rooting }
        ensures collects { (precise : Bool) → StepsCollection precise most result self.old self.new }
        ensures bounded { IsBoundedStep most self.old self.new }
    {
        let Some(number) = root_piece(&self.heap, &mut self.seat, self.next, most) else {
            return Came::NotYet;
        };
        if number == most {
            self.next += number;
            return Came::NotYet;
        }
        if self.shared {
            self.stage = Stage::Draining;
            return Came::NotYet;
        }
        open_stop(&self.heap, &mut self.seat);
        self.shared = true;
        self.next = 0;
        self.stage = Stage::Sharing;
        Came::NotYet
    }

    fn trace(&mut self, most: u32) -> Came
        requires draining { self.old.stage ≡ stages.Draining }
        ensures collects { (precise : Bool) → StepsCollection precise most result self.old self.new }
        ensures bounded { IsBoundedStep most self.old self.new }
    {
        let popped = trace_step(&self.heap, &mut self.seat, most);
        self.traced = self.traced.saturating_add(popped);
        if popped != most {
            self.next = 0;
            self.stage = Stage::Looking;
        }
        Came::NotYet
    }

    /// If all is marked it begins to sweep, with helpers, or to clear all marks.
    fn look(&mut self, most: u32) -> Came
        requires looking { self.old.stage ≡ stages.Looking }
        ensures collects { (precise : Bool) → StepsCollection precise most result self.old self.new }
        ensures bounded { IsBoundedStep most self.old self.new }
    {
        let number = match look_step(&self.heap, &mut self.seat, self.next, most) {
            Look::Clean(number) => number,
            Look::Dirty(card) => {
                self.next = card;
                self.stage = Stage::Cleaning;
                return Came::NotYet;
            }
        };
        if number == most {
            self.next += number;
            return Came::NotYet;
        }
        if !finds_all_marked(&self.heap, &mut self.seat) {
            self.stage = Stage::Draining;
            return Came::NotYet;
        }
        if self.again {
            start_clear(&self.heap, &mut self.seat);
            self.stage = Stage::Clearing;
            return Came::NotYet;
        }
        start_sweep(&self.heap, &mut self.seat);
        open_stop(&self.heap, &mut self.seat);
        self.freed = 0;
        self.stage = Stage::Sweeping;
        Came::NotYet
    }

    /// After the last card it traces again.
    fn clean(&mut self, most: u32) -> Came
        requires cleaning { self.old.stage ≡ stages.Cleaning }
        ensures collects { (precise : Bool) → StepsCollection precise most result self.old self.new }
        ensures bounded { IsBoundedStep most self.old self.new }
    {
        let Some(step) = clean_step(&self.heap, &mut self.seat, self.next, most) else {
            return Came::NotYet;
        };
        self.cleaned = self.cleaned.saturating_add(step.cleaned);
        self.rescanned = self.rescanned.saturating_add(step.rescanned);
        if step.passed == most {
            self.next += step.passed;
            return Came::NotYet;
        }
        self.stage = Stage::Draining;
        Came::NotYet
    }

    fn clear(&mut self, most: u32) -> Came
        requires clearing { self.old.stage ≡ stages.Clearing }
        ensures collects { (precise : Bool) → StepsCollection precise most result self.old self.new }
        ensures bounded { IsBoundedStep most self.old self.new }
    {
        let draws = stretches_of(&self.heap, most);
        if clear_step(&self.heap, &mut self.seat, draws) == draws {
            return Came::NotYet;
        }
        finish_clear(&self.heap, &mut self.seat);
        self.again = false;
        self.shared = false;
        self.next = 0;
        self.stage = Stage::Rooting;
        Came::NotYet
    }

    fn end(&mut self) -> Came
        requires ending { self.old.stage ≡ stages.Ending }
        ensures collects { (precise : Bool) (most : ℕ) → StepsCollection precise most result self.old self.new }
        ensures bounded { (most : ℕ) → IsBoundedStep most self.old self.new }
    {
        let counts = self.counts();
        match end_to_turn(&self.heap, &mut self.seat, self.exact, counts) {
            Came::Done => {
                self.stage = Stage::Inside;
                Came::Done
            }
            other => {
                self.stage = Stage::Outside;
                other
            }
        }
    }
}
