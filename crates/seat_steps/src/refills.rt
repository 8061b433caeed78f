//! A stepper makes objects in its cache, and comes to a cache in pieces.
ghost use Rattle.std.specs.Prelude.{◌≡◌, ◌≤◌, ◌<◌, ◌+◌, min, IfNone, IfSome};
ghost use Rattle.std.specs.Arc.{arc_value};
ghost use Rattle.mark_core.specs.Layout.{block_count};
ghost use Rattle.mark_core.specs.Numbers.{section_variables};
ghost use Rattle.plain_heap.specs.declared.operation.Op.TheVariants as ops;
ghost use Rattle.seat_steps.specs.Payments.{PaysRefill};
ghost use Rattle.seat_steps.specs.Refilling.{BeginsSearch, MakesCached, NotesSeen, StepperRefills, block_behind};
ghost use Rattle.seat_steps.specs.declared.stepper.Stage.TheVariants as stages;

use crate::came::Came;
use crate::seeking::{Sought, make_here, refill_once};
use crate::stepper::{Stage, Stepper};
use mark_core::{BLOCK_CELLS, CacheState, VARIABLES};

fn behind(cache: Option<CacheState>, blocks: u32) -> u32
    ensures { result ≡ min (block_behind cache) blocks }
{
    match cache {
        Some(cache) => cache.block.saturating_add(1).min(blocks),
        None => 0,
    }
}

/// How many blocks were seen with `number` more; None if that is all of them.
fn seen_after(seen: u32, number: u32, blocks: u32) -> Option<u32>
    ensures some { IfSome result (λ n. (n ≡ seen + number) × (n < blocks)) }
    ensures none { IfNone result (blocks ≤ seen + number) }
{
    let all = seen.saturating_add(number);
    if all < blocks {
        return Some(all);
    }
    None
}

impl Stepper {
    /// As [`Stepper::make`], if a cell of its cache is free. With `NoCache` it is to call `refill_step` until that
    /// answers `Done`.
    pub fn make_cached(&mut self, v: u8, value: u32) -> Came
        ensures makes { MakesCached result (ops.New v value) self.old self.new }
    {
        if v >= VARIABLES {
            return Came::OutOfRange;
        }
        match self.stage {
            Stage::Outside => Came::Outside,
            Stage::Inside => self.make_inside_cached(v, value),
            _ => Came::Collecting,
        }
    }

    fn make_inside_cached(&mut self, v: u8, value: u32) -> Came
        requires inside { self.old.stage ≡ stages.Inside }
        requires range { v < section_variables }
        ensures makes { MakesCached result (ops.New v value) self.old self.new }
    {
        if self.seat.state().made >= self.heap.shape().objects {
            return Came::Spent;
        }
        match make_here(&self.heap, &mut self.seat, v, value) {
            Came::Done => Came::Done,
            Came::NoCache => Came::NoCache,
            other => {
                self.stage = Stage::Outside;
                other
            }
        }
    }

    /// The next step on the way to a cache with a free cell, and a safe point: `Done` if the mutator has one, `NotYet`
    /// if there is more to do. It looks at no more than `most` blocks (0 is out of range), and pays for a cache that it
    /// gets. `NoCell` calls for a collection: its steps saw all blocks, one after another, without a free cell, or
    /// marking is done.
    pub fn refill_step(&mut self, most: u32) -> Came
        ensures refills { StepperRefills most result self.old self.new }
        ensures pays { PaysRefill most self.old self.new }
    {
        if most == 0 {
            return Came::OutOfRange;
        }
        match self.stage {
            Stage::Outside => Came::Outside,
            Stage::Inside => self.refill_inside(most),
            _ => Came::Collecting,
        }
    }

    fn refill_inside(&mut self, most: u32) -> Came
        requires inside { self.old.stage ≡ stages.Inside }
        ensures refills { StepperRefills most result self.old self.new }
        ensures pays { PaysRefill most self.old self.new }
    {
        let blocks = self.blocks();
        let most = most.min(blocks.saturating_sub(self.seen));
        match refill_once(&self.heap, &mut self.seat, &mut self.paid, self.block, most) {
            Ok(Sought::Free) => {
                self.begin_search();
                Came::Done
            }
            Ok(Sought::Next(next)) => self.note_seen(most, next),
            Ok(Sought::Ended) => self.note_seen(blocks - self.block, 0),
            Ok(Sought::MarkingDone) => Came::NoCell,
            Err(came) => {
                self.stage = Stage::Outside;
                came
            }
        }
    }

    fn blocks(&self) -> u32
        ensures { result ≡ block_count (arc_value self.now.heap).shape }
    {
        self.heap.shape().cells / BLOCK_CELLS
    }

    fn begin_search(&mut self)
        ensures begins { BeginsSearch self.old self.new }
    {
        self.block = behind(self.seat.state().cache, self.blocks());
        self.seen = 0;
    }

    fn note_seen(&mut self, number: u32, next: u32) -> Came
        requires next { next ≤ block_count (arc_value self.old.heap).shape }
        ensures notes { NotesSeen number next result self.old self.new }
    {
        let blocks = self.blocks();
        self.block = next;
        match seen_after(self.seen, number, blocks) {
            Some(seen) => {
                self.seen = seen;
                Came::NotYet
            }
            None => {
                self.seen = 0;
                Came::NoCell
            }
        }
    }
}
