//! What a mutator does.
ghost use Rattle.std.specs.Prelude.{◌≡◌, IfErr, IfOk};
ghost use Rattle.std.specs.Arc.{arc_value};
ghost use Rattle.gc_table.specs.Log.{Only};
ghost use Rattle.gc_table.specs.Running.{Ran};
ghost use Rattle.gc_table.specs.Seats.{Across};
ghost use Rattle.plain_heap.specs.declared.operation.Op.TheVariants as ops;
ghost use Rattle.managed_heap.specs.Calls.{CantEnter, MutatorCollected, MutatorEntered, MutatorLeft, HasPassed, MutatorDoes, MutatorRefused, IsSame, MakesNone, RefusedBy, StaysOut};
ghost use Rattle.cache_refills.specs.Notices.{IsTold};
ghost use Rattle.seat_turns.specs.Coming.{CollectsAtTurn, CollectsNone, EntersFull, MakesAtTurn, MakesNoneAtTurn, PollsOutWith, PollsWith, WithOwn};
ghost use Rattle.seat_turns.specs.Operating.{AtMost, TakesSteps};
ghost use Rattle.seat_turns.specs.Sharing.{spares_tracers};
ghost use Rattle.seat_turns.specs.Telling.{TellsFills};

use crate::mutator::{Mutator, Place};
use cache_refills::{Unwatched, Watch};
use mark_core::VARIABLES;
use mutator_ops::{assign, clear, follow, put, set};
use seat_turns::{Refused, collect_turn, enter_turn, leave_turn, make_object, pass_turn};
use std::sync::Wait;

impl Mutator {
    /// Enters the world as soon as no collection is under way, and helps meanwhile. Refused if the heap is full.
    #[tactic(auto, using(crate::proofs::Runs::runs))]
    pub fn enter<R: Wait>(&mut self, rt: &R) -> Result<(), Refused>
        ensures entered { IfOk result (λ _. MutatorEntered self.old self.new) }
        ensures refused { IfErr result (λ e. CantEnter e self.old self.new) }
        ensures full { IfErr result (λ e. RefusedBy (λ _. EntersFull) e self.old self.new) }
        ensures tracers { Across (Only spares_tracers) self.old.seat self.new.seat }
        ensures world { arc_value self.new.heap ≡ arc_value self.old.heap }
        ensures ran { Across Ran self.old.seat self.new.seat }
    {
        match self.place {
            Place::Inside => Ok(()),
            Place::Outside => match enter_turn(rt, &self.heap, &mut self.seat) {
                Ok(()) => {
                    self.place = Place::Inside;
                    Ok(())
                }
                Err(full) => Err(full),
            },
        }
    }

    /// Leaves the world, if it is inside. What its variables refer to is kept.
    #[tactic(auto, using(crate::proofs::Runs::runs))]
    pub fn leave(&mut self)
        ensures left { MutatorLeft self.old self.new }
        ensures tracers { Across (Only spares_tracers) self.old.seat self.new.seat }
        ensures world { arc_value self.new.heap ≡ arc_value self.old.heap }
        ensures ran { Across Ran self.old.seat self.new.seat }
    {
        match self.place {
            Place::Outside => {}
            Place::Inside => {
                leave_turn(&self.heap, &mut self.seat);
                self.place = Place::Outside;
            }
        }
    }

    /// A safe point: if a collection is under way the mutator helps. Refused if the mutator is outside, or the heap
    /// is full: then it is outside afterwards.
    #[tactic(auto, using(crate::proofs::Runs::runs))]
    pub fn safe_point<R: Wait>(&mut self, rt: &R) -> Result<(), Refused>
        ensures passed { IfOk result (λ _. HasPassed self.old self.new) }
        ensures refused { IfErr result (λ e. StaysOut e self.old self.new) }
        ensures polls { IfOk result (λ _. Across (WithOwn PollsWith) self.old.seat self.new.seat) }
        ensures full { IfErr result (λ e. RefusedBy (λ _. WithOwn PollsOutWith) e self.old self.new) }
        ensures tracers { Across (Only spares_tracers) self.old.seat self.new.seat }
        ensures world { arc_value self.new.heap ≡ arc_value self.old.heap }
        ensures ran { Across Ran self.old.seat self.new.seat }
    {
        match self.place {
            Place::Outside => Err(Refused::Outside),
            Place::Inside => match pass_turn(rt, &self.heap, &mut self.seat) {
                Ok(()) => Ok(()),
                Err(full) => {
                    self.place = Place::Outside;
                    Err(full)
                }
            },
        }
    }

    /// A precise collection, and a safe point: afterwards the cells in use are those of the objects that were
    /// reachable while the world stood still. Refused as a safe point is.
    #[tactic(auto, using(crate::proofs::Runs::runs))]
    pub fn collect<R: Wait>(&mut self, rt: &R) -> Result<(), Refused>
        ensures passed { IfOk result (λ _. HasPassed self.old self.new) }
        ensures collected { IfOk result (λ _. MutatorCollected self.old self.new) }
        ensures refused { IfErr result (λ e. StaysOut e self.old self.new) }
        ensures collects { IfOk result (λ _. Across CollectsAtTurn self.old.seat self.new.seat) }
        ensures full { IfErr result (λ e. RefusedBy (λ _. CollectsNone) e self.old self.new) }
        ensures tracers { Across (Only spares_tracers) self.old.seat self.new.seat }
        ensures world { arc_value self.new.heap ≡ arc_value self.old.heap }
        ensures ran { Across Ran self.old.seat self.new.seat }
    {
        match self.place {
            Place::Outside => Err(Refused::Outside),
            Place::Inside => match collect_turn(rt, &self.heap, &mut self.seat) {
                Ok(()) => Ok(()),
                Err(full) => {
                    self.place = Place::Outside;
                    Err(full)
                }
            },
        }
    }

    /// Makes an object with this value, whose references refer to nothing, and lets variable v refer to it. It is a
    /// safe point: if no cell is free the mutator collects, or waits until another has. Refused also if v is out of
    /// range, or the mutator is spent.
    pub fn make<R: Wait>(&mut self, rt: &R, v: u8, value: u32) -> Result<(), Refused>
        ensures made { IfOk result (λ _. MutatorDoes (ops.New v value) self.old self.new) }
        ensures refused { IfErr result (λ e. MakesNone e (ops.New v value) self.old self.new × IsSame self.old self.new) }
        ensures makes { IfOk result (λ _. Across (MakesAtTurn self.old.in_stops (arc_value self.old.heap).shape v value) self.old.seat self.new.seat) }
        ensures none { IfErr result (λ e. RefusedBy (λ e. MakesNoneAtTurn e self.old.in_stops (arc_value self.old.heap).shape) e self.old self.new) }
        ensures tracers { Across (Only spares_tracers) self.old.seat self.new.seat }
        ensures world { arc_value self.new.heap ≡ arc_value self.old.heap }
        ensures ran { Across Ran self.old.seat self.new.seat }
    {
        self.make_watched(rt, v, value, &mut Unwatched)
    }

    /// [`make`](Mutator::make) that tells `watch` of each stop that it makes, and of what it traces.
    #[tactic(auto, using(crate::proofs::Runs::runs))]
    pub fn make_watched<R: Wait, W: Watch>(
        &mut self,
        rt: &R,
        v: u8,
        value: u32,
        watch: &mut W,
    ) -> Result<(), Refused>
        ensures made { IfOk result (λ _. MutatorDoes (ops.New v value) self.old self.new) }
        ensures refused { IfErr result (λ e. MakesNone e (ops.New v value) self.old self.new × IsSame self.old self.new) }
        ensures makes { IfOk result (λ _. Across (MakesAtTurn self.old.in_stops (arc_value self.old.heap).shape v value) self.old.seat self.new.seat) }
        ensures none { IfErr result (λ e. RefusedBy (λ e. MakesNoneAtTurn e self.old.in_stops (arc_value self.old.heap).shape) e self.old self.new) }
        ensures tracers { Across (Only spares_tracers) self.old.seat self.new.seat }
        ensures world { arc_value self.new.heap ≡ arc_value self.old.heap }
        ensures ran { Across Ran self.old.seat self.new.seat }
        ensures told { IsTold W.hears (λ ns. Across (TellsFills self.old.in_stops (arc_value self.old.heap).shape ns) self.old.seat self.new.seat) watch.old watch.new }
    {
        if v >= VARIABLES {
            return Err(Refused::OutOfRange);
        }
        match self.place {
            Place::Outside => Err(Refused::Outside),
            Place::Inside => match make_object(
                rt,
                &self.heap,
                &mut self.seat,
                v,
                value,
                self.in_stops,
                watch,
            ) {
                Ok(()) => Ok(()),
                Err(Refused::Full) => {
                    self.place = Place::Outside;
                    Err(Refused::Full)
                }
                Err(other) => Err(other),
            },
        }
    }

    /// Reference i of variable v's object becomes what variable w refers to. Nothing happens if v refers to
    /// nothing. Refused if a number is out of range, or the mutator is outside.
    #[tactic(auto, using(seat_turns::proofs::Done::operating, crate::proofs::Runs::runs))]
    pub fn set(&mut self, v: u8, i: u8, w: u8) -> Result<(), Refused>
        ensures done { IfOk result (λ _. MutatorDoes (ops.Set v i w) self.old self.new) }
        ensures refused { IfErr result (λ e. MutatorRefused e (ops.Set v i w) self.old self.new) }
        ensures takes { IfOk result (λ _. Across (TakesSteps (ops.Set v i w)) self.old.seat self.new.seat) }
        ensures few { IfOk result (λ _. Across (AtMost 4) self.old.seat self.new.seat) }
        ensures tracers { Across (Only spares_tracers) self.old.seat self.new.seat }
        ensures world { arc_value self.new.heap ≡ arc_value self.old.heap }
        ensures ran { Across Ran self.old.seat self.new.seat }
    {
        if v >= VARIABLES || w >= VARIABLES || u32::from(i) >= self.heap.shape().fields {
            return Err(Refused::OutOfRange);
        }
        match self.place {
            Place::Outside => Err(Refused::Outside),
            Place::Inside => {
                set(&self.heap, &mut self.seat, v, i, w);
                Ok(())
            }
        }
    }

    /// Variable w becomes what reference i of variable v's object refers to, or refers to nothing if v does. Refused as
    /// `set` is.
    #[tactic(auto, using(seat_turns::proofs::Done::operating, crate::proofs::Runs::runs))]
    pub fn get(&mut self, w: u8, v: u8, i: u8) -> Result<(), Refused>
        ensures done { IfOk result (λ _. MutatorDoes (ops.Get w v i) self.old self.new) }
        ensures refused { IfErr result (λ e. MutatorRefused e (ops.Get w v i) self.old self.new) }
        ensures takes { IfOk result (λ _. Across (TakesSteps (ops.Get w v i)) self.old.seat self.new.seat) }
        ensures few { IfOk result (λ _. Across (AtMost 2) self.old.seat self.new.seat) }
        ensures tracers { Across (Only spares_tracers) self.old.seat self.new.seat }
        ensures world { arc_value self.new.heap ≡ arc_value self.old.heap }
        ensures ran { Across Ran self.old.seat self.new.seat }
    {
        if w >= VARIABLES || v >= VARIABLES || u32::from(i) >= self.heap.shape().fields {
            return Err(Refused::OutOfRange);
        }
        match self.place {
            Place::Outside => Err(Refused::Outside),
            Place::Inside => {
                follow(&self.heap, &mut self.seat, w, v, i);
                Ok(())
            }
        }
    }

    /// Variable w becomes what variable v is. Refused as `set` is.
    #[tactic(auto, using(seat_turns::proofs::Done::operating, crate::proofs::Runs::runs))]
    pub fn copy(&mut self, w: u8, v: u8) -> Result<(), Refused>
        ensures done { IfOk result (λ _. MutatorDoes (ops.Let w v) self.old self.new) }
        ensures refused { IfErr result (λ e. MutatorRefused e (ops.Let w v) self.old self.new) }
        ensures takes { IfOk result (λ _. Across (TakesSteps (ops.Let w v)) self.old.seat self.new.seat) }
        ensures few { IfOk result (λ _. Across (AtMost 1) self.old.seat self.new.seat) }
        ensures tracers { Across (Only spares_tracers) self.old.seat self.new.seat }
        ensures world { arc_value self.new.heap ≡ arc_value self.old.heap }
        ensures ran { Across Ran self.old.seat self.new.seat }
    {
        if w >= VARIABLES || v >= VARIABLES {
            return Err(Refused::OutOfRange);
        }
        match self.place {
            Place::Outside => Err(Refused::Outside),
            Place::Inside => {
                assign(&self.heap, &mut self.seat, w, v);
                Ok(())
            }
        }
    }

    /// Variable v refers to nothing any more. What only it reached is garbage from then on. Refused as `set` is.
    #[tactic(auto, using(seat_turns::proofs::Done::operating, crate::proofs::Runs::runs))]
    pub fn forget(&mut self, v: u8) -> Result<(), Refused>
        ensures done { IfOk result (λ _. MutatorDoes (ops.Nil v) self.old self.new) }
        ensures refused { IfErr result (λ e. MutatorRefused e (ops.Nil v) self.old self.new) }
        ensures takes { IfOk result (λ _. Across (TakesSteps (ops.Nil v)) self.old.seat self.new.seat) }
        ensures few { IfOk result (λ _. Across (AtMost 1) self.old.seat self.new.seat) }
        ensures tracers { Across (Only spares_tracers) self.old.seat self.new.seat }
        ensures world { arc_value self.new.heap ≡ arc_value self.old.heap }
        ensures ran { Across Ran self.old.seat self.new.seat }
    {
        if v >= VARIABLES {
            return Err(Refused::OutOfRange);
        }
        match self.place {
            Place::Outside => Err(Refused::Outside),
            Place::Inside => {
                clear(&self.heap, &mut self.seat, v);
                Ok(())
            }
        }
    }

    /// The value of variable v's object becomes this one. Nothing happens if v refers to nothing. Refused as `set` is.
    #[tactic(auto, using(seat_turns::proofs::Done::operating, crate::proofs::Runs::runs))]
    pub fn put(&mut self, v: u8, value: u32) -> Result<(), Refused>
        ensures done { IfOk result (λ _. MutatorDoes (ops.Put v value) self.old self.new) }
        ensures refused { IfErr result (λ e. MutatorRefused e (ops.Put v value) self.old self.new) }
        ensures takes { IfOk result (λ _. Across (TakesSteps (ops.Put v value)) self.old.seat self.new.seat) }
        ensures few { IfOk result (λ _. Across (AtMost 2) self.old.seat self.new.seat) }
        ensures tracers { Across (Only spares_tracers) self.old.seat self.new.seat }
        ensures world { arc_value self.new.heap ≡ arc_value self.old.heap }
        ensures ran { Across Ran self.old.seat self.new.seat }
    {
        if v >= VARIABLES {
            return Err(Refused::OutOfRange);
        }
        match self.place {
            Place::Outside => Err(Refused::Outside),
            Place::Inside => {
                put(&self.heap, &mut self.seat, v, value);
                Ok(())
            }
        }
    }
}
