//! What a mutator of a shared world does.
ghost use Rattle.std.specs.Arc.{arc_value};
ghost use Rattle.std.specs.Prelude.{◌≡◌, ◌<◌, ◌+◌, IfErr, IfOk, false};
ghost use Rattle.mark_core.specs.Steps.MutatorSteps.{seat_variable as word_in};
ghost use Rattle.plain_heap.specs.declared.operation.Op.TheVariants as ops;
ghost use Rattle.gc_table.specs.Seats.{Across, state_of};
ghost use Rattle.mutator_ops.specs.Few.{AtMost};
ghost use Rattle.mutator_ops.specs.Sharing.{LendsFound, SetsField, SetsVariable, TakesSteps, putting_steps};
ghost use Rattle.seat_turns.specs.Coming.{CollectsAtTurn, CollectsNone, EntersFull, FlushesFirst};
ghost use Rattle.shared_heap.specs.Passing.{FindsFull, MakesAfter, MakesNoneAfter, Passes};
ghost use Rattle.seat_turns.specs.Sharing.{FollowsField, MakesSharedAfter};
ghost use Rattle.shared_heap.specs.Calls.{CantEnter, FindsValue, HasNoRoot, HasPassed, MakesNone, ReadsNone, RefusedBy, SharerCollected, SharerDoes, SharerEntered, SharerLeft, SharerRefused, StaysOut};

use crate::mutator::{Place, SharedMutator};
use crate::passing::{make, pass};
use mark_core::VARIABLES;
use mutator_ops::{share_copy, share_forget, share_lend, share_put, share_set, share_value_of};
use seat_turns::{Refused, collect_flushed, enter_turn, get_shared, leave_flushed, word_of};
use std::sync::Wait;

/// The variable of section 0 that refers to the root.
const ROOT: u8 = 0;

impl SharedMutator {
    /// Enters the world as soon as no collection is under way, and helps meanwhile. Refused if the heap is full.
    pub fn enter<R: Wait>(&mut self, rt: &R) -> Result<(), Refused>
        ensures entered { IfOk result (λ _. SharerEntered self.old self.new) }
        ensures refused { IfErr result (λ e. CantEnter e self.old self.new) }
        ensures full { IfErr result (λ e. RefusedBy EntersFull e self.old self.new) }
        ensures world { arc_value self.new.heap ≡ arc_value self.old.heap }
    {
        match self.place {
            Place::Inside => Ok(()),
            Place::Outside => match enter_turn(rt, &self.heap, &mut self.seat) {
                Ok(()) => {
                    self.place = Place::Inside;
                    Ok(())
                }
                Err(full) => Err(full),
            },
        }
    }

    /// Leaves the world, if it is inside. What its variables and slots refer to is kept.
    pub fn leave(&mut self)
        ensures left { SharerLeft self.old self.new }
        ensures world { arc_value self.new.heap ≡ arc_value self.old.heap }
        ensures name { self.new.name ≡ self.old.name }
    {
        match self.place {
            Place::Outside => {}
            Place::Inside => {
                leave_flushed(&self.heap, &mut self.seat);
                self.place = Place::Outside;
            }
        }
    }

    /// A safe point: if a collection is under way the mutator helps. Refused if the mutator is outside, or the heap
    /// is full: then it is outside afterwards.
    #[tactic(auto, using(crate::proofs::Passed::standing))]
    pub fn safe_point<R: Wait>(&mut self, rt: &R) -> Result<(), Refused>
        ensures passed { IfOk result (λ _. HasPassed self.old self.new) }
        ensures refused { IfErr result (λ e. StaysOut e self.old self.new) }
        ensures polls { IfOk result (λ _. Across Passes self.old.seat self.new.seat) }
        ensures full { IfErr result (λ e. RefusedBy FindsFull e self.old self.new) }
        ensures world { arc_value self.new.heap ≡ arc_value self.old.heap }
    {
        match self.place {
            Place::Outside => Err(Refused::Outside),
            Place::Inside => match pass(rt, &self.heap, &mut self.seat) {
                Ok(()) => Ok(()),
                Err(full) => {
                    self.place = Place::Outside;
                    Err(full)
                }
            },
        }
    }

    /// A precise collection, and a safe point: afterwards the cells in use are those of the objects that were
    /// reachable while the world stood still. Refused as a safe point is.
    pub fn collect<R: Wait>(&mut self, rt: &R) -> Result<(), Refused>
        ensures passed { IfOk result (λ _. HasPassed self.old self.new) }
        ensures collected { IfOk result (λ _. SharerCollected self.old self.new) }
        ensures refused { IfErr result (λ e. StaysOut e self.old self.new) }
        ensures collects { IfOk result (λ _. Across (FlushesFirst CollectsAtTurn) self.old.seat self.new.seat) }
        ensures full { IfErr result (λ e. RefusedBy (FlushesFirst CollectsNone) e self.old self.new) }
        ensures world { arc_value self.new.heap ≡ arc_value self.old.heap }
    {
        match self.place {
            Place::Outside => Err(Refused::Outside),
            Place::Inside => match collect_flushed(rt, &self.heap, &mut self.seat) {
                Ok(()) => Ok(()),
                Err(full) => {
                    self.place = Place::Outside;
                    Err(full)
                }
            },
        }
    }

    /// Makes an object with this value, whose references refer to nothing, and lets variable v refer to it. It is a
    /// safe point. The answer is the object's cell, as of [`place`](SharedMutator::place). Refused as a safe point is,
    /// if v is out of range, or if the mutator is spent.
    pub fn make<R: Wait>(&mut self, rt: &R, v: u8, value: u32) -> Result<u32, Refused>
        ensures made { IfOk result (λ c. SharerDoes (MakesSharedAfter v value) (ops.New v value) self.old self.new) }
        ensures place { IfOk result (λ c. word_in (state_of self.new.seat) v ≡ c + 1) }
        ensures refused { IfErr result (λ e. MakesNone e (ops.New v value) self.old self.new) }
        ensures makes { IfOk result (λ _. Across (MakesAfter (arc_value self.old.heap).shape v value) self.old.seat self.new.seat) }
        ensures none { IfErr result (λ e. RefusedBy (MakesNoneAfter e (arc_value self.old.heap).shape) e self.old self.new) }
        ensures world { arc_value self.new.heap ≡ arc_value self.old.heap }
    {
        if v >= VARIABLES {
            return Err(Refused::OutOfRange);
        }
        match self.place {
            Place::Outside => Err(Refused::Outside),
            Place::Inside => match make(rt, &self.heap, &mut self.seat, v, value) {
                Ok(()) => Ok(word_of(&self.seat, v) - 1),
                Err(Refused::Full) => {
                    self.place = Place::Outside;
                    Err(Refused::Full)
                }
                Err(other) => Err(other),
            },
        }
    }

    /// Variable w becomes the root. Nil says that nothing was found, which only the run of the closed world excludes.
    pub fn root(&mut self, w: u8) -> Result<(), Refused>
        ensures done { IfOk result (λ _. SharerDoes (LendsFound w 0) (ops.Cat w 0) self.old self.new) }
        ensures some { IfOk result (λ _. 0 < word_in (state_of self.new.seat) w) }
        ensures refused { IfErr result (λ e. HasNoRoot e w self.old self.new) }
        ensures world { arc_value self.new.heap ≡ arc_value self.old.heap }
        ensures few { IfOk result (λ _. Across (AtMost 2) self.old.seat self.new.seat) }
    {
        if w >= VARIABLES {
            return Err(Refused::OutOfRange);
        }
        match self.place {
            Place::Outside => Err(Refused::Outside),
            Place::Inside => {
                share_lend(&self.heap, &mut self.seat, w, ROOT);
                if word_of(&self.seat, w) == 0 {
                    return Err(Refused::Nil);
                }
                Ok(())
            }
        }
    }

    /// Reference i of variable v's object becomes what variable w refers to. Nothing happens if v refers to nothing.
    pub fn set(&mut self, v: u8, i: u8, w: u8) -> Result<(), Refused>
        ensures done { IfOk result (λ _. SharerDoes (SetsField v i w) (ops.Set v i w) self.old self.new) }
        ensures refused { IfErr result (λ e. SharerRefused e (ops.Set v i w) self.old self.new) }
        ensures world { arc_value self.new.heap ≡ arc_value self.old.heap }
        ensures few { IfOk result (λ _. Across (AtMost 3) self.old.seat self.new.seat) }
    {
        if v >= VARIABLES || w >= VARIABLES || u32::from(i) >= self.heap.shape().fields {
            return Err(Refused::OutOfRange);
        }
        match self.place {
            Place::Outside => Err(Refused::Outside),
            Place::Inside => {
                share_set(&self.heap, &mut self.seat, v, i, w);
                Ok(())
            }
        }
    }

    /// Variable w becomes what reference i of variable v's object is found to refer to, or nil if v is.
    pub fn get(&mut self, w: u8, v: u8, i: u8) -> Result<(), Refused>
        ensures done { IfOk result (λ _. SharerDoes (FollowsField w v i) (ops.Get w v i) self.old self.new) }
        ensures refused { IfErr result (λ e. SharerRefused e (ops.Get w v i) self.old self.new) }
        ensures world { arc_value self.new.heap ≡ arc_value self.old.heap }
        ensures few { IfOk result (λ _. Across (AtMost 2) self.old.seat self.new.seat) }
    {
        if w >= VARIABLES || v >= VARIABLES || u32::from(i) >= self.heap.shape().fields {
            return Err(Refused::OutOfRange);
        }
        match self.place {
            Place::Outside => Err(Refused::Outside),
            Place::Inside => {
                get_shared(&self.heap, &mut self.seat, w, v, i);
                Ok(())
            }
        }
    }

    /// Variable w becomes what variable v is.
    pub fn copy(&mut self, w: u8, v: u8) -> Result<(), Refused>
        ensures done { IfOk result (λ _. SharerDoes (SetsVariable w (word_in (state_of self.old.seat) v)) (ops.Let w v) self.old self.new) }
        ensures refused { IfErr result (λ e. SharerRefused e (ops.Let w v) self.old self.new) }
        ensures world { arc_value self.new.heap ≡ arc_value self.old.heap }
        ensures few { IfOk result (λ _. Across (AtMost 1) self.old.seat self.new.seat) }
    {
        if w >= VARIABLES || v >= VARIABLES {
            return Err(Refused::OutOfRange);
        }
        match self.place {
            Place::Outside => Err(Refused::Outside),
            Place::Inside => {
                share_copy(&self.heap, &mut self.seat, w, v);
                Ok(())
            }
        }
    }

    /// Variable v refers to nothing any more.
    pub fn forget(&mut self, v: u8) -> Result<(), Refused>
        ensures done { IfOk result (λ _. SharerDoes (SetsVariable v 0) (ops.Nil v) self.old self.new) }
        ensures refused { IfErr result (λ e. SharerRefused e (ops.Nil v) self.old self.new) }
        ensures world { arc_value self.new.heap ≡ arc_value self.old.heap }
        ensures few { IfOk result (λ _. Across (AtMost 1) self.old.seat self.new.seat) }
    {
        if v >= VARIABLES {
            return Err(Refused::OutOfRange);
        }
        match self.place {
            Place::Outside => Err(Refused::Outside),
            Place::Inside => {
                share_forget(&self.heap, &mut self.seat, v);
                Ok(())
            }
        }
    }

    /// The value of variable v's object becomes this one. Nothing happens if v refers to nothing.
    pub fn put(&mut self, v: u8, value: u32) -> Result<(), Refused>
        ensures done { IfOk result (λ _. SharerDoes (TakesSteps (putting_steps (state_of self.old.seat) v value)) (ops.Put v value) self.old self.new) }
        ensures refused { IfErr result (λ e. SharerRefused e (ops.Put v value) self.old self.new) }
        ensures world { arc_value self.new.heap ≡ arc_value self.old.heap }
        ensures few { IfOk result (λ _. Across (AtMost 1) self.old.seat self.new.seat) }
    {
        if v >= VARIABLES {
            return Err(Refused::OutOfRange);
        }
        match self.place {
            Place::Outside => Err(Refused::Outside),
            Place::Inside => {
                share_put(&self.heap, &mut self.seat, v, value);
                Ok(())
            }
        }
    }

    /// The value of variable v's object, as one read finds it. Refused as Nil if it refers to nothing.
    pub fn value(&mut self, v: u8) -> Result<u64, Refused>
        ensures value { IfOk result (λ n. SharerDoes (FindsValue v n) (ops.Say v) self.old self.new) }
        ensures refused { IfErr result (λ e. ReadsNone e v self.old self.new) }
        ensures world { arc_value self.new.heap ≡ arc_value self.old.heap }
        ensures few { IfOk result (λ _. Across (AtMost 1) self.old.seat self.new.seat) }
    {
        if v >= VARIABLES {
            return Err(Refused::OutOfRange);
        }
        match self.place {
            Place::Outside => Err(Refused::Outside),
            Place::Inside => match share_value_of(&self.heap, &mut self.seat, v) {
                Some(value) => Ok(value),
                None => Err(Refused::Nil),
            },
        }
    }
}
