//! What a mutator reads of its variables.
ghost use Rattle.std.specs.Arc.{arc_value};
ghost use Rattle.std.specs.Prelude.{◌≡◌, ◌<◌, IfErr, IfOk, IsFalse, IsTrue, Some};
ghost use Rattle.mark_core.specs.Numbers.{section_variables};
ghost use Rattle.plain_heap.specs.PlainHeap.{variable};
ghost use Rattle.plain_heap.specs.declared.object.Ref.TheVariants.{Nil};
ghost use Rattle.plain_heap.specs.declared.operation.Op.TheVariants as ops;
ghost use Rattle.gc_table.specs.Log.{Only};
ghost use Rattle.gc_table.specs.Running.{Ran};
ghost use Rattle.gc_table.specs.Seats.{Across};
ghost use Rattle.managed_heap.specs.Calls.{HasPassed, IsSame, ReadsNone, Refuses, heap_of};
ghost use Rattle.managed_heap.specs.declared.mutator.Place.TheVariants as places;
ghost use Rattle.seat_turns.specs.Operating.{AtMost, TakesSteps};
ghost use Rattle.seat_turns.specs.Plain.{value_in};
ghost use Rattle.seat_turns.specs.Sharing.{spares_tracers};

use crate::mutator::{Mutator, Place};
use mark_core::VARIABLES;
use seat_turns::{Refused, read_value, refer_to_one, refers_to_nothing};

impl Mutator {
    /// The value of variable v's object. Refused if v refers to nothing or is out of range, or the mutator is outside.
    #[tactic(auto, using(crate::proofs::Runs::runs))]
    pub fn value(&mut self, v: u8) -> Result<u32, Refused>
        ensures value { IfOk result (λ value. (value_in (heap_of self.old) v ≡ Some value) × (v < section_variables) × HasPassed self.old self.new) }
        ensures refused { IfErr result (λ e. ReadsNone e v self.old × IsSame self.old self.new) }
        ensures place { self.new.place ≡ self.old.place }
        ensures takes { IfOk result (λ _. Across (TakesSteps (ops.Say v)) self.old.seat self.new.seat) }
        ensures few { Across (AtMost 1) self.old.seat self.new.seat }
        ensures tracers { Across (Only spares_tracers) self.old.seat self.new.seat }
        ensures world { arc_value self.new.heap ≡ arc_value self.old.heap }
        ensures ran { Across Ran self.old.seat self.new.seat }
    {
        if v >= VARIABLES {
            return Err(Refused::OutOfRange);
        }
        match self.place {
            Place::Outside => Err(Refused::Outside),
            Place::Inside => match read_value(&self.heap, &mut self.seat, v) {
                Some(value) => Ok(value),
                None => Err(Refused::Nil),
            },
        }
    }

    /// Whether variable v refers to nothing. Refused if v is out of range, or the mutator is outside.
    pub fn is_nil(&self, v: u8) -> Result<bool, Refused>
        ensures nil { IfOk result (λ nil. IsTrue nil → variable (heap_of self.now) v ≡ Nil) }
        ensures some { IfOk result (λ nil. IsFalse nil → variable (heap_of self.now) v ≡ Nil → ⊥) }
        ensures may { IfOk result (λ _. (v < section_variables) × (self.now.place ≡ places.Inside)) }
        ensures refused { IfErr result (λ e. Refuses e (ops.Say v) self.now) }
    {
        if v >= VARIABLES {
            return Err(Refused::OutOfRange);
        }
        match self.place {
            Place::Outside => Err(Refused::Outside),
            Place::Inside => Ok(refers_to_nothing(&self.heap, &self.seat, v)),
        }
    }

    /// Whether variables v and w refer to one object, or both to nothing. Refused as `is_nil` is.
    pub fn same(&self, v: u8, w: u8) -> Result<bool, Refused>
        ensures one { IfOk result (λ one. IsTrue one → variable (heap_of self.now) v ≡ variable (heap_of self.now) w) }
        ensures two { IfOk result (λ one. IsFalse one → variable (heap_of self.now) v ≡ variable (heap_of self.now) w → ⊥) }
        ensures may { IfOk result (λ _. (v < section_variables) × (w < section_variables) × (self.now.place ≡ places.Inside)) }
        ensures refused { IfErr result (λ e. Refuses e (ops.Let v w) self.now) }
    {
        if v >= VARIABLES || w >= VARIABLES {
            return Err(Refused::OutOfRange);
        }
        match self.place {
            Place::Outside => Err(Refused::Outside),
            Place::Inside => Ok(refer_to_one(&self.heap, &self.seat, v, w)),
        }
    }
}
