//! Where a shared object lies, and which it is.
ghost use Rattle.std.specs.Arc.{arc_value};
ghost use Rattle.std.specs.Prelude.{◌≡◌, ◌+◌, ◌-◌, ◌<◌, IfErr, IfOk};
ghost use Rattle.mark_core.specs.Steps.MutatorSteps.{seat_variable as word_in};
ghost use Rattle.mark_core.specs.declared.kinds.Step.TheVariants.{ReadIdent};
ghost use Rattle.gc_table.specs.Seats.{Across, Found, state_of};
ghost use Rattle.mutator_ops.specs.Few.{AtMost};
ghost use Rattle.shared_heap.specs.Calls.{SharerActs};
ghost use Rattle.shared_heap.specs.Wanting.{IsVariable, WantsObject};
ghost use Rattle.shared_heap.specs.declared.mutator.Place.TheVariants as places;

use crate::mutator::{Place, SharedMutator};
use mark_core::VARIABLES;
use seat_turns::{Refused, identity_shared, word_of};

impl SharedMutator {
    /// The cell of variable v's object, by no step: a number below the world's number of cells. It is the object's as
    /// long as that is reachable, and so may be the place of something beside the heap.
    pub fn place(&self, v: u8) -> Result<u32, Refused>
        ensures may { IfOk result (λ _. IsVariable v × (self.now.place ≡ places.Inside)) }
        ensures place { IfOk result (λ c. word_in (state_of self.now.seat) v ≡ c + 1) }
        ensures inside { IfOk result (λ c. c < (arc_value self.now.heap).shape.cells) }
        ensures refused { IfErr result (λ e. WantsObject e (IsVariable v) v self.now self.now) }
    {
        if v >= VARIABLES {
            return Err(Refused::OutOfRange);
        }
        match self.place {
            Place::Outside => Err(Refused::Outside),
            Place::Inside => {
                let word = word_of(&self.seat, v);
                if word == 0 {
                    return Err(Refused::Nil);
                }
                Ok(word - 1)
            }
        }
    }

    /// The number of variable v's object, by one read, which no other object of the world ever has, so that it serves
    /// as a hash by identity: 4,294,967,296 times the number of the mutator that made it, counted from 1, plus how many
    /// that one had made before.
    pub fn number(&mut self, v: u8) -> Result<u64, Refused>
        ensures number { IfOk result (λ n. SharerActs (IsVariable v) (Found (ReadIdent (word_in (state_of self.old.seat) v - 1)) n) self.old self.new) }
        ensures refused { IfErr result (λ e. WantsObject e (IsVariable v) v self.old self.new) }
        ensures world { arc_value self.new.heap ≡ arc_value self.old.heap }
        ensures few { IfOk result (λ _. Across (AtMost 1) self.old.seat self.new.seat) }
    {
        if v >= VARIABLES {
            return Err(Refused::OutOfRange);
        }
        match self.place {
            Place::Outside => Err(Refused::Outside),
            Place::Inside => {
                if word_of(&self.seat, v) == 0 {
                    return Err(Refused::Nil);
                }
                Ok(identity_shared(&self.heap, &mut self.seat, v))
            }
        }
    }
}
