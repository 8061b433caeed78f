//! Exchanges in a shared world: of several that expect the same only one succeeds.
ghost use Rattle.std.specs.Arc.{arc_value};
ghost use Rattle.std.specs.Prelude.{◌≡◌, IfErr, IfOk};
ghost use Rattle.gc_table.specs.Seats.{Across};
ghost use Rattle.mutator_ops.specs.Few.{AtMost};
ghost use Rattle.seat_turns.specs.Exchanging.{ExchangesField, ExchangesValue};
ghost use Rattle.shared_heap.specs.Calls.{SharerActs};
ghost use Rattle.shared_heap.specs.Wanting.{CanExchange, IsVariable, WantsObject};

use crate::mutator::{Place, SharedMutator};
use mark_core::VARIABLES;
use mutator_ops::{share_count, share_exchange};
use seat_turns::{Refused, word_of};

impl SharedMutator {
    /// If reference i of variable v's object is variable `expected`, it becomes variable `new`: true if it was. Either
    /// variable may be nil.
    pub fn exchange(&mut self, v: u8, i: u8, expected: u8, new: u8) -> Result<bool, Refused>
        ensures done { IfOk result (λ won. SharerActs (CanExchange self.old v i expected new) (ExchangesField v i expected new won) self.old self.new) }
        ensures refused { IfErr result (λ e. WantsObject e (CanExchange self.old v i expected new) v self.old self.new) }
        ensures world { arc_value self.new.heap ≡ arc_value self.old.heap }
        ensures few { IfOk result (λ _. Across (AtMost 3) self.old.seat self.new.seat) }
    {
        let fields = self.heap.shape().fields;
        if v >= VARIABLES || u32::from(i) >= fields || expected >= VARIABLES || new >= VARIABLES {
            return Err(Refused::OutOfRange);
        }
        match self.place {
            Place::Outside => Err(Refused::Outside),
            Place::Inside => {
                if word_of(&self.seat, v) == 0 {
                    return Err(Refused::Nil);
                }
                Ok(share_exchange(&self.heap, &mut self.seat, v, i, Some(expected), Some(new)))
            }
        }
    }

    /// If the value of variable v's object is the expected one, it becomes the new one: true if it was.
    pub fn exchange_value(&mut self, v: u8, expected: u32, new: u32) -> Result<bool, Refused>
        ensures done { IfOk result (λ won. SharerActs (IsVariable v) (ExchangesValue v expected new won) self.old self.new) }
        ensures refused { IfErr result (λ e. WantsObject e (IsVariable v) v self.old self.new) }
        ensures world { arc_value self.new.heap ≡ arc_value self.old.heap }
        ensures few { IfOk result (λ _. Across (AtMost 1) self.old.seat self.new.seat) }
    {
        if v >= VARIABLES {
            return Err(Refused::OutOfRange);
        }
        match self.place {
            Place::Outside => Err(Refused::Outside),
            Place::Inside => {
                if word_of(&self.seat, v) == 0 {
                    return Err(Refused::Nil);
                }
                Ok(share_count(&self.heap, &mut self.seat, v, expected, new))
            }
        }
    }
}
