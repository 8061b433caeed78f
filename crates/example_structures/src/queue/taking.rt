//! How the first is taken out of a queue.
ghost use Rattle.std.specs.Arc.{arc_value};
ghost use Rattle.std.specs.Prelude.{[], ◌≡◌, ◌≢◌, ◌≤◌, IfErr, IfOk, IsTrue, if◌then◌else◌};
ghost use Rattle.queue_laws.specs.QueueLogs.{has_read};
ghost use Rattle.shared_heap.specs.Calls.{field_count_of};
ghost use Rattle.shared_heap.specs.declared.mutator.Place.TheVariants.{Inside};
ghost use Rattle.example_structures.specs.Carrying.{Carries, NumbersFirst, NumbersTaking, number_looked, number_taken};
ghost use Rattle.example_structures.specs.Changes.{IsTold};
ghost use Rattle.example_structures.specs.Fitting.{AddsFitting, Began, FitsSince, FitsTaking, KeepsRead, since};
ghost use Rattle.example_structures.specs.Looks.{taken_by_look};
ghost use Rattle.example_structures.specs.Queues.{Moves, taken_by};
ghost use Rattle.example_structures.specs.Refusing.{GivenUp, IsFor, IsRefused};

use super::{FIRST, ITEM, LAST, NEXT, SharedQueue, TAIL};
use crate::calls::{copy, forget, get, is_nil, pass, same, see, value};
use crate::hands::{SEEN, begin};
use shared_heap::{Refused, SharedMutator};
use std::sync::Wait;

/// Variables: the node behind the first, and its object.
const BEHIND: u8 = 23;

const OBJECT: u8 = 24;

#[derive(Drop)]
enum Look {
    /// The first was taken, with its number.
    Taken(u64),
    /// There was none.
    Empty,
    /// Another thread was faster, or the queue's last lagged behind.
    Again,
}

impl SharedQueue {
    /// Takes the first out: its number, with its object for variable `item`. None if the queue was empty at some
    /// moment of the call.
    pub fn take<R: Wait>(
        self,
        rt: &R,
        m: &mut SharedMutator,
        item: u8,
    ) -> Result<Option<u64>, Refused>
        ensures taken { IfOk result (λ some. (m.new.place ≡ Inside) × Moves self.queue 0 (taken_by some) m.old m.new) }
        ensures refused { IfErr result (λ e. IsRefused e (IsFor item 2 m.old) m.old m.new × Moves self.queue 0 0 m.old m.new) }
        ensures fits { item ≢ self.queue → AddsFitting self.queue m.old m.new }
        ensures numbers { item ≢ self.queue → Carries self.queue [] (number_taken result) m.old m.new }
        ensures world { arc_value m.new.heap ≡ arc_value m.old.heap }
    {
        begin(m, item, 2)?;
        for _round in rt.forever() {
            match self.look(m, item)? {
                Look::Taken(number) => return Ok(Some(number)),
                Look::Empty => return Ok(None),
                Look::Again => pass(rt, m)?,
            }
        }
        Ok(None)
    }

    /// Takes the first out if it can. Then no variable keeps a node, and with it all that came behind it.
    fn look(self, m: &mut SharedMutator, item: u8) -> Result<Look, Refused>
        requires inside { m.old.place ≡ Inside }
        requires wide { IsFor item 2 m.old }
        ensures taken { IfOk result (λ look. (m.new.place ≡ Inside) × Moves self.queue 0 (taken_by_look look) m.old m.new) }
        ensures refused { IfErr result (λ e. GivenUp e m.new × Moves self.queue 0 0 m.old m.new) }
        ensures fits { item ≢ self.queue → AddsFitting self.queue m.old m.new }
        ensures numbers { item ≢ self.queue → Carries self.queue [] (number_looked result) m.old m.new }
        ensures world { arc_value m.new.heap ≡ arc_value m.old.heap }
    {
        see(m, self.queue, FIRST);
        get(m, TAIL, self.queue, LAST);
        get(m, BEHIND, SEEN, NEXT);
        let look = if same(m, SEEN, TAIL) {
            self.look_behind(m)?
        } else {
            self.try_take(m, item)?
        };
        forget(m, SEEN);
        forget(m, TAIL);
        forget(m, BEHIND);
        forget(m, OBJECT);
        Ok(look)
    }

    /// The queue is empty, or its last lags behind and moves on.
    fn look_behind(self, m: &mut SharedMutator) -> Result<Look, Refused>
        requires inside { m.old.place ≡ Inside }
        requires wide { 2 ≤ field_count_of m.old }
        ensures taken { IfOk result (λ look. (m.new.place ≡ Inside) × Moves self.queue 0 (taken_by_look look) m.old m.new) }
        ensures refused { IfErr result (λ e. GivenUp e m.new × Moves self.queue 0 0 m.old m.new) }
        ensures fits { FitsTaking self.queue m.old m.new }
        ensures numbers { Carries self.queue [] (number_looked result) m.old m.new }
        ensures world { arc_value m.new.heap ≡ arc_value m.old.heap }
    {
        if is_nil(m, SEEN) {
            return Err(Refused::Nil);
        }
        if is_nil(m, BEHIND) {
            return Ok(Look::Empty);
        }
        self.follow(m, BEHIND);
        Ok(Look::Again)
    }

    /// The node behind the first becomes the first, if no other is faster, and lets go of its object.
    fn try_take(self, m: &mut SharedMutator, item: u8) -> Result<Look, Refused>
        requires inside { m.old.place ≡ Inside }
        requires wide { IsFor item 2 m.old }
        requires told { IsTold 21 m.old }
        ensures taken { IfOk result (λ look. (m.new.place ≡ Inside) × Moves self.queue 0 (taken_by_look look) m.old m.new) }
        ensures refused { IfErr result (λ e. GivenUp e m.new × Moves self.queue 0 0 m.old m.new) }
        ensures fits { item ≢ self.queue → FitsTaking self.queue m.old m.new }
        ensures numbers { item ≢ self.queue → NumbersTaking self.queue result m.old m.new }
        ensures world { arc_value m.new.heap ≡ arc_value m.old.heap }
    {
        let number = value(m, BEHIND)?;
        get(m, OBJECT, BEHIND, ITEM);
        if !self.come_first(m)? {
            return Ok(Look::Again);
        }
        copy(m, item, OBJECT);
        forget(m, OBJECT);
        self.keep(m, BEHIND, OBJECT);
        Ok(Look::Taken(number))
    }

    fn come_first(self, m: &mut SharedMutator) -> Result<bool, Refused>
        requires inside { m.old.place ≡ Inside }
        requires wide { 2 ≤ field_count_of m.old }
        requires told { IsTold 21 m.old }
        ensures taken { IfOk result (λ won. (m.new.place ≡ Inside) × Moves self.queue 0 (if won then 1 else 0) m.old m.new) }
        ensures refused { IfErr result (λ e. GivenUp e m.new × Moves self.queue 0 0 m.old m.new) }
        ensures fits { (b : Began) → FitsSince self.queue b m.old → IsTrue (has_read b.seat 21 23 0 (since b m.old)) → FitsSince self.queue b m.new }
        ensures kept { KeepsRead self.queue m.old m.new }
        ensures numbers { NumbersFirst self.queue result m.old m.new }
        ensures world { arc_value m.new.heap ≡ arc_value m.old.heap }
    {
        m.exchange(self.queue, FIRST, SEEN, BEHIND)
    }
}
