//! A queue of several producers and consumers: that of Michael and Scott (PODC 1996).
//!
//! The queue is an object with two references, to the first node and to the last. A node's value is the number put in;
//! its reference 0 is the next node, and its reference 1 the object put in. The first node is one whose number was
//! taken, or that the queue began with: so the queue always has a node.
//!
//! A node is put in by one exchange of the last node's reference, which must be nil, and taken out by one exchange of
//! the queue's first. If the queue's last lags behind, whoever finds it so moves it on. What a taken node had is read
//! before the exchange: until that is won no other changes it.
ghost use Rattle.std.specs.Arc.{arc_value};
ghost use Rattle.std.specs.Prelude.{[], ◌∷◌, ◌≡◌, ◌<◌, ◌≤◌, IfErr, IfNone, IfOk, IfSome, ◌⊎◌, if◌then◌else◌};
ghost use Rattle.shared_heap.specs.Calls.{field_count_of};
ghost use Rattle.shared_heap.specs.declared.mutator.Place.TheVariants.{Inside};
ghost use Rattle.example_structures.specs.Carrying.{Carries, KeepsNumbers, NumbersLinking, NumbersPutting, if_done};
ghost use Rattle.example_structures.specs.Changes.{IsTold};
ghost use Rattle.example_structures.specs.Fitting.{AddsFitting, Began, FitsFollowing, FitsKeeping, FitsPutting, FitsSince, Linked, MayLink, StaysFresh};
ghost use Rattle.example_structures.specs.Making.{Lays};
ghost use Rattle.example_structures.specs.Queues.{Moves};
ghost use Rattle.example_structures.specs.Refusing.{GivenUp, IsFor, IsRefused};

mod taking;

use crate::calls::{forget, get, is_nil, lay, make, pass, see};
use crate::hands::{CALLERS, OWN, SEEN, begin};
use shared_heap::{Refused, SharedMutator};
use std::sync::Wait;

/// A queue's first and last node.
const FIRST: u8 = 0;

const LAST: u8 = 1;

/// A node's next node, and the object that was put in.
const NEXT: u8 = 0;

const ITEM: u8 = 1;

/// A variable: the last node.
const TAIL: u8 = 22;

/// The queue that a variable refers to. Objects need two references at least. Its own value is the caller's.
#[derive(Clone, Copy, Debug, PartialEq, Eq, Drop)]
pub struct SharedQueue {
    queue: u8,
    ghost caller: { queue < 20 },
}

impl SharedQueue {
    /// The queue of this variable, 0 to 19; else None.
    pub fn at(queue: u8) -> Option<SharedQueue>
        ensures some { IfSome result (λ q. (q.queue ≡ queue) × (queue < 20)) }
        ensures none { IfNone result (20 ≤ queue) }
    {
        if queue >= CALLERS {
            return None;
        }
        Some(SharedQueue { queue })
    }

    /// Makes an empty queue, for the variable.
    pub fn make<R: Wait>(self, rt: &R, m: &mut SharedMutator) -> Result<(), Refused>
        ensures made { IfOk result (λ _. (m.new.place ≡ Inside) × Lays self.queue 2 m.old m.new) }
        ensures refused { IfErr result (λ e. IsRefused e (IsFor self.queue 2 m.old) m.old m.new × Lays self.queue 0 m.old m.new) }
        ensures world { arc_value m.new.heap ≡ arc_value m.old.heap }
    {
        begin(m, self.queue, 2)?;
        make(rt, m, OWN, 0)?;
        make(rt, m, self.queue, 0)?;
        lay(m, self.queue, FIRST);
        lay(m, self.queue, LAST);
        forget(m, OWN);
        Ok(())
    }

    /// Puts in a number, and the object of variable `item`, if any. It is a safe point.
    pub fn put<R: Wait>(
        self,
        rt: &R,
        m: &mut SharedMutator,
        item: u8,
        number: u32,
    ) -> Result<(), Refused>
        ensures put { IfOk result (λ _. (m.new.place ≡ Inside) × Moves self.queue 1 0 m.old m.new) }
        ensures refused { IfErr result (λ e. IsRefused e (IsFor item 2 m.old) m.old m.new × Moves self.queue 0 0 m.old m.new) }
        ensures fits { AddsFitting self.queue m.old m.new }
        ensures numbers { Carries self.queue (if_done result (number ∷ [])) [] m.old m.new }
        ensures world { arc_value m.new.heap ≡ arc_value m.old.heap }
    {
        begin(m, item, 2)?;
        make(rt, m, OWN, number)?;
        self.keep(m, OWN, item);
        let mut is_in = false;
        for _round in rt.forever() {
            if is_in {
                break;
            }
            is_in = self.try_put(rt, m)?;
        }
        forget(m, OWN);
        Ok(())
    }

    /// Whether the node in hand came behind the last. Else it is a safe point.
    fn try_put<R: Wait>(self, rt: &R, m: &mut SharedMutator) -> Result<bool, Refused>
        requires inside { m.old.place ≡ Inside }
        requires wide { 2 ≤ field_count_of m.old }
        ensures put { IfOk result (λ won. (m.new.place ≡ Inside) × Moves self.queue (if won then 1 else 0) 0 m.old m.new) }
        ensures refused { IfErr result (λ e. GivenUp e m.new × Moves self.queue 0 0 m.old m.new) }
        ensures fits { FitsPutting self.queue result m.old m.new }
        ensures numbers { NumbersPutting self.queue result m.old m.new }
        ensures world { arc_value m.new.heap ≡ arc_value m.old.heap }
    {
        if self.append(m)? {
            return Ok(true);
        }
        pass(rt, m)?;
        Ok(false)
    }

    /// The node in hand comes behind the last, or the queue's last, which lagged behind, moves on.
    fn append(self, m: &mut SharedMutator) -> Result<bool, Refused>
        requires inside { m.old.place ≡ Inside }
        requires wide { 2 ≤ field_count_of m.old }
        ensures put { IfOk result (λ won. (m.new.place ≡ Inside) × Moves self.queue (if won then 1 else 0) 0 m.old m.new) }
        ensures refused { IfErr result (λ e. GivenUp e m.new × Moves self.queue 0 0 m.old m.new) }
        ensures fits { FitsPutting self.queue result m.old m.new }
        ensures numbers { NumbersPutting self.queue result m.old m.new }
        ensures world { arc_value m.new.heap ≡ arc_value m.old.heap }
    {
        get(m, TAIL, self.queue, LAST);
        see(m, TAIL, NEXT);
        if is_nil(m, SEEN) {
            return self.link(m);
        }
        self.follow(m, SEEN);
        forget(m, SEEN);
        forget(m, TAIL);
        Ok(false)
    }

    fn link(self, m: &mut SharedMutator) -> Result<bool, Refused>
        requires inside { m.old.place ≡ Inside }
        requires wide { 2 ≤ field_count_of m.old }
        requires told { IsTold 21 m.old }
        ensures put { IfOk result (λ won. (m.new.place ≡ Inside) × Moves self.queue (if won then 1 else 0) 0 m.old m.new) }
        ensures refused { IfErr result (λ e. GivenUp e m.new × Moves self.queue 0 0 m.old m.new) }
        ensures fits { (b : Began) → FitsSince self.queue b m.old → MayLink self.queue b m.old → FitsSince self.queue b m.new × IfOk result (StaysFresh b m.new) }
        ensures numbers { NumbersLinking self.queue result m.old m.new }
        ensures world { arc_value m.new.heap ≡ arc_value m.old.heap }
    {
        let won = self.come_behind(m)?;
        if won {
            self.follow(m, OWN);
        }
        forget(m, TAIL);
        Ok(won)
    }

    fn come_behind(self, m: &mut SharedMutator) -> Result<bool, Refused>
        requires inside { m.old.place ≡ Inside }
        requires wide { 2 ≤ field_count_of m.old }
        requires told { IsTold 21 m.old }
        ensures put { IfOk result (λ won. (m.new.place ≡ Inside) × Moves self.queue (if won then 1 else 0) 0 m.old m.new) }
        ensures refused { IfErr result (λ e. GivenUp e m.new × Moves self.queue 0 0 m.old m.new) }
        ensures fits { (b : Began) → FitsSince self.queue b m.old → MayLink self.queue b m.old → FitsSince self.queue b m.new × IfOk result (Linked self.queue b m.new) }
        ensures numbers { NumbersLinking self.queue result m.old m.new }
        ensures world { arc_value m.new.heap ≡ arc_value m.old.heap }
    {
        m.exchange(TAIL, NEXT, SEEN, OWN)
    }

    fn follow(self, m: &mut SharedMutator, to: u8)
        requires inside { m.old.place ≡ Inside }
        requires wide { (to < 32) × (2 ≤ field_count_of m.old) }
        ensures inside { m.new.place ≡ Inside }
        ensures moves { Moves self.queue 0 0 m.old m.new }
        ensures fits { FitsFollowing self.queue to m.old m.new }
        ensures numbers { KeepsNumbers self.queue m.old m.new }
        ensures world { arc_value m.new.heap ≡ arc_value m.old.heap }
    {
        let _moved = m.exchange(self.queue, LAST, TAIL, to);
    }

    fn keep(self, m: &mut SharedMutator, node: u8, item: u8)
        requires inside { m.old.place ≡ Inside }
        requires wide { (item < 32) × (2 ≤ field_count_of m.old) }
        requires node { (node ≡ 20) ⊎ (node ≡ 23) }
        ensures inside { m.new.place ≡ Inside }
        ensures moves { Moves self.queue 0 0 m.old m.new }
        ensures fits { FitsKeeping self.queue node m.old m.new }
        ensures numbers { KeepsNumbers self.queue m.old m.new }
        ensures world { arc_value m.new.heap ≡ arc_value m.old.heap }
    {
        let _done = m.set(node, ITEM, item);
    }
}
