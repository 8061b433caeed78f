//! What the structures do with a mutator that is inside.
//!
//! Variables and fields are in range, so most of it can't be refused. Each call says by which events it did what it
//! did, that it changed no object, and that the mutator's log still tells what variable `SEEN` refers to: by this an
//! exchange that expects it says whether it was won.
ghost use Rattle.std.specs.Arc.{arc_value};
ghost use Rattle.std.specs.Prelude.{◌≡◌, ℕ, ◌<◌, ◌≢◌, IfErr, IfOk, IsFalse, IsTrue};
ghost use Rattle.mark_core.specs.Steps.MutatorSteps.{seat_variable as word_in};
ghost use Rattle.gc_table.specs.Seats.{Across, state_of};
ghost use Rattle.mutator_ops.specs.Sharing.{SetsVariable};
ghost use Rattle.seat_turns.specs.Sharing.{FollowsField, MakesSharedAfter};
ghost use Rattle.shared_heap.specs.Calls.{FindsValue, IsSame, field_count_of};
ghost use Rattle.shared_heap.specs.declared.mutator.Place.TheVariants.{Inside};
ghost use Rattle.example_structures.specs.Changes.{ChangesNone, IsTold};
ghost use Rattle.example_structures.specs.Making.{Lays};
ghost use Rattle.example_structures.specs.Refusing.{GivenUp};

use crate::hands::{OWN, SEEN};
use shared_heap::{Refused, SharedMutator};
use std::sync::Wait;

/// Variable w becomes what reference i of variable v's object refers to; nothing if v is nil.
pub(crate) fn get(m: &mut SharedMutator, w: u8, v: u8, i: u8)
    requires inside { m.old.place ≡ Inside }
    requires range { (w < 32) × (v < 32) × (i < field_count_of m.old) }
    requires other { w ≢ 21 }
    ensures inside { m.new.place ≡ Inside }
    ensures none { ChangesNone m.old m.new }
    ensures told { IsTold 21 m.old → IsTold 21 m.new }
    ensures follows { Across (FollowsField w v i) m.old.seat m.new.seat }
    ensures world { arc_value m.new.heap ≡ arc_value m.old.heap }
{
    let _done = m.get(w, v, i);
}

/// Variable `SEEN` becomes that.
pub(crate) fn see(m: &mut SharedMutator, v: u8, i: u8)
    requires inside { m.old.place ≡ Inside }
    requires range { (v < 32) × (i < field_count_of m.old) }
    ensures inside { m.new.place ≡ Inside }
    ensures none { ChangesNone m.old m.new }
    ensures told { IsTold 21 m.new }
    ensures follows { Across (FollowsField 21 v i) m.old.seat m.new.seat }
    ensures world { arc_value m.new.heap ≡ arc_value m.old.heap }
{
    let _done = m.get(SEEN, v, i);
}

pub(crate) fn copy(m: &mut SharedMutator, w: u8, v: u8)
    requires inside { m.old.place ≡ Inside }
    requires range { (w < 32) × (v < 32) }
    requires other { w ≢ 21 }
    ensures inside { m.new.place ≡ Inside }
    ensures none { ChangesNone m.old m.new }
    ensures told { IsTold 21 m.old → IsTold 21 m.new }
    ensures sets { Across (SetsVariable w (word_in (state_of m.old.seat) v)) m.old.seat m.new.seat }
    ensures world { arc_value m.new.heap ≡ arc_value m.old.heap }
{
    let _done = m.copy(w, v);
}

pub(crate) fn forget(m: &mut SharedMutator, v: u8)
    requires inside { m.old.place ≡ Inside }
    requires range { v < 32 }
    ensures inside { m.new.place ≡ Inside }
    ensures none { ChangesNone m.old m.new }
    ensures told { v ≢ 21 → IsTold 21 m.old → IsTold 21 m.new }
    ensures sets { Across (SetsVariable v 0) m.old.seat m.new.seat }
    ensures world { arc_value m.new.heap ≡ arc_value m.old.heap }
{
    let _done = m.forget(v);
}

/// Makes an object with this value, for variable v. It is a safe point.
pub(crate) fn make<R: Wait>(rt: &R, m: &mut SharedMutator, v: u8, value: u32) -> Result<(), Refused>
    requires inside { m.old.place ≡ Inside }
    requires range { v < 32 }
    requires other { v ≢ 21 }
    ensures inside { IfOk result (λ _. m.new.place ≡ Inside) }
    ensures refused { IfErr result (λ e. GivenUp e m.new) }
    ensures none { ChangesNone m.old m.new }
    ensures told { IfOk result (λ _. IsTold 21 m.old → IsTold 21 m.new) }
    ensures some { IfOk result (λ _. 0 < word_in (state_of m.new.seat) v) }
    ensures others { IfOk result (λ _. (u : ℕ) → u ≢ v → word_in (state_of m.new.seat) u ≡ word_in (state_of m.old.seat) u) }
    ensures makes { IfOk result (λ _. Across (MakesSharedAfter v value) m.old.seat m.new.seat) }
    ensures same { IfErr result (λ _. IsSame m.old m.new) }
    ensures world { arc_value m.new.heap ≡ arc_value m.old.heap }
{
    match m.make(rt, v, value) {
        Ok(_) => Ok(()),
        Err(e) => Err(e),
    }
}

/// A safe point.
pub(crate) fn pass<R: Wait>(rt: &R, m: &mut SharedMutator) -> Result<(), Refused>
    requires inside { m.old.place ≡ Inside }
    ensures inside { IfOk result (λ _. m.new.place ≡ Inside) }
    ensures refused { IfErr result (λ e. GivenUp e m.new) }
    ensures none { ChangesNone m.old m.new }
    ensures same { IsSame m.old m.new }
    ensures world { arc_value m.new.heap ≡ arc_value m.old.heap }
{
    m.safe_point(rt)
}

/// The value of variable v's object.
pub(crate) fn value(m: &mut SharedMutator, v: u8) -> Result<u64, Refused>
    requires inside { m.old.place ≡ Inside }
    requires range { v < 32 }
    ensures inside { m.new.place ≡ Inside }
    ensures refused { IfErr result (λ e. GivenUp e m.new) }
    ensures none { ChangesNone m.old m.new }
    ensures told { IsTold 21 m.old → IsTold 21 m.new }
    ensures finds { IfOk result (λ n. Across (FindsValue v n) m.old.seat m.new.seat) }
    ensures same { IfErr result (λ _. IsSame m.old m.new) }
    ensures world { arc_value m.new.heap ≡ arc_value m.old.heap }
{
    m.value(v)
}

pub(crate) fn is_nil(m: &SharedMutator, v: u8) -> bool
    requires inside { m.now.place ≡ Inside }
    requires range { v < 32 }
    ensures nil { IsTrue result → word_in (state_of m.now.seat) v ≡ 0 }
    ensures some { IsFalse result → word_in (state_of m.now.seat) v ≡ 0 → ⊥ }
{
    m.is_nil(v).unwrap_or(true)
}

/// Whether both refer to one object, or to nothing.
pub(crate) fn same(m: &SharedMutator, v: u8, w: u8) -> bool
    requires inside { m.now.place ≡ Inside }
    requires range { (v < 32) × (w < 32) }
    ensures one { IsTrue result → word_in (state_of m.now.seat) v ≡ word_in (state_of m.now.seat) w }
    ensures two { IsFalse result → word_in (state_of m.now.seat) v ≡ word_in (state_of m.now.seat) w → ⊥ }
{
    m.same(v, w).unwrap_or(true)
}

/// Reference i of an object made in this call becomes what variable `OWN` refers to.
pub(crate) fn lay(m: &mut SharedMutator, v: u8, i: u8)
    requires inside { m.old.place ≡ Inside }
    requires range { (v < 32) × (i < field_count_of m.old) }
    requires some { 0 < word_in (state_of m.old.seat) v }
    ensures inside { m.new.place ≡ Inside }
    ensures lays { Lays v 1 m.old m.new }
    ensures some { 0 < word_in (state_of m.new.seat) v }
    ensures world { arc_value m.new.heap ≡ arc_value m.old.heap }
{
    let _done = m.set(v, i, OWN);
}
