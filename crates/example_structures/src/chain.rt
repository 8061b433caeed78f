//! A chain of a map, which is made anew if one of its keys is changed.
ghost use Rattle.std.specs.Arc.{arc_value};
ghost use Rattle.std.specs.Prelude.{◌≡◌, ◌<◌, ◌≤◌, IfErr, IfNone, IfOk, IfSome, IsTrue};
ghost use Rattle.shared_heap.specs.Calls.{field_count_of};
ghost use Rattle.shared_heap.specs.declared.mutator.Place.TheVariants.{Inside};
ghost use Rattle.example_structures.specs.Changes.{ChangesNone, IsTold};
ghost use Rattle.example_structures.specs.Maps.{Renews};
ghost use Rattle.example_structures.specs.Refusing.{GivenUp};

use crate::calls::{copy, forget, get, is_nil, make, same, value};
use crate::hands::{OWN, SEEN};
use shared_heap::{Refused, SharedMutator};
use std::sync::Wait;

/// The references of an entry: to the next one, and to the object that is kept.
const NEXT: u8 = 0;

const KEPT: u8 = 1;

/// Further variables: the entry of a key, what is kept there, the chain that is made, an entry that is copied, its
/// copy, and what that keeps. The last is always nil.
const ENTRY: u8 = 22;

pub(crate) const FOUND: u8 = 23;

pub(crate) const MADE: u8 = 24;

const BEFORE: u8 = 25;

const COPY: u8 = 26;

const HELD: u8 = 27;

pub(crate) const NOTHING: u8 = 28;

/// How many variables a look at a chain uses, and a change of one.
pub(crate) const LOOKED: u8 = 4;

pub(crate) const CHANGED: u8 = 8;

/// Goes to the entry of a key, with what is kept there in hand, or to the end of the chain.
pub(crate) fn seek<R: Wait>(rt: &R, m: &mut SharedMutator, key: u32) -> Result<(), Refused>
    requires inside { m.old.place ≡ Inside }
    requires wide { 2 ≤ field_count_of m.old }
    ensures inside { m.new.place ≡ Inside }
    ensures refused { IfErr result (λ e. GivenUp e m.new) }
    ensures none { ChangesNone m.old m.new }
    ensures told { IsTold 21 m.old → IsTold 21 m.new }
    ensures world { arc_value m.new.heap ≡ arc_value m.old.heap }
{
    forget(m, FOUND);
    copy(m, ENTRY, SEEN);
    for _round in rt.forever() {
        if is_nil(m, ENTRY) {
            break;
        }
        if value(m, ENTRY)? == u64::from(key) {
            get(m, FOUND, ENTRY, KEPT);
            break;
        }
        get(m, ENTRY, ENTRY, NEXT);
    }
    Ok(())
}

/// Whether what is expected was found, if any is.
pub(crate) fn is_expected(m: &SharedMutator, expected: Option<u8>) -> bool
    requires inside { m.now.place ≡ Inside }
    requires range { IfSome expected (λ v. v < 32) }
    ensures any { IfNone expected (IsTrue result) }
{
    match expected {
        None => true,
        Some(expected) => same(m, FOUND, expected),
    }
}

/// Makes the chain anew, with what variable `new` refers to under the key, if anything.
pub(crate) fn renew<R: Wait>(
    rt: &R,
    m: &mut SharedMutator,
    key: u32,
    new: u8,
) -> Result<(), Refused>
    requires inside { m.old.place ≡ Inside }
    requires wide { (new < 32) × (2 ≤ field_count_of m.old) }
    ensures inside { IfOk result (λ _. m.new.place ≡ Inside) }
    ensures refused { IfErr result (λ e. GivenUp e m.new) }
    ensures made { Renews 0 m.old m.new }
    ensures told { IfOk result (λ _. IsTold 21 m.old → IsTold 21 m.new) }
    ensures world { arc_value m.new.heap ≡ arc_value m.old.heap }
{
    leave_out(rt, m)?;
    if is_nil(m, new) {
        return Ok(());
    }
    put_before(rt, m, key, new)?;
    Ok(())
}

fn leave_out<R: Wait>(rt: &R, m: &mut SharedMutator) -> Result<(), Refused>
    requires inside { m.old.place ≡ Inside }
    requires wide { 2 ≤ field_count_of m.old }
    ensures inside { IfOk result (λ _. m.new.place ≡ Inside) }
    ensures refused { IfErr result (λ e. GivenUp e m.new) }
    ensures made { Renews 0 m.old m.new }
    ensures told { IfOk result (λ _. IsTold 21 m.old → IsTold 21 m.new) }
    ensures world { arc_value m.new.heap ≡ arc_value m.old.heap }
{
    if is_nil(m, ENTRY) {
        copy(m, MADE, SEEN);
        return Ok(());
    }
    get(m, MADE, ENTRY, NEXT);
    copy_before(rt, m)?;
    Ok(())
}

/// Puts an entry before the chain that is made.
fn put_before<R: Wait>(rt: &R, m: &mut SharedMutator, key: u32, kept: u8) -> Result<(), Refused>
    requires inside { m.old.place ≡ Inside }
    requires wide { (kept < 32) × (2 ≤ field_count_of m.old) }
    ensures inside { IfOk result (λ _. m.new.place ≡ Inside) }
    ensures refused { IfErr result (λ e. GivenUp e m.new) }
    ensures made { Renews 0 m.old m.new }
    ensures told { IfOk result (λ _. IsTold 21 m.old → IsTold 21 m.new) }
    ensures world { arc_value m.new.heap ≡ arc_value m.old.heap }
{
    make(rt, m, COPY, key)?;
    keep(m, NEXT, MADE);
    keep(m, KEPT, kept);
    copy(m, MADE, COPY);
    Ok(())
}

fn keep(m: &mut SharedMutator, i: u8, v: u8)
    requires inside { m.old.place ≡ Inside }
    requires wide { (i < 2) × (v < 32) × (2 ≤ field_count_of m.old) }
    ensures inside { m.new.place ≡ Inside }
    ensures made { Renews 0 m.old m.new }
    ensures told { IsTold 21 m.old → IsTold 21 m.new }
    ensures world { arc_value m.new.heap ≡ arc_value m.old.heap }
{
    let _done = m.set(COPY, i, v);
}

/// Copies the entries before the one in hand to the chain that is made. Nil if the chain ends before.
fn copy_before<R: Wait>(rt: &R, m: &mut SharedMutator) -> Result<(), Refused>
    requires inside { m.old.place ≡ Inside }
    requires wide { 2 ≤ field_count_of m.old }
    ensures inside { IfOk result (λ _. m.new.place ≡ Inside) }
    ensures refused { IfErr result (λ e. GivenUp e m.new) }
    ensures made { Renews 0 m.old m.new }
    ensures told { IfOk result (λ _. IsTold 21 m.old → IsTold 21 m.new) }
    ensures world { arc_value m.new.heap ≡ arc_value m.old.heap }
{
    copy(m, BEFORE, SEEN);
    for _round in rt.forever() {
        if same(m, BEFORE, ENTRY) {
            break;
        }
        copy_one(rt, m)?;
    }
    Ok(())
}

fn copy_one<R: Wait>(rt: &R, m: &mut SharedMutator) -> Result<(), Refused>
    requires inside { m.old.place ≡ Inside }
    requires wide { 2 ≤ field_count_of m.old }
    ensures inside { IfOk result (λ _. m.new.place ≡ Inside) }
    ensures refused { IfErr result (λ e. GivenUp e m.new) }
    ensures made { Renews 0 m.old m.new }
    ensures told { IfOk result (λ _. IsTold 21 m.old → IsTold 21 m.new) }
    ensures world { arc_value m.new.heap ≡ arc_value m.old.heap }
{
    let key = u32::try_from(value(m, BEFORE)?).unwrap_or(0);
    get(m, HELD, BEFORE, KEPT);
    put_before(rt, m, key, HELD)?;
    get(m, BEFORE, BEFORE, NEXT);
    Ok(())
}

/// So many of the structures' variables refer to nothing.
pub(crate) fn let_go(m: &mut SharedMutator, count: u8)
    requires inside { m.old.place ≡ Inside }
    requires range { count ≤ 8 }
    ensures inside { m.new.place ≡ Inside }
    ensures none { ChangesNone m.old m.new }
    ensures world { arc_value m.new.heap ≡ arc_value m.old.heap }
{
    for v in OWN..OWN + count {
        forget(m, v);
    }
}
