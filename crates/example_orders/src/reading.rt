//! What each of the four threads does.
ghost use Rattle.std.specs.Prelude.{IfOk, IfSome};
ghost use Rattle.std.specs.Bool.{OnTrue};
ghost use Rattle.shared_heap.specs.Logs.{Adds};
ghost use Rattle.example_orders.specs.Threads.{ComesToRoot, LooksAtField, ReadsFieldFirst, ReadsValueFirst, StoresField, StoresValue};

use shared_heap::{Refused, SharedMutator};
use std::sync::Wait;

/// The variables: the root, and the object that is put into its field, or was found there.
const ROOT: u8 = 0;

const OBJECT: u8 = 1;

/// What a reader found: the root's value, and whether its field referred to an object.
#[derive(Clone, Copy)]
pub struct Reading {
    pub value: u64,
    pub stored: bool,
}

/// Enters the world, and lets variable 0 refer to the root.
fn come<R: Wait>(rt: &R, m: &mut SharedMutator) -> bool
    ensures came { OnTrue result (ComesToRoot m.old m.new) }
{
    if m.enter(rt).is_err() || m.root(ROOT).is_err() {
        return false;
    }
    true
}

/// The first thread: the root's value becomes 1.
pub fn store_value<R: Wait>(rt: &R, m: &mut SharedMutator) -> bool
    ensures stored { OnTrue result (Adds StoresValue m.old m.new) }
{
    if !come(rt, m) || m.exchange_value(ROOT, 0, 1).is_err() {
        return false;
    }
    m.leave();
    true
}

/// The second thread: the root's field comes to refer to a new object.
pub fn store_field<R: Wait>(rt: &R, m: &mut SharedMutator) -> bool
    ensures stored { OnTrue result (Adds StoresField m.old m.new) }
{
    if !come(rt, m) || m.make(rt, OBJECT, 0).is_err() || m.set(ROOT, 0, OBJECT).is_err() {
        return false;
    }
    m.leave();
    true
}

/// Whether the root's field refers to an object.
fn look(m: &mut SharedMutator) -> Result<bool, Refused>
    ensures looked { IfOk result (λ stored. LooksAtField stored m.old m.new) }
{
    m.get(OBJECT, ROOT, 0)?;
    let nil = m.is_nil(OBJECT)?;
    Ok(!nil)
}

/// The third thread: it reads the value, and then the field.
pub fn read_value_first<R: Wait>(rt: &R, m: &mut SharedMutator) -> Option<Reading>
    ensures read { IfSome result (λ r. Adds (ReadsValueFirst r) m.old m.new) }
{
    if !come(rt, m) {
        return None;
    }
    let Ok(value) = m.value(ROOT) else {
        return None;
    };
    let Ok(stored) = look(m) else {
        return None;
    };
    m.leave();
    Some(Reading { value, stored })
}

/// The fourth thread: it reads the field, and then the value.
pub fn read_field_first<R: Wait>(rt: &R, m: &mut SharedMutator) -> Option<Reading>
    ensures read { IfSome result (λ r. Adds (ReadsFieldFirst r) m.old m.new) }
{
    if !come(rt, m) {
        return None;
    }
    let Ok(stored) = look(m) else {
        return None;
    };
    let Ok(value) = m.value(ROOT) else {
        return None;
    };
    m.leave();
    Some(Reading { value, stored })
}
