//! A table: an object whose references are rows of 16 buckets each. A bucket is a chain of entries. An entry's
//! value is its key; its reference 0 is the next entry, and its reference 1 the object kept under the key.
ghost use Rattle.std.specs.Prelude.{◌≡◌, ◌<◌};

use managed_heap::{Mutator, Refused};
use std::sync::Wait;

/// The variables: the table, a row of it, an entry, the entry before or behind it, what was made last, and the
/// table before it grew.
const TABLE: u8 = 0;

const ROW: u8 = 1;

const ENTRY: u8 = 2;

const OTHER: u8 = 3;

const MADE: u8 = 4;

const OLD: u8 = 5;

/// How many entries a chain has at most.
const ENTRIES: u32 = 1000;

/// The row of a key, and its bucket there, in a table of 1 or 16 rows.
fn place_of(key: u32, rows: u8) -> (u8, u8)
    ensures row { (result.0 < 16) × (rows ≡ 1 → result.0 ≡ 0) }
    ensures bucket { result.1 < 16 }
{
    let hash = (key.wrapping_mul(2_654_435_761) >> 16) as u16;
    let row = if rows == 1 { 0 } else { (hash >> 4) % 16 };
    (row as u8, (hash % 16) as u8)
}

/// Makes an empty table of so many rows.
pub fn make<R: Wait>(m: &mut Mutator, rt: &R, rows: u8) -> Result<(), Refused> {
    m.make(rt, TABLE, 0)?;
    for row in 0..rows {
        m.make(rt, MADE, 0)?;
        m.set(TABLE, row, MADE)?;
    }
    Ok(())
}

fn link(m: &mut Mutator, rows: u8, key: u32) -> Result<(), Refused> {
    let (row, bucket) = place_of(key, rows);
    m.get(ROW, TABLE, row)?;
    m.get(MADE, ROW, bucket)?;
    m.set(ENTRY, 0, MADE)?;
    m.set(ROW, bucket, ENTRY)
}

/// Keeps a number under a key.
pub fn insert<R: Wait>(
    m: &mut Mutator,
    rt: &R,
    rows: u8,
    key: u32,
    kept: u32,
) -> Result<(), Refused> {
    m.make(rt, ENTRY, key)?;
    m.make(rt, MADE, kept)?;
    m.set(ENTRY, 1, MADE)?;
    link(m, rows, key)
}

/// Moves a chain, which begins with the entry in hand, to the table.
fn move_chain(m: &mut Mutator, rows: u8) -> Result<(), Refused> {
    for _ in 0..ENTRIES {
        if m.is_nil(ENTRY)? {
            return Ok(());
        }
        m.get(OTHER, ENTRY, 0)?;
        let key = m.value(ENTRY)?;
        link(m, rows, key)?;
        m.copy(ENTRY, OTHER)?;
    }
    Ok(())
}

/// Lets a table of one row grow to 16 rows.
pub fn grow<R: Wait>(m: &mut Mutator, rt: &R) -> Result<(), Refused> {
    m.get(OLD, TABLE, 0)?;
    make(m, rt, 16)?;
    for bucket in 0..16u8 {
        m.get(ENTRY, OLD, bucket)?;
        move_chain(m, 16)?;
    }
    m.forget(OLD)
}

/// Comes to the entry of a key, with the one before it in hand too. False if there is none.
fn seek(m: &mut Mutator, rows: u8, key: u32) -> Result<bool, Refused> {
    let (row, bucket) = place_of(key, rows);
    m.get(ROW, TABLE, row)?;
    m.get(ENTRY, ROW, bucket)?;
    m.forget(OTHER)?;
    for _ in 0..ENTRIES {
        if m.is_nil(ENTRY)? {
            return Ok(false);
        }
        if m.value(ENTRY)? == key {
            return Ok(true);
        }
        m.copy(OTHER, ENTRY)?;
        m.get(ENTRY, ENTRY, 0)?;
    }
    Ok(false)
}

/// The number kept under a key, if there is one.
pub fn find(m: &mut Mutator, rows: u8, key: u32) -> Result<Option<u32>, Refused> {
    if !seek(m, rows, key)? {
        return Ok(None);
    }
    m.get(MADE, ENTRY, 1)?;
    Ok(Some(m.value(MADE)?))
}

/// Takes a key out of the table.
pub fn remove(m: &mut Mutator, rows: u8, key: u32) -> Result<(), Refused> {
    if !seek(m, rows, key)? {
        return Ok(());
    }
    m.get(MADE, ENTRY, 0)?;
    if m.is_nil(OTHER)? {
        let (_row, bucket) = place_of(key, rows);
        return m.set(ROW, bucket, MADE);
    }
    m.set(OTHER, 0, MADE)
}
