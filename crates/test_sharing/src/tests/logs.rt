//! What a thread of the torture stored in fields and read there.

use std::alloc::Global;

/// How many references an object has.
pub const FIELDS: u32 = 3;

/// Stands for nothing. An object stands for its value and one.
pub const NOTHING: u32 = 0;

/// What a field has in which nothing was stored.
pub const NEVER: u32 = 4_294_967_295;

fn field_of(object: u32, i: u8) -> u32 {
    object.wrapping_mul(FIELDS).wrapping_add(u32::from(i))
}

/// A field, and what it has.
pub type Entry = (u32, u32);

/// What one thread did.
#[derive(Drop)]
pub struct Log {
    /// Its stores, its reads, and what it found at the end.
    pub stores: Vec<Entry>,
    pub reads: Vec<Entry>,
    pub ends: Vec<Entry>,
    /// What it stored in each field last.
    pub last: Vec<u32>,
    /// What its exchanges of the root's fields leave there: all that came, less what went.
    pub left: [u32; 3],
}

impl Log {
    /// Nothing done, with objects that stand for less than a number.
    pub fn new(alloc: Global, objects: u32) -> Option<Log> {
        let mut last = Vec::new(alloc);
        for _ in 0..objects.wrapping_mul(FIELDS) {
            last.push(NEVER).ok()?;
        }
        Some(Log {
            stores: Vec::new(alloc),
            reads: Vec::new(alloc),
            ends: Vec::new(alloc),
            last,
            left: [NOTHING; 3],
        })
    }

    /// Empties it.
    pub fn clear(&mut self) {
        self.stores.clear();
        self.reads.clear();
        self.ends.clear();
        self.last.as_mut_slice().fill(NEVER);
        self.left = [NOTHING; 3];
    }

    /// Notes a store.
    pub fn stored(&mut self, object: u32, i: u8, what: u32) -> Option<()> {
        let field = field_of(object, i);
        *self.last.get_mut(field as usize)? = what;
        self.stores.push((field, what)).ok()
    }

    /// Notes a won exchange of a field of the root.
    pub fn exchanged(&mut self, root: u32, i: u8, from: u32, what: u32) -> Option<()> {
        let left = self.left.get_mut(usize::from(i))?;
        *left = *left ^ from ^ what;
        self.stored(root, i, what)
    }

    /// Notes a read, unless the field has nothing, as one in which nothing was stored.
    pub fn read(&mut self, object: u32, i: u8, what: u32) -> Option<()> {
        if what == NOTHING {
            return Some(());
        }
        let field = field_of(object, i);
        self.reads.push((field, what)).ok()
    }

    /// Notes what a field has at the end.
    pub fn ended(&mut self, object: u32, i: u8, what: u32) -> Option<()> {
        let field = field_of(object, i);
        self.ends.push((field, what)).ok()
    }
}
