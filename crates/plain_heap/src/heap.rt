//! The heap of a section, and one step of it.
ghost use Rattle.std.specs.Prelude.{◌≡◌, ◌<◌, ◌≤◌, length, IfOk, IsErr, IsOkAnd, OnErr, OnOk};
ghost use Rattle.std.specs.Option.{option_copied};
ghost use Rattle.plain_heap.specs.PlainHeap.{empty_heap, heap_variables, variable};
ghost use Rattle.plain_heap.specs.PlainStep.{heap_after, line_of, IsInRange, MakesObject};

use crate::memory::OutOfMemory;
use crate::object::{Object, Ref};
use crate::operation::{Line, Op};
use std::alloc::Global;
use std::marker::Model;

mod look;
mod mark;
mod reachable;
mod store;

/// The heap of one section: every object that it ever made, numbered from 0 on, 32 variables, and a count of dropped
/// stores.
#[derive(Drop)]
pub struct PlainHeap {
    section: u32,
    fields: u32,
    objects: Vec<Object>,
    variables: [Ref; 32],
    dropped: u32,
}

impl Model for PlainHeap {
    ghost use Rattle.std.specs.Prelude.{◌≡◌, ◌≤◌, length};
    ghost use Rattle.plain_heap.specs.PlainHeap.{Heap, heap_variables};

    ghost Value = { Heap };

    ghost view = { λ h. record {
      section = h.section;
      fields = h.fields;
      objects = h.objects.items;
      variables = h.variables;
      dropped = h.dropped;
    } };

    ghost invariant = { λ h. (1 ≤ h.fields) × (h.fields ≤ 16)
        × (length h.objects.items ≤ 2000000) × (length h.variables ≡ heap_variables)
        × (h.dropped ≤ 2000000) };
}

impl PlainHeap {
    /// An empty heap, for operations that name `fields` fields of an object, 1 to 16. `section` is 0 for the catalogue,
    /// otherwise the warehouse's number. It takes no memory yet, so it is never refused.
    pub fn new(alloc: Global, section: u32, fields: u32) -> Result<PlainHeap, OutOfMemory>
        requires least { 1 ≤ fields }
        requires most { fields ≤ 16 }
        ensures { IsOkAnd result (λ h. h ≡ empty_heap fields section) }
    {
        Ok(PlainHeap {
            section,
            fields,
            objects: Vec::new(alloc),
            variables: [Ref::Nil; 32],
            dropped: 0,
        })
    }

    /// Does one operation, and answers what it prints: a line for `Say` and `Sum`, otherwise `None`.
    ///
    /// `cat` is the catalogue's heap, and `None` for the catalogue itself. Numbers are in range as [`Op`] says. Only
    /// `New` is ever refused, if memory runs out, and the heap is unchanged.
    pub fn step(&mut self, cat: Option<&PlainHeap>, op: Op) -> Result<Option<Line>, OutOfMemory>
        requires range { IsInRange self.old.fields op }
        requires room { length self.old.objects < 2000000 }
        requires drops { self.old.dropped < 2000000 }
        ensures heap { OnOk result (self.new ≡ heap_after self.old (option_copied cat.entry) op) }
        ensures line { IfOk result (λ line.
            line ≡ line_of self.old (option_copied cat.entry) op) }
        ensures err { OnErr result (self.new ≡ self.old) }
        ensures only_new { IsErr result → MakesObject op }
    {
        // A read of the heap's fields shows the check that they are at most 16.
        let _fields = self.fields;
        match op {
            Op::New { v, n } => return self.make(v, n),
            Op::Let { v, w } => self.assign(v, self.variable(w)),
            Op::Nil { v } => self.assign(v, Ref::Nil),
            Op::Set { v, i, w } => self.store_field(v, i, w),
            Op::Get { v, w, i } => self.assign(v, self.follow(cat, self.variable(w), i)),
            Op::Cat { v, c } => self.assign(v, look::lent_variable(cat, c)),
            Op::Put { v, n } => self.store_value(v, n),
            Op::Say { v } => return Ok(Some(self.value_line(cat, v))),
            Op::Sum { v, i, limit } => return Ok(Some(self.walk(cat, v, i, limit))),
            Op::Collect => {}
        }
        Ok(None)
    }

    /// The section: 0 for the catalogue, otherwise the warehouse's number.
    pub fn section(&self) -> u32
        ensures { result ≡ self.now.section }
    {
        self.section
    }

    /// How many fields of an object the operations may name, from 1 to 16.
    pub fn fields(&self) -> u32
        ensures same { result ≡ self.now.fields }
        ensures least { 1 ≤ result }
        ensures most { result ≤ 16 }
    {
        self.fields
    }

    /// How many stores to objects of the catalogue were dropped, at most 2,000,000.
    pub fn dropped(&self) -> u32
        ensures same { result ≡ self.now.dropped }
        ensures few { result ≤ 2000000 }
    {
        self.dropped
    }

    /// Every object that was ever made here, by its number; at most 2,000,000.
    pub fn objects(&self) -> &[Object]
        ensures same { result.now ≡ self.now.objects }
        ensures few { length result.now ≤ 2000000 }
    {
        &self.objects
    }

    /// What variable `v`, below 32, holds.
    pub fn variable(&self, v: u8) -> Ref
        requires { v < heap_variables }
        ensures held { result ≡ variable self.now v }
        ensures names { length self.now.variables ≡ heap_variables }
    {
        self.variables[v as usize]
    }
}
