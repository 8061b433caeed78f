//! What an operation reads: objects, their fields, and walks from field to field.
ghost use Rattle.std.specs.Prelude.{◌≡◌, ◌<◌, ◌≤◌};
ghost use Rattle.std.specs.Option.{option_copied};
ghost use Rattle.plain_heap.specs.PlainHeap.{heap_variables, variable};
ghost use Rattle.plain_heap.specs.PlainStep.{field_of, followed, lent, lent_variable};
ghost use Rattle.plain_heap.specs.PlainStep.{object_of, value_line, value_of, walk, walk_line};

use super::PlainHeap;
use crate::object::{Object, Ref};
use crate::operation::Line;

fn lent(reference: Ref) -> Ref
    ensures { result ≡ lent reference }
{
    match reference {
        Ref::Own(n) => Ref::Cat(n),
        Ref::Nil => Ref::Nil,
        Ref::Cat(n) => Ref::Cat(n),
    }
}

pub(super) fn lent_variable(cat: Option<&PlainHeap>, c: u8) -> Ref
    requires { c < heap_variables }
    ensures { result ≡ lent_variable (option_copied cat.entry) c }
{
    match cat {
        None => Ref::Nil,
        Some(catalogue) => lent(catalogue.variable(c)),
    }
}

fn field_of(object: Option<&Object>, i: u8) -> Ref
    requires { i < 16 }
    ensures { result ≡ field_of (option_copied object.entry) i }
{
    match object {
        None => Ref::Nil,
        Some(object) => object.refs[i as usize],
    }
}

impl PlainHeap {
    fn object<'a>(&'a self, cat: Option<&'a PlainHeap>, reference: Ref) -> Option<&'a Object>
        ensures { option_copied result ≡ object_of self.now (option_copied cat.entry) reference }
    {
        match reference {
            Ref::Nil => None,
            Ref::Own(n) => self.objects.get(n as usize),
            Ref::Cat(n) => match cat {
                None => None,
                Some(catalogue) => catalogue.objects.get(n as usize),
            },
        }
    }

    pub(super) fn follow(&self, cat: Option<&PlainHeap>, reference: Ref, i: u8) -> Ref
        requires { i < 16 }
        ensures { result ≡ followed self.now (option_copied cat.entry) reference i }
    {
        match reference {
            Ref::Nil => Ref::Nil,
            Ref::Own(n) => field_of(self.objects.get(n as usize), i),
            Ref::Cat(_) => lent(field_of(self.object(cat, reference), i)),
        }
    }

    pub(super) fn value_line(&self, cat: Option<&PlainHeap>, v: u8) -> Line
        requires { v < heap_variables }
        ensures { result ≡ value_line
            (object_of self.now (option_copied cat.entry) (variable self.now v)) }
    {
        match self.object(cat, self.variables[v as usize]) {
            None => Line::Nil,
            Some(object) => Line::Value(object.value),
        }
    }

    fn value(&self, cat: Option<&PlainHeap>, reference: Ref) -> u32
        ensures { result ≡ value_of (object_of self.now (option_copied cat.entry) reference) }
    {
        match self.object(cat, reference) {
            None => 0,
            Some(object) => object.value,
        }
    }

    pub(super) fn walk(&self, cat: Option<&PlainHeap>, v: u8, i: u8, limit: u32) -> Line
        requires v { v < heap_variables }
        requires i { i < 16 }
        requires limit { limit ≤ 65536 }
        ensures { result ≡ walk_line
            (walk self.now (option_copied cat.entry) i limit (variable self.now v)) }
    {
        let mut reference = self.variables[v as usize];
        let mut count = 0u32;
        let mut total = 0u64;
        for step in 0..limit {
            if let Ref::Nil = reference {
                return Line::Walk { count, total };
            }
            count += 1;
            total += u64::from(self.value(cat, reference));
            reference = self.follow(cat, reference, i);
        }
        Line::Walk { count, total }
    }
}
