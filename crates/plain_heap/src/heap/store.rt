//! The operations that change a heap.
ghost use Rattle.std.specs.Prelude.{◌≡◌, ◌<◌, length, IfOk, None, OnErr, OnOk};
ghost use Rattle.plain_heap.specs.PlainHeap.{heap_variables, variable};
ghost use Rattle.plain_heap.specs.PlainStep.{assigned, stored_at, with_field, with_new, with_value};

use super::PlainHeap;
use crate::memory::OutOfMemory;
use crate::object::{Object, Ref};
use crate::operation::Line;

impl PlainHeap {
    pub(super) fn make(&mut self, v: u8, n: u32) -> Result<Option<Line>, OutOfMemory>
        requires name { v < heap_variables }
        requires room { length self.old.objects < 2000000 }
        ensures heap { OnOk result (self.new ≡ with_new self.old v n) }
        ensures line { IfOk result (λ line. line ≡ None) }
        ensures err { OnErr result (self.new ≡ self.old) }
    {
        let number = self.objects.len() as u32;
        let object = Object {
            value: n,
            refs: [Ref::Nil; 16],
        };
        if self.objects.push(object).is_err() {
            return Err(OutOfMemory);
        }
        self.variables[v as usize] = Ref::Own(number);
        Ok(None)
    }

    pub(super) fn assign(&mut self, v: u8, reference: Ref)
        requires { v < heap_variables }
        ensures { self.new ≡ assigned self.old v reference }
    {
        self.variables[v as usize] = reference;
    }

    pub(super) fn store_field(&mut self, v: u8, i: u8, w: u8)
        requires v { v < heap_variables }
        requires i { i < 16 }
        requires w { w < heap_variables }
        requires drops { self.old.dropped < 2000000 }
        ensures { self.new ≡ stored_at self.old (variable self.old v)
            (λ object. with_field object i (variable self.old w)) }
    {
        let reference = self.variables[w as usize];
        match self.variables[v as usize] {
            Ref::Nil => {}
            Ref::Cat(_) => self.dropped += 1,
            Ref::Own(n) => {
                if let Some(object) = self.objects.get_mut(n as usize) {
                    object.refs[i as usize] = reference;
                }
            }
        }
    }

    pub(super) fn store_value(&mut self, v: u8, n: u32)
        requires v { v < heap_variables }
        requires drops { self.old.dropped < 2000000 }
        ensures { self.new ≡ stored_at self.old (variable self.old v)
            (λ object. with_value object n) }
    {
        match self.variables[v as usize] {
            Ref::Nil => {}
            Ref::Cat(_) => self.dropped += 1,
            Ref::Own(number) => {
                if let Some(object) = self.objects.get_mut(number as usize) {
                    object.value = n;
                }
            }
        }
    }
}
