//! Which objects of its own a heap can still reach. Only tests ask; no collection does.
ghost use Rattle.std.specs.Prelude.{◌≡◌, ◌≤◌, [], length, replicate, false, Contains, IfOk, OnOk};
ghost use Rattle.plain_heap.specs.declared.object.Ref.TheVariants as refs;
ghost use Rattle.plain_heap.specs.Paths.{AreOwnReachable};
ghost use Rattle.plain_heap.specs.Marking.{Marks, Reaches, refs_at};

use super::PlainHeap;
use super::mark::{mark_all, marked_numbers, no_marks};
use crate::memory::OutOfMemory;
use std::alloc::Global;

impl PlainHeap {
    /// The numbers of the own objects that own references reach from a variable, in order. `OutOfMemory`: there was
    /// none for a mark on each object, the numbers that wait, or the answer.
    pub fn reachable(&self, alloc: Global) -> Result<Vec<u32>, OutOfMemory>
        ensures { IfOk result (λ numbers. AreOwnReachable self.now numbers.items) }
    {
        let _objects = &self.objects;
        let marks = self.marks(alloc)?;
        marked_numbers(alloc, &marks)
    }

    fn marks(&self, alloc: Global) -> Result<Vec<bool>, OutOfMemory>
        ensures { IfOk result (λ marks. Reaches self.now marks.items []) }
    {
        match no_marks(alloc, self.objects().len()) {
            Ok(marks) => self.marks_on(alloc, marks),
            Err(e) => Err(e),
        }
    }

    fn marks_on(&self, alloc: Global, none: Vec<bool>) -> Result<Vec<bool>, OutOfMemory>
        requires { none.items ≡ replicate (length self.now.objects) false }
        ensures { IfOk result (λ marks. Reaches self.now marks.items []) }
    {
        let mut marks = none;
        let mut waiting = Vec::new(alloc);
        if self.mark_held(&mut marks, &mut waiting).is_err() {
            return Err(OutOfMemory);
        }
        while let Some(n) = waiting.pop() {
            if self.mark_next(n, &mut marks, &mut waiting).is_err() {
                return Err(OutOfMemory);
            }
        }
        Ok(marks)
    }

    fn mark_held(&self, marks: &mut Vec<bool>, waiting: &mut Vec<u32>) -> Result<(), OutOfMemory>
        ensures { OnOk result (Marks (λ m. Contains self.now.variables (refs.Own m)) marks.old.items
            marks.new.items waiting.old.items waiting.new.items) }
    {
        mark_all(&self.variables, marks, waiting)
    }

    fn mark_next(
        &self,
        n: u32,
        marks: &mut Vec<bool>,
        waiting: &mut Vec<u32>,
    ) -> Result<(), OutOfMemory>
        ensures { OnOk result (Marks (λ m. Contains (refs_at self.now n) (refs.Own m)) marks.old.items
            marks.new.items waiting.old.items waiting.new.items) }
    {
        match self.objects.get(n as usize) {
            None => Ok(()),
            Some(object) => mark_all(&object.refs, marks, waiting),
        }
    }
}
