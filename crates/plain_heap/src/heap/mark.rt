//! Marks on objects by their numbers. A marked object waits until its fields are read.
ghost use Rattle.std.specs.Prelude.{◌≡◌, ◌≤◌, length, replicate, false, Contains, IfOk, OnOk};
ghost use Rattle.plain_heap.specs.declared.object.Ref.TheVariants as refs;
ghost use Rattle.plain_heap.specs.Marking.{AreMarked, Marks};

use crate::memory::OutOfMemory;
use crate::object::Ref;
use std::alloc::Global;

pub(super) fn no_marks(alloc: Global, count: usize) -> Result<Vec<bool>, OutOfMemory>
    requires { count ≤ 2000000 }
    ensures { IfOk result (λ marks. marks.items ≡ replicate count false) }
{
    let mut marks = Vec::new(alloc);
    for _ in 0..count {
        if marks.push(false).is_err() {
            return Err(OutOfMemory);
        }
    }
    Ok(marks)
}

fn mark(reference: Ref, marks: &mut Vec<bool>, waiting: &mut Vec<u32>) -> Result<(), OutOfMemory>
    ensures { OnOk result (Marks (λ n. reference ≡ refs.Own n) marks.old.items
        marks.new.items waiting.old.items waiting.new.items) }
{
    if let Ref::Own(n) = reference {
        if (n as usize) < marks.len() && !marks[n as usize] {
            if waiting.push(n).is_err() {
                return Err(OutOfMemory);
            }
            marks[n as usize] = true;
        }
    }
    Ok(())
}

pub(super) fn mark_all(
    references: &[Ref],
    marks: &mut Vec<bool>,
    waiting: &mut Vec<u32>,
) -> Result<(), OutOfMemory>
    ensures { OnOk result (Marks (λ n. Contains references.now (refs.Own n)) marks.old.items
        marks.new.items waiting.old.items waiting.new.items) }
{
    for reference in references {
        match mark(*reference, marks, waiting) {
            Ok(()) => {}
            Err(e) => return Err(e),
        }
    }
    Ok(())
}

pub(super) fn marked_numbers(alloc: Global, marks: &Vec<bool>) -> Result<Vec<u32>, OutOfMemory>
    requires { length marks.now.items ≤ 2000000 }
    ensures { IfOk result (λ numbers.
        AreMarked marks.now.items (length marks.now.items) numbers.items) }
{
    let mut numbers = Vec::new(alloc);
    for n in 0..marks.len() {
        if marks[n] {
            if numbers.push(n as u32).is_err() {
                return Err(OutOfMemory);
            }
        }
    }
    Ok(numbers)
}
