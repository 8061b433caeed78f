//! The heap at the end of a play, made ready to be written as a dump.
//!
//! Which heap it is, `IsFinalHeap` (`specs/Final.antt`) says by the plain runs of the sections, and no script has two
//! (`one_final_heap`): so the dump is the same whatever the cells and threads.
//!
//! # How it is made
//!
//! The report lists the survivors in the order of the dump, and the cell of each: so a table has for each cell 0, or
//! one more than the number of its survivor's record (`numbers`). By it each root and each field is told (`telling`): a
//! word of the heap is 0, or a cell's number and 1.
//!
//! It takes 4 bytes a cell for the table, and twice 76 bytes a record and 4 a root, since a heap to be written has
//! copies of its own.
//!
//! # Why it is the final heap
//!
//! The words stand for the last of the plain runs, apart from dropped stores. A cell that a root or a field of a
//! reachable cell names is reachable, so its object is a survivor. Its place in the report is a cell in use with the
//! same identity, which only one cell in use has: so it is that very cell, and the table has the survivor's number for
//! it.
ghost use Rattle.std.specs.Prelude.{◌≡◌, ◌+◌, ◌≤◌, IfOk, length};
ghost use Rattle.plain_heap.specs.Sections.{section_numbers};
ghost use Rattle.heap_dump.specs.Final.{HasDump};
ghost use Rattle.play_words.specs.EndOfPlay.{IsEndOf};
ghost use Rattle.play_words.specs.Final.{IsFinalHeap};

use super::numbers::number_cells;
use super::telling::{tell_roots, tell_survivors};
use gc_script::Script;
use gc_table::Words;
use heap_dump::FinalHeap;
use plain_heap::OutOfMemory;
use play_report::Report;
use std::alloc::Global;

fn count_sections(script: &Script<'_>) -> u32
    ensures same { result ≡ length (section_numbers script.now.sections) }
    ensures few { result ≤ 33 }
{
    script.warehouses().len() as u32 + 1
}

/// The heap at the end of a play, from its report and the words of its closed heap, in time linear in the cells and in
/// the fields of the survivors.
pub fn final_heap(
    alloc: Global,
    script: &Script<'_>,
    report: &Report<'_>,
    words: &Words,
) -> Result<FinalHeap, OutOfMemory>
    requires { IsEndOf script.now.sections report.now words.now }
    ensures heap { IfOk result (IsFinalHeap script.now.sections) }
    ensures legal { IfOk result HasDump }
{
    let _seasons = script.seasons();
    let fields = script.fields();
    let Ok(numbers) = number_cells(alloc, report, words.idents.len()) else {
        return Err(OutOfMemory);
    };
    let Ok(roots) = tell_roots(alloc, &numbers, &words.roots) else {
        return Err(OutOfMemory);
    };
    let Ok(records) = tell_survivors(alloc, &numbers, report, words, fields as usize) else {
        return Err(OutOfMemory);
    };
    FinalHeap::make(alloc, fields, count_sections(script), &roots, &records)
}
