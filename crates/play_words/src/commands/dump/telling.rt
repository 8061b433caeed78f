ghost use Rattle.std.specs.Prelude.{◌≡◌, ◌<◌, ◌≤◌, ◌+◌, ◌*◌, ℕ, All, IfOk, length, map};
ghost use Rattle.play_words.specs.DumpTelling.{ArePlaced, AreRecords, AreRefs, HasFields, HasPlace, IsRecord, IsSurvivor, cell_of_survivor, dumped_word as number_told};

use super::numbers::cell_of;
use gc_table::Words;
use heap_dump::FinalRecord;
use play_report::{Report, Survivor};
use std::alloc::{AllocError, Global};

fn number_of(numbers: &[u32], word: u64) -> u32
    requires { word ≤ length numbers.now }
    ensures { result ≡ number_told numbers.now word }
{
    if word == 0 {
        0
    } else {
        numbers[(word - 1) as usize]
    }
}

/// The roots as references.
pub(crate) fn tell_roots(
    alloc: Global,
    numbers: &[u32],
    roots: &[u64],
) -> Result<Vec<u32>, AllocError>
    requires { All (λ word. word ≤ length numbers.now) roots.now }
    ensures { IfOk result (λ v. v.items ≡ map (number_told numbers.now) roots.now) }
{
    let mut told = Vec::with_capacity(alloc, roots.len())?;
    for word in roots {
        told.push(number_of(numbers, *word))?;
    }
    Ok(told)
}

/// The fields of a cell as references, and zeros.
fn tell_refs(numbers: &[u32], words: &Words, fields: usize, cell: usize) -> [u32; 16]
    requires { HasFields words.now fields (length numbers.now) cell }
    ensures { AreRefs numbers.now words.now fields cell result }
{
    let mut refs = [0u32; 16];
    for i in 0..fields {
        refs[i] = number_of(numbers, words.fields[cell * fields + i]);
    }
    refs
}

fn tell_survivor(
    numbers: &[u32],
    report: &Report<'_>,
    words: &Words,
    fields: usize,
    survivor: &Survivor,
) -> FinalRecord
    requires place { HasPlace report.now (length numbers.now) survivor.now }
    requires fields { HasFields words.now fields (length numbers.now) (cell_of_survivor report.now survivor.now) }
    ensures { IsRecord numbers.now report.now words.now fields survivor.now result }
{
    let cell = cell_of(report, survivor);
    FinalRecord {
        section: survivor.section,
        number: survivor.number,
        value: survivor.value,
        refs: tell_refs(numbers, words, fields, cell),
    }
}

/// The records of all survivors.
pub(crate) fn tell_survivors(
    alloc: Global,
    numbers: &[u32],
    report: &Report<'_>,
    words: &Words,
    fields: usize,
) -> Result<Vec<FinalRecord>, AllocError>
    requires placed { ArePlaced report.now (length numbers.now) }
    requires fields { (k : ℕ) (x : Survivor) → IsSurvivor report.now k x → HasFields words.now fields (length numbers.now) (cell_of_survivor report.now x) }
    ensures { IfOk result (λ v. AreRecords numbers.now report.now words.now fields (length report.now.survivors.items) v.items) }
{
    let mut told = Vec::with_capacity(alloc, report.survivors.len())?;
    for survivor in report.survivors.iter() {
        told.push(tell_survivor(numbers, report, words, fields, survivor))?;
    }
    Ok(told)
}
