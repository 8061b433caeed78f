ghost use Rattle.std.specs.Prelude.{◌≡◌, ◌<◌, ◌≤◌, IfOk, length, vec_len};
ghost use Rattle.plain_heap.specs.Placement.{cells_of};
ghost use Rattle.play_end.specs.Answers.{places_of};
ghost use Rattle.play_words.specs.DumpTelling.{ArePlaced, AreNumbers, cell_of_survivor};

use play_report::{Report, Survivor};
use std::alloc::{AllocError, Global};

/// The cell in which a survivor lies.
pub(crate) fn cell_of(report: &Report<'_>, survivor: &Survivor) -> usize
    requires section { survivor.now.section < length report.now.parts.items }
    requires number { survivor.now.number < length (cells_of (places_of report.now) survivor.now.section) }
    ensures { result ≡ cell_of_survivor report.now survivor.now }
{
    let part = &report.parts[survivor.section as usize];
    part.places[survivor.number as usize] as usize
}

/// For each cell 0, or one more than the number of the survivor in it.
pub(crate) fn number_cells(
    alloc: Global,
    report: &Report<'_>,
    cells: usize,
) -> Result<Vec<u32>, AllocError>
    requires { ArePlaced report.now cells }
    ensures { IfOk result (λ v. AreNumbers report.now cells v.items) }
{
    let mut numbers = vec![in alloc; 0u32; cells]?;
    for (k, survivor) in report.survivors.iter().enumerate() {
        let cell = cell_of(report, survivor);
        numbers[cell] = k as u32 + 1;
    }
    Ok(numbers)
}
