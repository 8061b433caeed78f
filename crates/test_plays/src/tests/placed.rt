//! Cells are used again, but not while their object is reachable.
use crate::tests::outside::{answer_of, sure};
use crate::tests::written::expanded;
use std::alloc::Global;
use std::sync::Wait;
use std::thread::Threads;

/// How many objects stay reachable, a script that makes 130 objects, and the text before their cells.
const ROWS: &str = "$ 0; gcscript 1; warehouse; repeat 130; new x 1; end
=> warehouse 1; dropped 0; survivors 1; 1 129 1; placed 130
$ 1; gcscript 1; warehouse; new k 2; repeat 129; new x 1; end
=> warehouse 1; dropped 0; survivors 2; 1 0 2; 1 129 1; placed 130
$ 2; gcscript 1; warehouse; new k 2; new l 3; set k 0 l; nil l; repeat 128; new x 1; end
=> warehouse 1; dropped 0; survivors 3; 1 0 2; 1 1 3; 1 129 1; placed 130
";

fn cells_of(alloc: Global, lines: &str) -> Option<Vec<u32>> {
    let mut cells = Vec::new(alloc);
    for line in lines.lines() {
        let start = format!(in alloc; "1 {} ", cells.len()).ok()?;
        let cell = line.strip_prefix(start.as_str())?;
        cells.push(cell.parse::<u32>().ok()?).ok()?;
    }
    Some(cells)
}

/// Whether no cell is past the heap, used twice in a row, or that of one of the first `kept` objects.
fn may_lie(cells: &[u32], kept: usize) -> bool {
    let mut last = 64;
    let mut may = cells.len() == 130;
    for (i, cell) in cells.iter().enumerate() {
        let front = cells.get(..i.min(kept)).unwrap_or(&[]);
        may = may && *cell < 64 && *cell != last && !front.contains(cell);
        last = *cell;
    }
    may
}

fn reuses<R: AllocGlobal + Threads + Wait + Sync>(rt: &R, row: &str) -> Option<bool> {
    let whole = expanded(rt.alloc(), row)?;
    let (kept, rest) = whole.as_str().split_once('\n')?;
    let (script, front) = rest.split_once("=> ")?;
    let (status, text) = answer_of(rt, "run --cells 64 --place", &sure(script.as_bytes()))?;
    let lines = str::from_utf8(text.as_slice()).ok()?.strip_prefix(front)?;
    let cells = cells_of(rt.alloc(), lines)?;
    Some(status == 0 && may_lie(cells.as_slice(), kept.parse::<usize>().ok()?))
}

#[test]
fn reuses_cells(rt: HostRuntime) {
    for row in ROWS.split("$ ").skip(1) {
        assert!(rt; reuses(&rt, row) == Some(true), "{row}");
    }
}
