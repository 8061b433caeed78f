use mark_core::SECTION_SPAN;
use std::alloc::{AllocError, Global};

/// A line `chain` makes all cells, and a line `traced` scans them.
const FILLED: &str = "
$ all cells are reachable, and a precise collection finds the heap full
heap one 3
# a chain of all 64 cells, from cell 63 down to cell 0: the field of each names the cell of variable 0, which then names this cell
0 raise_step, 0 observe, 0 next_season, 0 drop_step, 0 leave_step, 1 enter_step, 1 read_season, 1 claim_block 0
1 read_free
chain
1 publish_cells, 1 release_block
words alloc 18446744073709551615, mark 0
# an ordinary cycle, up to its end in the stop; the chain is traced from variable 0, with one cell at a time in the packet
1 store_phase 1, 1 leave_step
1 raise_step, 1 observe, 1 store_phase 2
1 reserve, 1 take 0 0, 1 read_length 0, 1 read_root 1 0
traced
1 store_length 0, 1 give 0 0, 1 credit
1 store_phase 3, 1 read_stat 1, 1 next_block, 1 read_alloc 0, 1 read_block_marks, 1 store_alloc, 1 clear_marks
1 store_phase 0
# nothing is freed; but marks of before the stop may have been of what floats, so this isn't a full heap
words phase 0, alloc 18446744073709551615, mark 0, empty 66
1 store_phase 5 => 30 2
# a drain from no mark on in the same stop shows it: the seat names its section, and resumes the world with the heap full
1 reset 1, 1 store_phase 2
1 reserve, 1 take 0 0, 1 read_length 0, 1 read_root 1 0
traced
1 store_length 0, 1 give 0 0, 1 credit
1 store_phase 3, 1 read_stat 1, 1 next_block, 1 read_alloc 0, 1 read_block_marks, 1 store_alloc, 1 clear_marks
1 store_phase 0
1 store_named, 1 store_phase 5, 1 drop_step, 1 read_phase
words phase 5, named 1, world 1
words alloc 18446744073709551615, mark 0, empty 66
seat 1 saw_full 1
";

fn chain(alloc: Global) -> Result<String, AllocError> {
    let mut lines = String::new(alloc);
    for c in 0..64u32 {
        let (r, identity) = (c + 1, SECTION_SPAN + u64::from(c));
        let line = format!(in alloc;
            "1 store_new {c} 0 0, 1 store_new {c} 1 5, 1 store_new {c} 2 {identity}, 1 store_root 1 {r}, 1 store_field 1 0 0, 1 store_root 0 {r}\n"
        )?;
        lines.push_str(line.as_str())?;
    }
    Ok(lines)
}

fn traced(alloc: Global) -> Result<String, AllocError> {
    let mut lines = String::new(alloc);
    for k in 0..64u32 {
        let c = 63 - k;
        let line = format!(in alloc;
            "1 set_mark {c}, 1 push 0 {c}, 1 pop 0, 1 read_alloc 0, 1 read_field {c} 0\n"
        )?;
        lines.push_str(line.as_str())?;
    }
    Ok(lines)
}

/// The run.
pub fn filled(alloc: Global) -> Result<String, AllocError> {
    let (chain, traced) = (chain(alloc)?, traced(alloc)?);
    let mut whole = String::new(alloc);
    for line in FILLED.lines() {
        whole.push_str(match line {
            "chain" => chain.as_str(),
            "traced" => traced.as_str(),
            other => other,
        })?;
        whole.push('\n')?;
    }
    Ok(whole)
}
