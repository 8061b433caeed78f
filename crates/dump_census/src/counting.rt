ghost use Rattle.std.specs.Prelude.{◌≡◌, ◌≤◌, if◌then◌else◌, length, count_by, IfOk};
ghost use Rattle.heap_dump.specs.Reading.{heap_of_dump};
ghost use Rattle.dump_census.specs.Rounds.{is_unknown};
ghost use Rattle.dump_census.specs.Counted.{IsCensus};

use crate::counts::Census;
use crate::entries::read_entries;
use crate::levels::find_levels;
use crate::sections::count_sections;
use crate::values::count_values;
use heap_dump::Dump;
use plain_heap::OutOfMemory;
use rayon::prelude::*;
use std::alloc::Global;
use std::thread::Threads;

/// How many records have no level.
fn count_unreached<R: Threads + Sync>(rt: &R, found: &[Option<u32>]) -> u32
    requires { length found.now ≤ 65536 }
    ensures { result ≡ count_by is_unknown found.now }
{
    found
        .par_iter()
        .map(
            |level: &Option<u32>| -> u32
                ensures { result ≡ (if is_unknown level.now then 1 else 0) }
            { if level.is_none() { 1 } else { 0 } },
        )
        .sum::<u32>(rt)
}

/// Counts the records of a dump by level, by section and by value, in ranges that run side by side if there are
/// many.
pub fn census<R: Threads + Sync>(
    rt: &R,
    alloc: Global,
    dump: &Dump<'_>,
) -> Result<Census, OutOfMemory>
    ensures { IfOk result (λ c. IsCensus (heap_of_dump dump.now) c) }
{
    let _records = dump.records();
    let entries = match read_entries(rt, alloc, dump) {
        Ok(entries) => entries,
        Err(e) => return Err(e),
    };
    let levels = match find_levels(alloc, dump) {
        Ok(levels) => levels,
        Err(e) => return Err(e),
    };
    let sections = match count_sections(rt, alloc, entries.as_slice(), dump.sections()) {
        Ok(sections) => sections,
        Err(e) => return Err(e),
    };
    match count_values(rt, alloc, entries.as_slice()) {
        Ok(values) => Ok(Census {
            levels: levels.counts,
            unreached: count_unreached(rt, levels.found.as_slice()),
            sections,
            values,
        }),
        Err(e) => Err(e),
    }
}
