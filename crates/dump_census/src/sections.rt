ghost use Rattle.std.specs.Prelude.{◌≡◌, ◌≤◌, ◌<◌, ◌^◌, ◌==◌, if◌then◌else◌, length, map, count_by, sum_by, All, IfOk};
ghost use Rattle.std.specs.List.{range_with_len};
ghost use Rattle.dump_census.specs.Entries.{entry_count};

use crate::counts::SectionCount;
use crate::entries::Entry;
use plain_heap::OutOfMemory;
use rayon::prelude::*;
use std::alloc::Global;
use std::thread::Threads;

/// How many of the records a section has.
fn count_records<R: Threads + Sync>(rt: &R, entries: &[Entry], section: u32) -> u32
    requires { length entries.now ≤ 65536 }
    ensures { result ≡ count_by (λ e. e.section == section) entries.now }
{
    entries
        .par_iter()
        .map(
            |e: &Entry| -> u32
                ensures { result ≡ (if e.now.section == section then 1 else 0) }
            { if e.section == section { 1 } else { 0 } },
        )
        .sum::<u32>(rt)
}

/// The sum of the values of a section's records.
fn add_values<R: Threads + Sync>(rt: &R, entries: &[Entry], section: u32) -> u64
    requires few { length entries.now ≤ 65536 }
    requires small { All (λ e. e.value < 2 ^ 32) entries.now }
    ensures { result ≡ sum_by (λ e. if e.section == section then e.value else 0) entries.now }
{
    entries
        .par_iter()
        .map(
            |e: &Entry| -> u64
                ensures { result ≡ (if e.now.section == section then e.now.value else 0) }
            {
                if e.section == section {
                    u64::from(e.value)
                } else {
                    0
                }
            },
        )
        .sum::<u64>(rt)
}

/// The number of records and the sum of values of each section.
pub fn count_sections<R: Threads + Sync>(
    rt: &R,
    alloc: Global,
    entries: &[Entry],
    sections: u32,
) -> Result<Vec<SectionCount>, OutOfMemory>
    requires few { length entries.now ≤ 65536 }
    requires small { All (λ e. e.value < 2 ^ 32) entries.now }
    ensures { IfOk result (λ v. v.items ≡ map (entry_count entries.now) (range_with_len 0 sections)) }
{
    let mut counts = Vec::new(alloc);
    for w in 0..sections {
        let count = SectionCount {
            count: count_records(rt, entries, w),
            total: add_values(rt, entries, w),
        };
        match counts.push(count) {
            Ok(()) => {}
            Err(_) => return Err(OutOfMemory),
        }
    }
    Ok(counts)
}
