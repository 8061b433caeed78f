ghost use Rattle.std.specs.Prelude.{◌≡◌, ◌≤◌, ◌<◌, ℕ, length, map, OnOk, IfOk};
ghost use Rattle.dump_census.specs.Values.{value_count_at, count_value, AreValueCounts, IsRising, IsSortedOf};

use crate::counts::ValueCount;
use crate::entries::Entry;
use plain_heap::OutOfMemory;
use rayon::prelude::*;
use std::alloc::Global;
use std::thread::Threads;

/// The values, in order.
fn sorted_values<R: Threads + Sync>(
    rt: &R,
    alloc: Global,
    entries: &[Entry],
) -> Result<Vec<u32>, OutOfMemory>
    ensures { IfOk result (λ v. IsSortedOf (map (λ e. e.value) entries.now) v.items) }
{
    let read = entries
        .par_iter()
        .map(
            |e: &Entry| -> u32
                ensures { result ≡ e.now.value }
            { e.value },
        )
        .collect::<Vec<u32>>(rt, alloc);
    match read {
        Ok(mut values) => {
            par_sort_unstable(rt, &mut values);
            Ok(values)
        }
        Err(_) => Err(OutOfMemory),
    }
}

/// Counts one more value, no less than those before.
fn count_value(counts: &mut Vec<ValueCount>, value: u32) -> Result<(), OutOfMemory>
    requires { (i : ℕ) → i < length counts.old.items → (value_count_at counts.old.items i).count < 65536 }
    ensures { OnOk result (counts.new.items ≡ count_value counts.old.items value) }
{
    let n = counts.len();
    if 0 < n && counts[n - 1].value == value {
        counts[n - 1].count += 1;
        return Ok(());
    }
    match counts.push(ValueCount { value, count: 1 }) {
        Ok(()) => Ok(()),
        Err(_) => Err(OutOfMemory),
    }
}

fn count_sorted(alloc: Global, values: &[u32]) -> Result<Vec<ValueCount>, OutOfMemory>
    requires few { length values.now ≤ 65536 }
    requires rising { IsRising values.now }
    ensures { IfOk result (λ v. AreValueCounts values.now v.items) }
{
    let mut counts = Vec::new(alloc);
    for value in values {
        match count_value(&mut counts, *value) {
            Ok(()) => {}
            Err(e) => return Err(e),
        }
    }
    Ok(counts)
}

/// Each value that occurs, in order, and how many records have it.
pub fn count_values<R: Threads + Sync>(
    rt: &R,
    alloc: Global,
    entries: &[Entry],
) -> Result<Vec<ValueCount>, OutOfMemory>
    requires { length entries.now ≤ 65536 }
    ensures { IfOk result (λ v. AreValueCounts (map (λ e. e.value) entries.now) v.items) }
{
    match sorted_values(rt, alloc, entries) {
        Ok(values) => count_sorted(alloc, values.as_slice()),
        Err(e) => Err(e),
    }
}
