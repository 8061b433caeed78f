ghost use Rattle.std.specs.Prelude.{◌≡◌, ◌<◌, length, map, IfOk};
ghost use Rattle.heap_dump.specs.Final.{object};
ghost use Rattle.heap_dump.specs.Reading.{heap_of_dump};
ghost use Rattle.dump_census.specs.Entries.{entry_of};

use heap_dump::Dump;
use plain_heap::OutOfMemory;
use rayon::prelude::*;
use std::alloc::Global;
use std::thread::Threads;

/// The section and the value of a record.
#[derive(Clone, Copy)]
pub struct Entry {
    pub section: u32,
    pub value: u32,
}

fn read_entry(dump: &Dump<'_>, k: u32) -> Entry
    requires { k < length (heap_of_dump dump.now).records }
    ensures { result ≡ entry_of (object (heap_of_dump dump.now) k) }
{
    let Some(object) = dump.nth(k) else {
        unreachable!();
    };
    Entry {
        section: object.section(),
        value: object.value(),
    }
}

/// The section and the value of each record, read by several threads.
pub fn read_entries<R: Threads + Sync>(
    rt: &R,
    alloc: Global,
    dump: &Dump<'_>,
) -> Result<Vec<Entry>, OutOfMemory>
    ensures { IfOk result (λ v. v.items ≡ map entry_of (heap_of_dump dump.now).records) }
{
    let read = (0..dump.records())
        .into_par_iter()
        .map(
            |k: u32| -> Entry
                requires { k < length (heap_of_dump dump.now).records }
                ensures { result ≡ entry_of (object (heap_of_dump dump.entry.now) k) }
            { read_entry(dump, k) },
        )
        .collect::<Vec<Entry>>(rt, alloc);
    match read {
        Ok(entries) => Ok(entries),
        Err(_) => Err(OutOfMemory),
    }
}
