ghost use Rattle.std.specs.Prelude.{◌≡◌, ◌<◌, ◌+◌, [], length, OnOk, IfOk, count_by};
ghost use Rattle.heap_dump.specs.Final.{HasDump};
ghost use Rattle.heap_dump.specs.Reading.{heap_of_dump};
ghost use Rattle.dump_census.specs.Levels.{AreLevels};
ghost use Rattle.dump_census.specs.Rounds.{is_unknown, IsLeveling};
ghost use Rattle.dump_census.specs.Counted.{level_counts};

use crate::search::Search;
use heap_dump::Dump;
use plain_heap::OutOfMemory;
use std::alloc::Global;
use std::mem;

/// The level of each record, None if no path reaches it, and how many records each level has.
#[derive(Drop)]
pub struct Levels {
    pub found: Vec<Option<u32>>,
    pub counts: Vec<u32>,
}

/// A search in which the records that variables refer to have level 0.
fn first_round(alloc: Global, dump: &Dump<'_>) -> Result<Search, OutOfMemory>
    ensures { IfOk result (λ s. IsLeveling (heap_of_dump dump.now) s []) }
{
    match Search::start(alloc, dump.records()) {
        Ok(mut search) => match search.reach_variables(dump) {
            Ok(()) => Ok(search),
            Err(e) => Err(e),
        },
        Err(e) => Err(e),
    }
}

/// Counts the records of the last level, and gives the next level to what they refer to.
fn next_round(
    alloc: Global,
    dump: &Dump<'_>,
    search: &mut Search,
    counts: &mut Vec<u32>,
) -> Result<(), OutOfMemory>
    requires legal { HasDump (heap_of_dump dump.now) }
    requires leveling { IsLeveling (heap_of_dump dump.now) search.old counts.old.items }
    requires some { 0 < length search.old.fresh }
    ensures leveling { OnOk result (IsLeveling (heap_of_dump dump.now) search.new counts.new.items) }
    ensures falls { OnOk result (count_by is_unknown search.new.found + length search.new.fresh
        < count_by is_unknown search.old.found + length search.old.fresh) }
{
    let front = mem::replace(&mut search.fresh, Vec::new(alloc));
    match counts.push(front.len() as u32) {
        Ok(()) => {}
        Err(_) => return Err(OutOfMemory),
    }
    search.reach_from(dump, counts.len() as u32, front.as_slice())
}

/// The level of each record, and how many records each level has.
pub fn find_levels(alloc: Global, dump: &Dump<'_>) -> Result<Levels, OutOfMemory>
    requires { HasDump (heap_of_dump dump.now) }
    ensures { IfOk result (λ r. AreLevels (heap_of_dump dump.now) r.found.items × (r.counts.items ≡ level_counts r.found.items)) }
{
    let mut search = match first_round(alloc, dump) {
        Ok(search) => search,
        Err(e) => return Err(e),
    };
    let mut counts = Vec::new(alloc);
    'rounds: while !search.fresh.is_empty() {
        match next_round(alloc, dump, &mut search, &mut counts) {
            Ok(()) => {}
            Err(e) => return Err(e),
        }
    }
    Ok(Levels {
        found: search.found,
        counts,
    })
}
