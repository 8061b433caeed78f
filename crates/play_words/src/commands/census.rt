//! The command `census`: counts the records of the source's dump.
ghost use Rattle.std.specs.Prelude.{IfSome};
ghost use Rattle.heap_dump.specs.Reading.{heap_of_dump};
ghost use Rattle.play_words.specs.Counting.{IsCensusAnswer, IsCountOf};
ghost use Rattle.gc_play.specs.Ending.{CommandEnds, TextEnds, number_of_status};
ghost use Rattle.gc_play.specs.Promise.{HasItsText, OfSource};
ghost use Rattle.gc_play.specs.Reading.{IsSpent, TakesAtMost};
ghost use Rattle.play_report.specs.Causes.{AcrossSink};

use dump_census::{census, write_census};
use gc_play::{DUMP, Status, Unread, read_source};
use heap_dump::{Dump, read_dump, write_dump_fault};
use play_report::{Sink, Source};
use std::alloc::Global;
use std::thread::Threads;

fn count_records<R: Threads + Sync, K: Sink>(
    rt: &R,
    alloc: Global,
    dump: &Dump<'_>,
    sink: &mut K,
) -> Status
    ensures { AcrossSink K.written K.faults (TextEnds (IsCountOf (heap_of_dump dump.now)) result) sink.old sink.new }
{
    match census(rt, alloc, dump) {
        Err(_) => Status::Memory,
        Ok(census) => Status::Done.after(write_census(&census, sink)),
    }
}

fn census_bytes<R: Threads + Sync, K: Sink>(
    rt: &R,
    alloc: Global,
    bytes: &[u8],
    sink: &mut K,
) -> Status
    ensures { AcrossSink K.written K.faults (TextEnds (IsCensusAnswer bytes.now) result) sink.old sink.new }
{
    match read_dump(bytes) {
        Err(fault) => Status::InputFault.after(write_dump_fault(&fault, sink)),
        Ok(dump) => count_records(rt, alloc, &dump, sink),
    }
}

/// Writes the census of the source's dump.
pub fn census_source<R: Threads + Sync, S: Source, K: Sink>(
    rt: &R,
    alloc: Global,
    source: &mut S,
    sink: &mut K,
) -> Status
    ensures ends { AcrossSink K.written K.faults (CommandEnds (OfSource IsCensusAnswer (S.left source.old)) result
        (S.faults source.old) (S.faults source.new)) sink.old sink.new }
    ensures spent { HasItsText (number_of_status result) → IfSome (S.left source.old) (λ bytes. IsSpent DUMP bytes (S.left source.new)) }
    ensures most { TakesAtMost DUMP (S.left source.old) (S.left source.new) }
{
    match read_source(alloc, source, DUMP) {
        Err(Unread::Memory) => Status::Memory,
        Err(Unread::Failed) => Status::ReadFault,
        Ok(bytes) => census_bytes(rt, alloc, bytes.as_slice(), sink),
    }
}
