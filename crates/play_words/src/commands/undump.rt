//! The command `undump`: writes the records of the source's dump.
ghost use Rattle.std.specs.Prelude.{IfSome};
ghost use Rattle.play_words.specs.Undumping.{IsUndumpAnswer};
ghost use Rattle.gc_play.specs.Ending.{CommandEnds, TextEnds, number_of_status};
ghost use Rattle.gc_play.specs.Promise.{HasItsText, OfSource};
ghost use Rattle.gc_play.specs.Reading.{IsSpent, TakesAtMost};
ghost use Rattle.play_report.specs.Causes.{AcrossSink};

use gc_play::{DUMP, Status, Unread, read_source};
use heap_dump::{read_dump, write_dump_fault, write_undump};
use play_report::{Sink, Source};
use std::alloc::Global;

fn undump_bytes<K: Sink>(bytes: &[u8], sink: &mut K) -> Status
    ensures { AcrossSink K.written K.faults (TextEnds (IsUndumpAnswer bytes.now) result) sink.old sink.new }
{
    match read_dump(bytes) {
        Err(fault) => Status::InputFault.after(write_dump_fault(&fault, sink)),
        Ok(dump) => Status::Done.after(write_undump(&dump, sink)),
    }
}

/// Writes the records of the source's dump.
pub fn undump_source<S: Source, K: Sink>(alloc: Global, source: &mut S, sink: &mut K) -> Status
    ensures ends { AcrossSink K.written K.faults (CommandEnds (OfSource IsUndumpAnswer (S.left source.old)) result
        (S.faults source.old) (S.faults source.new)) sink.old sink.new }
    ensures spent { HasItsText (number_of_status result) → IfSome (S.left source.old) (λ bytes. IsSpent DUMP bytes (S.left source.new)) }
    ensures most { TakesAtMost DUMP (S.left source.old) (S.left source.new) }
{
    match read_source(alloc, source, DUMP) {
        Err(Unread::Memory) => Status::Memory,
        Err(Unread::Failed) => Status::ReadFault,
        Ok(bytes) => undump_bytes(bytes.as_slice(), sink),
    }
}
