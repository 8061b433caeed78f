//! The command `convert`: writes the script of the source in the second version of the language.
ghost use Rattle.std.specs.Prelude.{[], IfSome, if◌then◌else◌};
ghost use Rattle.gc_script.specs.Convert.{added_lines, converted_text};
ghost use Rattle.gc_script.specs.Converting.{conversion_of};
ghost use Rattle.play_report.specs.Causes.{AcrossSink, WritesTo};
ghost use Rattle.play_words.specs.Converting.{IsConvertAnswer};
ghost use Rattle.gc_play.specs.Ending.{CommandEnds, TextEnds, number_of_status};
ghost use Rattle.gc_play.specs.Promise.{HasItsText, OfSource};
ghost use Rattle.gc_play.specs.Reading.{IsSpent, TakesAtMost};

use crate::lines::write_lines;
use gc_play::{SCRIPT, Status, Unread, read_source, tell_fault};
use gc_script::{Converted, ScriptError, convert};
use play_report::{Failed, Sink, Source};
use std::alloc::Global;

fn write_added<K: Sink>(added: bool, sink: &mut K) -> Result<(), Failed>
    ensures { WritesTo K.written K.faults result sink.old sink.new (if added then added_lines else []) }
{
    if added {
        write_lines(sink, b"gcscript 2\nfields 4\n")
    } else {
        Ok(())
    }
}

fn write_converted<K: Sink>(converted: &Converted<'_>, sink: &mut K) -> Result<(), Failed>
    ensures { WritesTo K.written K.faults result sink.old sink.new (converted_text (conversion_of converted.now)) }
{
    match write_added(converted.added, sink) {
        Ok(()) => write_lines(sink, converted.rest),
        Err(e) => Err(e),
    }
}

fn convert_bytes<K: Sink>(alloc: Global, bytes: &[u8], sink: &mut K) -> Status
    ensures { AcrossSink K.written K.faults (TextEnds (IsConvertAnswer bytes.now) result) sink.old sink.new }
{
    match convert(alloc, bytes) {
        Err(ScriptError::OutOfMemory) => Status::Memory,
        Err(fault) => tell_fault(&fault, sink),
        Ok(converted) => Status::Done.after(write_converted(&converted, sink)),
    }
}

/// Converts the script of the source.
pub fn convert_source<S: Source, K: Sink>(alloc: Global, source: &mut S, sink: &mut K) -> Status
    ensures ends { AcrossSink K.written K.faults (CommandEnds (OfSource IsConvertAnswer (S.left source.old)) result
        (S.faults source.old) (S.faults source.new)) sink.old sink.new }
    ensures spent { HasItsText (number_of_status result) → IfSome (S.left source.old) (λ bytes. IsSpent SCRIPT bytes (S.left source.new)) }
    ensures most { TakesAtMost SCRIPT (S.left source.old) (S.left source.new) }
{
    match read_source(alloc, source, SCRIPT) {
        Err(Unread::Memory) => Status::Memory,
        Err(Unread::Failed) => Status::ReadFault,
        Ok(bytes) => convert_bytes(alloc, bytes.as_slice(), sink),
    }
}
