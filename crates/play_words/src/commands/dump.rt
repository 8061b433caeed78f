//! The command `dump`: plays a script and writes the heap at its end.
ghost use Rattle.std.specs.Prelude.{IfSome};
ghost use Rattle.command_words.specs.Commands.{options_of};
ghost use Rattle.play_end.specs.Answers.{AreInRange};
ghost use Rattle.play_words.specs.EndOfPlay.{IsEndOf};
ghost use Rattle.play_words.specs.Dumping.{EndsDoneOrFull, IsDumpAnswer, IsEndAnswer};
ghost use Rattle.gc_play.specs.Ending.{CommandEnds, TextEnds, number_of_status};
ghost use Rattle.gc_play.specs.Promise.{HasItsText, OfSource};
ghost use Rattle.gc_play.specs.Reading.{IsSpent, TakesAtMost};
ghost use Rattle.play_report.specs.Causes.{AcrossSink};

mod ending;
mod numbers;
mod telling;

use ending::final_heap;
use gc_play::{Gate, SCRIPT, Status, Unread, play_final, read_source, tell_fault, tell_stop};
use gc_script::{Script, ScriptError, read};
use gc_table::Words;
use heap_dump::write_dump;
use play_end::Options;
use play_report::{Report, Sink, Source};
use std::alloc::Global;
use std::sync::Wait;
use std::thread::Threads;

fn write_end<K: Sink>(
    alloc: Global,
    script: &Script<'_>,
    end: &(Report<'_>, Words),
    sink: &mut K,
) -> Status
    requires { IsEndOf script.now.sections end.now.0 end.now.1 }
    ensures { AcrossSink K.written K.faults (TextEnds (IsEndAnswer script.now) result) sink.old sink.new }
{
    match final_heap(alloc, script, &end.0, &end.1) {
        Err(_) => Status::Memory,
        Ok(heap) => Status::Done.after(write_dump(&heap, sink)),
    }
}

fn dump_script<R: Threads + Wait + Sync, K: Sink, G: Gate + Sync>(
    rt: &R,
    alloc: Global,
    script: &Script<'_>,
    options: &Options,
    sink: &mut K,
    gate: &G,
) -> Status
    requires { AreInRange options.now }
    ensures { AcrossSink K.written K.faults (TextEnds (EndsDoneOrFull (options_of options.now) script.now) result) sink.old sink.new }
{
    match play_final(rt, alloc, script, options, gate) {
        Err(error) => tell_stop(error, sink),
        Ok(end) => write_end(alloc, script, &end, sink),
    }
}

fn dump_bytes<R: Threads + Wait + Sync, K: Sink, G: Gate + Sync>(
    rt: &R,
    alloc: Global,
    bytes: &[u8],
    options: &Options,
    sink: &mut K,
    gate: &G,
) -> Status
    requires { AreInRange options.now }
    ensures { AcrossSink K.written K.faults (TextEnds (IsDumpAnswer (options_of options.now) bytes.now) result) sink.old sink.new }
{
    match read(alloc, bytes) {
        Err(ScriptError::OutOfMemory) => Status::Memory,
        Err(fault) => tell_fault(&fault, sink),
        Ok(script) => dump_script(rt, alloc, &script, options, sink, gate),
    }
}

/// Plays the script of the source, as the options say, and writes the heap at its end.
pub fn dump_source<R: Threads + Wait + Sync, S: Source, K: Sink, G: Gate + Sync>(
    rt: &R,
    alloc: Global,
    options: &Options,
    source: &mut S,
    sink: &mut K,
    gate: &G,
) -> Status
    requires { AreInRange options.now }
    ensures ends { AcrossSink K.written K.faults (CommandEnds (OfSource (IsDumpAnswer (options_of options.now)) (S.left source.old)) result
        (S.faults source.old) (S.faults source.new)) sink.old sink.new }
    ensures spent { HasItsText (number_of_status result) → IfSome (S.left source.old) (λ bytes. IsSpent SCRIPT bytes (S.left source.new)) }
    ensures most { TakesAtMost SCRIPT (S.left source.old) (S.left source.new) }
{
    match read_source(alloc, source, SCRIPT) {
        Err(Unread::Memory) => Status::Memory,
        Err(Unread::Failed) => Status::ReadFault,
        Ok(bytes) => dump_bytes(rt, alloc, bytes.as_slice(), options, sink, gate),
    }
}
