//! The command `run`.
ghost use Rattle.std.specs.Prelude.{IfSome};
ghost use Rattle.gc_play.specs.RunAnswers.{IsRunAnswer, PlaysTo};
ghost use Rattle.command_words.specs.Commands.{options_of};
ghost use Rattle.gc_play.specs.Ending.{CommandEnds, TextEnds, number_of_status};
ghost use Rattle.gc_play.specs.Promise.{HasItsText, OfSource};
ghost use Rattle.play_end.specs.Answers.{AreInRange};
ghost use Rattle.gc_play.specs.Reading.{IsSpent, TakesAtMost};
ghost use Rattle.play_report.specs.Causes.{AcrossSink};

use crate::fault::tell_fault;
use crate::playing::play;
use crate::source::{SCRIPT, Unread, read_source};
use crate::status::Status;
use crate::stopped::tell_stop;
use gc_script::{Script, ScriptError, read};
use play_end::Options;
use play_report::{Sink, Source, write_report};
use std::alloc::Global;
use std::sync::Wait;
use std::thread::Threads;
use warehouse::Gate;

fn play_script<R: Threads + Wait + Sync, K: Sink, G: Gate + Sync>(
    rt: &R,
    alloc: Global,
    script: &Script<'_>,
    options: &Options,
    sink: &mut K,
    gate: &G,
) -> Status
    requires { AreInRange options.now }
    ensures { AcrossSink K.written K.faults (TextEnds (PlaysTo (options_of options.now) script.now) result) sink.old sink.new }
{
    match play(rt, alloc, script, options, gate) {
        Err(error) => tell_stop(error, sink),
        Ok(report) => Status::Done.after(write_report(&report, options.place, sink)),
    }
}

/// Reads and plays a script, and writes what it says or its fault.
pub fn play_bytes<R: Threads + Wait + Sync, K: Sink, G: Gate + Sync>(
    rt: &R,
    alloc: Global,
    bytes: &[u8],
    options: &Options,
    sink: &mut K,
    gate: &G,
) -> Status
    requires { AreInRange options.now }
    ensures { AcrossSink K.written K.faults (TextEnds (IsRunAnswer (options_of options.now) bytes.now) result) sink.old sink.new }
{
    match read(alloc, bytes) {
        Err(ScriptError::OutOfMemory) => Status::Memory,
        Err(fault) => tell_fault(&fault, sink),
        Ok(script) => play_script(rt, alloc, &script, options, sink, gate),
    }
}

/// Plays the script of the source, as the options say.
pub fn play_source<R: Threads + Wait + Sync, S: Source, K: Sink, G: Gate + Sync>(
    rt: &R,
    alloc: Global,
    options: &Options,
    source: &mut S,
    sink: &mut K,
    gate: &G,
) -> Status
    requires { AreInRange options.now }
    ensures ends { AcrossSink K.written K.faults (CommandEnds (OfSource (IsRunAnswer (options_of options.now)) (S.left source.old)) result
        (S.faults source.old) (S.faults source.new)) sink.old sink.new }
    ensures spent { HasItsText (number_of_status result) → IfSome (S.left source.old) (λ bytes. IsSpent SCRIPT bytes (S.left source.new)) }
    ensures most { TakesAtMost SCRIPT (S.left source.old) (S.left source.new) }
{
    match read_source(alloc, source, SCRIPT) {
        Err(Unread::Memory) => Status::Memory,
        Err(Unread::Failed) => Status::ReadFault,
        Ok(bytes) => play_bytes(rt, alloc, bytes.as_slice(), options, sink, gate),
    }
}
