//! The command `batch`: plays the scripts of a batch, several at a time, each as `run` does.
ghost use Rattle.std.specs.Prelude.{◌≢◌, ◌≤◌, IfSome, Ok};
ghost use Rattle.job_pool.specs.Batch.{batch_fault_of};
ghost use Rattle.command_words.specs.Commands.{options_of};
ghost use Rattle.play_end.specs.Answers.{AreInRange};
ghost use Rattle.play_words.specs.Batching.{IsBatchAnswer, IsBatchFault, BatchesTo};
ghost use Rattle.gc_play.specs.Ending.{CommandEnds, TextEnds, number_of_status};
ghost use Rattle.gc_play.specs.Promise.{HasItsText, OfSource};
ghost use Rattle.gc_play.specs.Reading.{IsSpent, TakesAtMost};
ghost use Rattle.play_report.specs.Causes.{AcrossSink};

mod player;
mod text;

use gc_play::{BATCH, Status, Unread, read_source};
use job_pool::{Batch, BatchError, read_batch, run_jobs};
use play_end::Options;
use play_report::{Sink, Source};
use player::{ScriptPlayer, Seal};
use std::alloc::Global;
use std::sync::Wait;
use std::thread::Threads;
use text::{write_batch_fault, write_jobs};

fn play_jobs<R: Threads + Wait + Sync, K: Sink>(
    rt: &R,
    alloc: Global,
    batch: Batch<'_, Seal>,
    options: &Options,
    runners: u32,
    sink: &mut K,
) -> Status
    requires range { AreInRange options.now }
    requires runners { (1 ≤ runners) × (runners ≤ 8) }
    ensures { AcrossSink K.written K.faults (TextEnds (BatchesTo (options_of options.now) (Ok batch.entry)) result) sink.old sink.new }
{
    let player = ScriptPlayer { options: *options };
    match run_jobs(rt, alloc, batch, runners, &player) {
        Err(_) => Status::Memory,
        Ok(done) => Status::Done.after(write_jobs(done.as_slice(), sink)),
    }
}

fn tell_batch_fault<K: Sink>(fault: &BatchError, sink: &mut K) -> Status
    requires { fault.now ≢ BatchError.OutOfMemory }
    ensures { AcrossSink K.written K.faults (TextEnds (IsBatchFault (batch_fault_of fault.now)) result) sink.old sink.new }
{
    Status::InputFault.after(write_batch_fault(fault, sink))
}

fn batch_bytes<R: Threads + Wait + Sync, K: Sink>(
    rt: &R,
    alloc: Global,
    bytes: &[u8],
    options: &Options,
    runners: u32,
    sink: &mut K,
) -> Status
    requires range { AreInRange options.now }
    requires runners { (1 ≤ runners) × (runners ≤ 8) }
    ensures { AcrossSink K.written K.faults (TextEnds (IsBatchAnswer (options_of options.now) bytes.now) result) sink.old sink.new }
{
    match read_batch(alloc, bytes, Seal) {
        Err(BatchError::OutOfMemory) => Status::Memory,
        Err(fault) => tell_batch_fault(&fault, sink),
        Ok(batch) => play_jobs(rt, alloc, batch, options, runners, sink),
    }
}

/// Plays the batch of the source, as the options say, on this many runners.
pub fn play_batch<R: Threads + Wait + Sync, S: Source, K: Sink>(
    rt: &R,
    alloc: Global,
    options: &Options,
    runners: u32,
    source: &mut S,
    sink: &mut K,
) -> Status
    requires range { AreInRange options.now }
    requires runners { (1 ≤ runners) × (runners ≤ 8) }
    ensures ends { AcrossSink K.written K.faults (CommandEnds (OfSource (IsBatchAnswer (options_of options.now)) (S.left source.old)) result
        (S.faults source.old) (S.faults source.new)) sink.old sink.new }
    ensures spent { HasItsText (number_of_status result) → IfSome (S.left source.old) (λ bytes. IsSpent BATCH bytes (S.left source.new)) }
    ensures most { TakesAtMost BATCH (S.left source.old) (S.left source.new) }
{
    match read_source(alloc, source, BATCH) {
        Err(Unread::Memory) => Status::Memory,
        Err(Unread::Failed) => Status::ReadFault,
        Ok(bytes) => batch_bytes(rt, alloc, bytes.as_slice(), options, runners, sink),
    }
}
