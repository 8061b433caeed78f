//! The commands but for `run`, which is in `gc_play`.
//!
//! A command takes its input whole before it writes, so if the source fails nothing is written. How each ends is
//! `CommandEnds` in `specs/Ending.antt` of `gc_play`, for the texts of `specs/Answers.antt`.
ghost use Rattle.std.specs.Prelude.{◌≡◌, IfSome, Some, true, false};
ghost use Rattle.command_words.specs.Commands.{IsCommandInRange, command_of};
ghost use Rattle.gc_play.specs.Ending.{CommandEnds, number_of_status};
ghost use Rattle.gc_play.specs.Promise.{HasItsText, enough_for, reads_source};
ghost use Rattle.play_words.specs.Answers.{IsAnswer};
ghost use Rattle.gc_play.specs.Reading.{IsSpent, TakesAtMost};
ghost use Rattle.play_report.specs.Causes.{AcrossSink};

mod batch;
mod census;
mod convert;
mod dump;
mod generate;
mod load;
mod schedule;
mod undump;

use batch::play_batch;
use census::census_source;
use command_words::Asked;
use convert::convert_source;
use dump::dump_source;
use gc_play::{Gate, Status, play_source};
use generate::write_generated;
use load::load_generated;
use play_report::{Sink, Source};
use schedule::check_source;
use std::alloc::Global;
use std::sync::Wait;
use std::thread::Threads;
use undump::undump_source;

/// Does the command that is asked for.
pub fn do_command<R: Threads + Wait + Sync, S: Source, K: Sink, G: Gate + Sync>(
    rt: &R,
    alloc: Global,
    asked: Asked,
    source: &mut S,
    sink: &mut K,
    gate: &G,
) -> Status
    requires { IsCommandInRange asked }
    ensures ends { AcrossSink K.written K.faults (CommandEnds (IsAnswer (Some (command_of asked)) (S.left source.old)) result
        (S.faults source.old) (S.faults source.new)) sink.old sink.new }
    ensures spent { reads_source (Some (command_of asked)) ≡ true → HasItsText (number_of_status result)
        → IfSome (S.left source.old) (λ bytes. IsSpent (enough_for (Some (command_of asked))) bytes (S.left source.new)) }
    ensures most { TakesAtMost (enough_for (Some (command_of asked))) (S.left source.old) (S.left source.new) }
    ensures untouched { reads_source (Some (command_of asked)) ≡ false → source.new ≡ source.old }
{
    match asked {
        Asked::Run(options) => play_source(rt, alloc, &options, source, sink, gate),
        Asked::Gen(number, size) => write_generated(alloc, number, size, sink),
        Asked::Load(options, number, size) => {
            load_generated(rt, alloc, &options, number, size, sink, gate)
        }
        Asked::Convert => convert_source(alloc, source, sink),
        Asked::Batch(options, runners) => { play_batch(rt, alloc, &options, runners, source, sink) }
        Asked::Schedule => check_source(alloc, source, sink),
        Asked::Dump(options) => dump_source(rt, alloc, &options, source, sink, gate),
        Asked::Undump => undump_source(alloc, source, sink),
        Asked::Census => census_source(rt, alloc, source, sink),
    }
}
