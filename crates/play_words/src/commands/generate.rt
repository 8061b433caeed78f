//! The command `gen`: writes a generated script.
ghost use Rattle.std.specs.Prelude.{◌≤◌};
ghost use Rattle.play_words.specs.Generating.{IsGenAnswer};
ghost use Rattle.gc_play.specs.Ending.{TextEnds};
ghost use Rattle.play_report.specs.Causes.{AcrossSink};

use crate::lines::write_lines;
use gc_play::Status;
use load_gen::generate;
use play_report::Sink;
use std::alloc::Global;

/// Writes the generated script of this number, with this many lines a warehouse.
pub fn write_generated<K: Sink>(alloc: Global, number: u32, size: u32, sink: &mut K) -> Status
    requires least { 1 ≤ size }
    requires most { size ≤ 20000 }
    ensures { AcrossSink K.written K.faults (TextEnds (IsGenAnswer number size) result) sink.old sink.new }
{
    match generate(alloc, number, size) {
        Err(_) => Status::Memory,
        Ok(text) => Status::Done.after(write_lines(sink, text.as_bytes())),
    }
}
