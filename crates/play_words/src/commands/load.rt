//! The command `load`: plays a generated script, and writes five lines of it.
ghost use Rattle.std.specs.Prelude.{◌≤◌, Ok, length};
ghost use Rattle.gc_script.specs.Script.{script as meaning};
ghost use Rattle.load_gen.specs.FourWarehouses.{HasFourWarehouses};
ghost use Rattle.play_words.specs.Loading.{IsLoadAnswer, LoadsTo};
ghost use Rattle.command_words.specs.Commands.{options_of};
ghost use Rattle.gc_play.specs.Ending.{TextEnds};
ghost use Rattle.play_end.specs.Answers.{AreInRange};
ghost use Rattle.play_report.specs.Causes.{AcrossSink};

use gc_play::{Gate, Status, play, tell_stop};
use gc_script::{Script, read};
use load_gen::generate;
use play_end::Options;
use play_report::{Sink, write_load};
use std::alloc::Global;
use std::sync::Wait;
use std::thread::Threads;

fn load_script<R: Threads + Wait + Sync, K: Sink, G: Gate + Sync>(
    rt: &R,
    alloc: Global,
    script: &Script<'_>,
    options: &Options,
    sink: &mut K,
    gate: &G,
) -> Status
    requires range { AreInRange options.now }
    requires few { length script.now.sections.warehouses ≤ 32 }
    ensures { AcrossSink K.written K.faults (TextEnds (LoadsTo (options_of options.now) (Ok script.now)) result) sink.old sink.new }
{
    let commands = script.executed();
    match play(rt, alloc, script, options, gate) {
        Err(error) => tell_stop(error, sink),
        Ok(report) => Status::Done.after(write_load(&report, commands, sink)),
    }
}

/// Plays a script of four warehouses, which has no fault: it is refused only if memory runs out.
fn load_bytes<R: Threads + Wait + Sync, K: Sink, G: Gate + Sync>(
    rt: &R,
    alloc: Global,
    size: u32,
    bytes: &[u8],
    options: &Options,
    sink: &mut K,
    gate: &G,
) -> Status
    requires range { AreInRange options.now }
    requires script { HasFourWarehouses size (meaning bytes.now) }
    ensures { AcrossSink K.written K.faults (TextEnds (LoadsTo (options_of options.now) (meaning bytes.now)) result) sink.old sink.new }
{
    match read(alloc, bytes) {
        Err(_) => Status::Memory,
        Ok(script) => load_script(rt, alloc, &script, options, sink, gate),
    }
}

/// Plays the generated script of this number and size, and writes five lines of it.
pub fn load_generated<R: Threads + Wait + Sync, K: Sink, G: Gate + Sync>(
    rt: &R,
    alloc: Global,
    options: &Options,
    number: u32,
    size: u32,
    sink: &mut K,
    gate: &G,
) -> Status
    requires range { AreInRange options.now }
    requires least { 1 ≤ size }
    requires most { size ≤ 20000 }
    ensures { AcrossSink K.written K.faults (TextEnds (IsLoadAnswer (options_of options.now) number size) result) sink.old sink.new }
{
    match generate(alloc, number, size) {
        Err(_) => Status::Memory,
        Ok(text) => load_bytes(rt, alloc, size, text.as_bytes(), options, sink, gate),
    }
}
