//! The objects that are reachable at the end.
ghost use Rattle.std.specs.Prelude.{map};
ghost use Rattle.std.specs.List.{flat_map};
ghost use Rattle.play_report.specs.Causes.{WritesTo};
ghost use Rattle.play_report.specs.Report.{survivor_of};
ghost use Rattle.play_report.specs.Text.{survivor_text, survivors_text};

use crate::line::{write_named, write_triple};
use crate::outside::{Failed, Sink};
use crate::report::Survivor;

fn write_survivor<K: Sink>(survivor: &Survivor, sink: &mut K) -> Result<(), Failed>
    ensures { WritesTo K.written K.faults result sink.old sink.new (survivor_text (survivor_of survivor.now)) }
{
    write_triple(
        u64::from(survivor.section),
        u64::from(survivor.number),
        u64::from(survivor.value),
        sink,
    )
}

fn write_survivor_lines<K: Sink>(survivors: &[Survivor], sink: &mut K) -> Result<(), Failed>
    ensures { WritesTo K.written K.faults result sink.old sink.new (flat_map (λ s. survivor_text (survivor_of s)) survivors.now) }
{
    for s in survivors {
        match write_survivor(s, sink) {
            Ok(()) => {}
            Err(e) => return Err(e),
        }
    }
    Ok(())
}

/// Writes how many survivors there are, and a line for each.
pub fn write_survivors<K: Sink>(survivors: &[Survivor], sink: &mut K) -> Result<(), Failed>
    ensures { WritesTo K.written K.faults result sink.old sink.new (survivors_text (map survivor_of survivors.now)) }
{
    match write_named("survivors ", survivors.len() as u64, sink) {
        Ok(()) => write_survivor_lines(survivors, sink),
        Err(e) => Err(e),
    }
}
