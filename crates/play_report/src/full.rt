//! How far a play came that had too few cells.
ghost use Rattle.play_report.specs.Causes.{WritesTo};
ghost use Rattle.play_report.specs.Text.{positions_text, full_text};

use crate::line::{write_named, write_pair};
use crate::outside::{Failed, Sink};
use crate::report::Positions;

fn write_positions<K: Sink>(done: &[u32], sink: &mut K) -> Result<(), Failed>
    ensures { WritesTo K.written K.faults result sink.old sink.new (positions_text done.now) }
{
    for (section, count) in done.iter().enumerate() {
        match write_pair("position ", section as u64, *count as u64, sink) {
            Ok(()) => {}
            Err(e) => return Err(e),
        }
    }
    Ok(())
}

/// Writes the text of status 3: the section that found no cell, and how many commands each section did.
pub fn write_full<K: Sink>(positions: &Positions, sink: &mut K) -> Result<(), Failed>
    ensures { WritesTo K.written K.faults result sink.old sink.new (full_text positions.now.section positions.now.done.items) }
{
    match write_named("full section ", positions.section as u64, sink) {
        Ok(()) => write_positions(positions.done.as_slice(), sink),
        Err(e) => Err(e),
    }
}
