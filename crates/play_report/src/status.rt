//! The text of a play that is done.
ghost use Rattle.std.specs.Prelude.{◌<◌, ◌^◌, ◌++◌, map};
ghost use Rattle.play_report.specs.Causes.{WritesTo};
ghost use Rattle.play_report.specs.Report.{outcome_of, survivor_of};
ghost use Rattle.play_report.specs.Text.{warehouses_text, survivors_text, placed_count, report_text};

use crate::outside::{Failed, Sink};
use crate::placed::write_asked_places;
use crate::report::Report;
use crate::survivors::write_survivors;
use crate::transcript::write_parts;

fn write_ends<K: Sink>(report: &Report<'_>, sink: &mut K) -> Result<(), Failed>
    ensures { WritesTo K.written K.faults result sink.old sink.new
        (warehouses_text (map outcome_of report.now.parts.items) ++ survivors_text (map survivor_of report.now.survivors.items)) }
{
    match write_parts(report.parts.as_slice(), sink) {
        Ok(()) => write_survivors(report.survivors.as_slice(), sink),
        Err(e) => Err(e),
    }
}

/// Writes the text of status 0: for each warehouse its number, its printed lines and its count of dropped stores, then
/// the survivors, and if `place` asks for it the cell of each object that was made.
pub fn write_report<K: Sink>(report: &Report<'_>, place: bool, sink: &mut K) -> Result<(), Failed>
    requires { placed_count (map outcome_of report.now.parts.items) < 2 ^ 32 }
    ensures { WritesTo K.written K.faults result sink.old sink.new
        (report_text (map outcome_of report.now.parts.items) (map survivor_of report.now.survivors.items) place) }
{
    match write_ends(report, sink) {
        Ok(()) => write_asked_places(place, report.parts.as_slice(), sink),
        Err(e) => Err(e),
    }
}
