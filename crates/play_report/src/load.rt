//! A play in five lines.
ghost use Rattle.std.specs.Prelude.{◌≡◌, ◌<◌, ◌^◌, ◌++◌, length, map, sum_by};
ghost use Rattle.play_report.specs.Causes.{WritesTo};
ghost use Rattle.play_report.specs.Report.{outcome_of, survivor_of};
ghost use Rattle.play_report.specs.Text.{placed_count, printed_count, made_text, kept_text, brief_text};

use crate::line::write_named;
use crate::outside::{Failed, Sink};
use crate::placed::count_places;
use crate::report::{Part, Report, Survivor};

fn count_lines(parts: &[Part<'_>]) -> u64
    requires { sum_by (λ p. length p.said.items) parts.now < 2 ^ 64 }
    ensures { result ≡ sum_by (λ p. length p.said.items) parts.now }
{
    parts.iter().map(|part| part.said.len() as u64).sum()
}

fn add_values(survivors: &[Survivor]) -> u64
    requires { length survivors.now < 2 ^ 32 }
    ensures { result ≡ sum_by (λ s. s.value) survivors.now }
{
    let mut total = 0u64;
    for s in survivors {
        total += u64::from(s.value);
    }
    total
}

fn write_made<K: Sink>(parts: &[Part<'_>], sink: &mut K) -> Result<(), Failed>
    requires objects { placed_count (map outcome_of parts.now) < 2 ^ 32 }
    requires lines { printed_count (map outcome_of parts.now) < 2 ^ 64 }
    ensures { WritesTo K.written K.faults result sink.old sink.new (made_text (map outcome_of parts.now)) }
{
    match write_named("objects ", count_places(parts), sink) {
        Ok(()) => write_named("lines ", count_lines(parts), sink),
        Err(e) => Err(e),
    }
}

fn write_kept<K: Sink>(survivors: &[Survivor], sink: &mut K) -> Result<(), Failed>
    requires { length survivors.now < 2 ^ 32 }
    ensures { WritesTo K.written K.faults result sink.old sink.new (kept_text (map survivor_of survivors.now)) }
{
    match write_named("survivors ", survivors.len() as u64, sink) {
        Ok(()) => write_named("total ", add_values(survivors), sink),
        Err(e) => Err(e),
    }
}

fn write_counts<K: Sink>(report: &Report<'_>, sink: &mut K) -> Result<(), Failed>
    requires objects { placed_count (map outcome_of report.now.parts.items) < 2 ^ 32 }
    requires lines { printed_count (map outcome_of report.now.parts.items) < 2 ^ 64 }
    requires survivors { length report.now.survivors.items < 2 ^ 32 }
    ensures { WritesTo K.written K.faults result sink.old sink.new
        (made_text (map outcome_of report.now.parts.items) ++ kept_text (map survivor_of report.now.survivors.items)) }
{
    match write_made(report.parts.as_slice(), sink) {
        Ok(()) => write_kept(report.survivors.as_slice(), sink),
        Err(e) => Err(e),
    }
}

/// Writes a play that is done in five lines: the commands executed, as the caller says, the objects made, the lines
/// printed, the survivors, and the sum of their values.
pub fn write_load<K: Sink>(report: &Report<'_>, commands: u64, sink: &mut K) -> Result<(), Failed>
    requires objects { placed_count (map outcome_of report.now.parts.items) < 2 ^ 32 }
    requires lines { printed_count (map outcome_of report.now.parts.items) < 2 ^ 64 }
    requires survivors { length report.now.survivors.items < 2 ^ 32 }
    ensures { WritesTo K.written K.faults result sink.old sink.new
        (brief_text commands (map outcome_of report.now.parts.items) (map survivor_of report.now.survivors.items)) }
{
    match write_named("commands ", commands, sink) {
        Ok(()) => write_counts(report, sink),
        Err(e) => Err(e),
    }
}
