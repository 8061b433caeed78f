//! Where the objects lay.
ghost use Rattle.std.specs.Prelude.{◌≡◌, ◌<◌, ◌^◌, [], length, map, sum_by, if◌then◌else◌};
ghost use Rattle.play_report.specs.Causes.{WritesTo};
ghost use Rattle.play_report.specs.Report.{outcome_of};
ghost use Rattle.play_report.specs.Text.{numbered_texts, cells_text, placed_count, placed_text};

use crate::line::{write_named, write_triple};
use crate::outside::{Failed, Sink};
use crate::report::Part;

/// How many objects were made.
pub fn count_places(parts: &[Part<'_>]) -> u64
    requires { sum_by (λ p. length p.places.items) parts.now < 2 ^ 32 }
    ensures { result ≡ sum_by (λ p. length p.places.items) parts.now }
{
    parts.iter().map(|part| part.places.len() as u64).sum()
}

fn write_cells<K: Sink>(section: u64, cells: &[u32], sink: &mut K) -> Result<(), Failed>
    ensures { WritesTo K.written K.faults result sink.old sink.new (cells_text section cells.now) }
{
    for (number, cell) in cells.iter().enumerate() {
        match write_triple(section, number as u64, *cell as u64, sink) {
            Ok(()) => {}
            Err(e) => return Err(e),
        }
    }
    Ok(())
}

fn write_places<K: Sink>(parts: &[Part<'_>], sink: &mut K) -> Result<(), Failed>
    ensures { WritesTo K.written K.faults result sink.old sink.new (numbered_texts (λ w p. cells_text w p.places.items) 0 parts.now) }
{
    for (section, part) in parts.iter().enumerate() {
        match write_cells(section as u64, part.places.as_slice(), sink) {
            Ok(()) => {}
            Err(e) => return Err(e),
        }
    }
    Ok(())
}

fn write_placed<K: Sink>(parts: &[Part<'_>], sink: &mut K) -> Result<(), Failed>
    requires { placed_count (map outcome_of parts.now) < 2 ^ 32 }
    ensures { WritesTo K.written K.faults result sink.old sink.new (placed_text (map outcome_of parts.now)) }
{
    match write_named("placed ", count_places(parts), sink) {
        Ok(()) => write_places(parts, sink),
        Err(e) => Err(e),
    }
}

/// If `place` asks for it: how many objects were made, and the cell of each, by section and number.
pub fn write_asked_places<K: Sink>(
    asked: bool,
    parts: &[Part<'_>],
    sink: &mut K,
) -> Result<(), Failed>
    requires { placed_count (map outcome_of parts.now) < 2 ^ 32 }
    ensures { WritesTo K.written K.faults result sink.old sink.new (if asked then placed_text (map outcome_of parts.now) else []) }
{
    if asked {
        write_placed(parts, sink)
    } else {
        Ok(())
    }
}
