//! Rows: arrays of JSON, each on a line of its own, of a name and numbers.
ghost use Rattle.std.specs.Prelude.{◌≤◌, ◌++◌, length, codes};
ghost use Rattle.std.specs.List.{flat_map};
ghost use Rattle.play_report.specs.Causes.{WritesTo};
ghost use Rattle.schedule_states.specs.Rows.{number_text, numbers_text, name_text, rest_text, row_text};

use play_report::{Failed, Sink, TextLine, write_all};

/// Writes a number behind a name, or behind another number.
#[tactic(auto, unfolding(crate::specs::Rows::number_text))]
pub fn write_number<K: Sink>(n: u64, sink: &mut K) -> Result<(), Failed>
    ensures { WritesTo K.written K.faults result sink.old sink.new (number_text n) }
{
    let mut piece = TextLine::new();
    piece.push(",");
    piece.push_number(n);
    piece.write(sink)
}

pub fn write_numbers<K: Sink>(numbers: &[u64], sink: &mut K) -> Result<(), Failed>
    ensures { WritesTo K.written K.faults result sink.old sink.new (numbers_text numbers.now) }
{
    for n in numbers {
        match write_number(*n, sink) {
            Ok(()) => {}
            Err(e) => return Err(e),
        }
    }
    Ok(())
}

/// Begins a row.
#[tactic(auto, unfolding(crate::specs::Rows::name_text))]
pub fn write_name<K: Sink>(name: &str, sink: &mut K) -> Result<(), Failed>
    requires { length name.now ≤ 32 }
    ensures { WritesTo K.written K.faults result sink.old sink.new (name_text name.now) }
{
    let mut piece = TextLine::new();
    piece.push("[\"");
    piece.push(name);
    piece.push("\"");
    piece.write(sink)
}

/// Ends a row.
pub fn write_end<K: Sink>(sink: &mut K) -> Result<(), Failed>
    ensures { WritesTo K.written K.faults result sink.old sink.new (codes "]\n") }
{
    write_all(sink, b"]\n")
}

fn write_rest<K: Sink>(numbers: &[u64], sink: &mut K) -> Result<(), Failed>
    ensures { WritesTo K.written K.faults result sink.old sink.new (rest_text numbers.now) }
{
    match write_numbers(numbers, sink) {
        Ok(()) => write_end(sink),
        Err(e) => Err(e),
    }
}

/// Writes a row of this name and these numbers.
pub fn write_row<K: Sink>(name: &str, numbers: &[u64], sink: &mut K) -> Result<(), Failed>
    requires { length name.now ≤ 32 }
    ensures { WritesTo K.written K.faults result sink.old sink.new (row_text name.now numbers.now) }
{
    match write_name(name, sink) {
        Ok(()) => write_rest(numbers, sink),
        Err(e) => Err(e),
    }
}
