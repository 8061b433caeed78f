//! What the warehouses printed.
ghost use Rattle.std.specs.Prelude.{◌≡◌, ◌≤◌, ◌++◌, length, map, codes};
ghost use Rattle.std.specs.List.{flat_map};
ghost use Rattle.play_report.specs.Causes.{WritesTo};
ghost use Rattle.play_report.specs.Report.{printed_of, outcome_of};
ghost use Rattle.play_report.specs.Text.{printed_text, named_text, line_text, numbered_texts, outcome_text, warehouses_text};

use crate::line::{TextLine, write_named};
use crate::outside::{Failed, Sink};
use crate::report::{Part, Said};
use plain_heap::Line;

fn push_line(text: &mut TextLine, line: Line)
    requires { length text.old ≤ 33 }
    ensures text { text.new ≡ text.old ++ line_text line }
    ensures short { length text.new ≤ 74 }
{
    match line {
        Line::Nil => text.push("nil"),
        Line::Value(value) => text.push_number(u64::from(value)),
        Line::Walk { count, total } => {
            text.push_number(u64::from(count));
            text.push(" ");
            text.push_number(total);
        }
    }
}

#[tactic(auto, unfolding(crate::specs::Text::printed_text))]
fn write_said<K: Sink>(said: &Said<'_>, sink: &mut K) -> Result<(), Failed>
    ensures { WritesTo K.written K.faults result sink.old sink.new (printed_text (printed_of said.now)) }
{
    let mut line = TextLine::new();
    line.push(said.label);
    line.push(" ");
    push_line(&mut line, said.line);
    line.push("\n");
    line.write(sink)
}

fn write_said_lines<K: Sink>(said: &[Said<'_>], sink: &mut K) -> Result<(), Failed>
    ensures { WritesTo K.written K.faults result sink.old sink.new (flat_map (λ s. printed_text (printed_of s)) said.now) }
{
    for line in said {
        match write_said(line, sink) {
            Ok(()) => {}
            Err(e) => return Err(e),
        }
    }
    Ok(())
}

fn write_end<K: Sink>(part: &Part<'_>, sink: &mut K) -> Result<(), Failed>
    ensures { WritesTo K.written K.faults result sink.old sink.new
        (flat_map (λ s. printed_text (printed_of s)) part.now.said.items ++ named_text (codes "dropped ") part.now.dropped) }
{
    match write_said_lines(part.said.as_slice(), sink) {
        Ok(()) => write_named("dropped ", part.dropped as u64, sink),
        Err(e) => Err(e),
    }
}

fn write_part<K: Sink>(number: u64, part: &Part<'_>, sink: &mut K) -> Result<(), Failed>
    ensures { WritesTo K.written K.faults result sink.old sink.new (outcome_text number (outcome_of part.now)) }
{
    match write_named("warehouse ", number, sink) {
        Ok(()) => write_end(part, sink),
        Err(e) => Err(e),
    }
}

fn write_warehouses<K: Sink>(parts: &[Part<'_>], sink: &mut K) -> Result<(), Failed>
    ensures { WritesTo K.written K.faults result sink.old sink.new (numbered_texts (λ w p. outcome_text w (outcome_of p)) 1 parts.now) }
{
    for (i, part) in parts.iter().enumerate() {
        match write_part(i as u64 + 1, part, sink) {
            Ok(()) => {}
            Err(e) => return Err(e),
        }
    }
    Ok(())
}

/// Writes what each warehouse printed and dropped; section 0, which comes first, prints nothing.
pub fn write_parts<K: Sink>(parts: &[Part<'_>], sink: &mut K) -> Result<(), Failed>
    ensures { WritesTo K.written K.faults result sink.old sink.new (warehouses_text (map outcome_of parts.now)) }
{
    match parts {
        [] => Ok(()),
        [_, warehouses @ ..] => write_warehouses(warehouses, sink),
    }
}
