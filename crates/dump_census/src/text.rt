//! A census as a text. Each line is one piece, and no call takes memory.
ghost use Rattle.std.specs.Prelude.{◌++◌, codes, flat_map};
ghost use Rattle.play_report.specs.Causes.{WritesTo};
ghost use Rattle.play_report.specs.Text.{named_text, numbered_texts};
ghost use Rattle.dump_census.specs.Text.{section_text, level_text, value_text, census_text};

use crate::counts::{Census, SectionCount, ValueCount};
use play_report::{Failed, Sink, TextLine, write_named, write_pair};

fn write_levels<K: Sink>(levels: &[u32], sink: &mut K) -> Result<(), Failed>
    ensures { WritesTo K.written K.faults result sink.old sink.new (numbered_texts level_text 0 levels.now) }
{
    for (n, count) in levels.iter().enumerate() {
        match write_pair("level ", n as u64, *count as u64, sink) {
            Ok(()) => {}
            Err(e) => return Err(e),
        }
    }
    Ok(())
}

#[tactic(auto, unfolding(crate::specs::Text::section_text))]
fn write_section<K: Sink>(w: u64, section: &SectionCount, sink: &mut K) -> Result<(), Failed>
    ensures { WritesTo K.written K.faults result sink.old sink.new (section_text w section.now) }
{
    let mut line = TextLine::new();
    line.push("section ");
    line.push_number(w);
    line.push(" ");
    line.push_number(u64::from(section.count));
    line.push(" ");
    line.push_number(section.total);
    line.push("\n");
    line.write(sink)
}

fn write_sections<K: Sink>(sections: &[SectionCount], sink: &mut K) -> Result<(), Failed>
    ensures { WritesTo K.written K.faults result sink.old sink.new (numbered_texts section_text 0 sections.now) }
{
    for (w, section) in sections.iter().enumerate() {
        match write_section(w as u64, section, sink) {
            Ok(()) => {}
            Err(e) => return Err(e),
        }
    }
    Ok(())
}

fn write_values<K: Sink>(values: &[ValueCount], sink: &mut K) -> Result<(), Failed>
    ensures { WritesTo K.written K.faults result sink.old sink.new (flat_map value_text values.now) }
{
    for v in values {
        match write_pair("value ", v.value as u64, v.count as u64, sink) {
            Ok(()) => {}
            Err(e) => return Err(e),
        }
    }
    Ok(())
}

/// The sections and the values.
fn write_counts<K: Sink>(census: &Census, sink: &mut K) -> Result<(), Failed>
    ensures { WritesTo K.written K.faults result sink.old sink.new
        (numbered_texts section_text 0 census.now.sections ++ flat_map value_text census.now.values) }
{
    match write_sections(census.sections(), sink) {
        Ok(()) => write_values(census.values(), sink),
        Err(e) => Err(e),
    }
}

fn write_rest<K: Sink>(census: &Census, sink: &mut K) -> Result<(), Failed>
    ensures { WritesTo K.written K.faults result sink.old sink.new
        (named_text (codes "unreached ") census.now.unreached ++ (numbered_texts section_text 0 census.now.sections ++ flat_map value_text census.now.values)) }
{
    match write_named("unreached ", census.unreached() as u64, sink) {
        Ok(()) => write_counts(census, sink),
        Err(e) => Err(e),
    }
}

fn write_after<K: Sink>(census: &Census, sink: &mut K) -> Result<(), Failed>
    ensures { WritesTo K.written K.faults result sink.old sink.new
        (numbered_texts level_text 0 census.now.levels ++ (named_text (codes "unreached ") census.now.unreached
        ++ (numbered_texts section_text 0 census.now.sections ++ flat_map value_text census.now.values))) }
{
    match write_levels(census.levels(), sink) {
        Ok(()) => write_rest(census, sink),
        Err(e) => Err(e),
    }
}

/// Writes a census: `levels d`, a line `level n count` for each level, `unreached u`, a line `section w count
/// total` for each section, and a line `value v count` for each value, in order. If it fails, the sink's count of
/// faults rose and a prefix was written.
pub fn write_census<K: Sink>(census: &Census, sink: &mut K) -> Result<(), Failed>
    ensures { WritesTo K.written K.faults result sink.old sink.new (census_text census.now) }
{
    match write_named("levels ", census.levels().len() as u64, sink) {
        Ok(()) => write_after(census, sink),
        Err(e) => Err(e),
    }
}
