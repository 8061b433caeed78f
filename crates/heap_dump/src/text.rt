//! A dump and its faults as texts. Each line is one piece, and no call takes memory.
ghost use Rattle.std.specs.Prelude.{flat_map};
ghost use Rattle.play_report.specs.Causes.{WritesTo};
ghost use Rattle.heap_dump.specs.Reading.{heap_of_dump, object_in};
ghost use Rattle.heap_dump.specs.Text.{sizes_text, object_text, undump_text, reference_fault_text, dump_fault_text};

use crate::fault::DumpError;
use crate::reader::{Dump, Record};
use play_report::{Failed, Sink, TextLine, write_all, write_named, write_triple};

#[tactic(auto, unfolding(crate::specs::Text::sizes_text))]
fn write_sizes<K: Sink>(
    sections: u32,
    fields: u32,
    records: u32,
    sink: &mut K,
) -> Result<(), Failed>
    ensures { WritesTo K.written K.faults result sink.old sink.new (sizes_text sections fields records) }
{
    let mut line = TextLine::new();
    line.push("sections ");
    line.push_number(u64::from(sections));
    line.push(" fields ");
    line.push_number(u64::from(fields));
    line.push(" records ");
    line.push_number(u64::from(records));
    line.push("\n");
    line.write(sink)
}

fn write_object<K: Sink>(object: &Record<'_>, sink: &mut K) -> Result<(), Failed>
    ensures { WritesTo K.written K.faults result sink.old sink.new (object_text (object_in object.now)) }
{
    write_triple(
        u64::from(object.section()),
        u64::from(object.number()),
        u64::from(object.value()),
        sink,
    )
}

fn write_objects<K: Sink>(dump: &Dump<'_>, sink: &mut K) -> Result<(), Failed>
    ensures { WritesTo K.written K.faults result sink.old sink.new (flat_map object_text (heap_of_dump dump.now).records) }
{
    for k in 0..dump.records() {
        let Some(object) = dump.nth(k) else {
            unreachable!();
        };
        match write_object(&object, sink) {
            Ok(()) => {}
            Err(e) => return Err(e),
        }
    }
    Ok(())
}

/// Writes a line `sections S fields F records m`, and for each record a line with its section, its number and its
/// value. If it fails, the sink's count of faults rose and a prefix was written.
pub fn write_undump<K: Sink>(dump: &Dump<'_>, sink: &mut K) -> Result<(), Failed>
    ensures { WritesTo K.written K.faults result sink.old sink.new (undump_text (heap_of_dump dump.now)) }
{
    match write_sizes(dump.sections(), dump.fields(), dump.records(), sink) {
        Ok(()) => write_objects(dump, sink),
        Err(e) => Err(e),
    }
}

#[tactic(auto, unfolding(crate::specs::Text::reference_fault_text))]
fn write_reference_fault<K: Sink>(k: u32, field: u32, sink: &mut K) -> Result<(), Failed>
    ensures { WritesTo K.written K.faults result sink.old sink.new (reference_fault_text k field) }
{
    let mut line = TextLine::new();
    line.push("37 BadRef record ");
    line.push_number(u64::from(k));
    line.push(" field ");
    line.push_number(u64::from(field));
    line.push("\n");
    line.write(sink)
}

/// Writes the first fault of bytes that are no dump: number, name and place. If it fails, the sink's count of
/// faults rose and a prefix was written.
pub fn write_dump_fault<K: Sink>(fault: &DumpError, sink: &mut K) -> Result<(), Failed>
    ensures { WritesTo K.written K.faults result sink.old sink.new (dump_fault_text fault.now) }
{
    match fault {
        DumpError::Cut { needed } => write_named("31 Cut needed ", *needed, sink),
        DumpError::BadMagic => write_all(sink, b"32 BadMagic\n"),
        DumpError::BadShape => write_all(sink, b"33 BadShape\n"),
        DumpError::TooMuch => write_all(sink, b"34 TooMuch\n"),
        DumpError::BadRoot { index } => write_named("35 BadRoot index ", u64::from(*index), sink),
        DumpError::BadRecord { k } => write_named("36 BadRecord record ", u64::from(*k), sink),
        DumpError::BadRef { k, field } => write_reference_fault(*k, *field, sink),
    }
}
