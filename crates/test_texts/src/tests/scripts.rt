use super::cases::{Kind, all_hold};
use gc_script::{Commands, Section, convert, read};
use std::alloc::Global;

const SEASONS: &[u8] =
    b"gcscript 3\nfields 2\n# note\ncatalogue\nnew a 7\nseason\nput a 8\nwarehouse\ncat x a\nrepeat 3\nsay hello x\nset x 1 x\nend\nrepeat 0\ncollect\nend\nseason\nsum s x 1 5\n";

fn lines_of(commands: Commands<'_, '_>) -> (u32, u32) {
    let mut lines = 0u32;
    let mut bytes = 0u32;
    for command in commands {
        lines = lines.wrapping_mul(10).wrapping_add(command.line);
        bytes = bytes.wrapping_add(command.label.len() as u32);
    }
    (lines, bytes)
}

fn section_text(alloc: Global, section: &Section<'_>, season: u32) -> Option<String> {
    let lines = if season == 0 {
        lines_of(section.commands())
    } else {
        lines_of(section.commands_of(season))
    };
    let (number, made) = (section.number(), section.made());
    let (executed, printed) = (section.executed(), section.printed());
    let (fields, seasons) = (section.fields(), section.seasons());
    format!(in alloc; "{number} {made} {executed} {printed} {fields} {seasons} {lines:?}").ok()
}

fn script_text(alloc: Global, source: &[u8]) -> Option<String> {
    let script = read(alloc, source).ok()?;
    let (executed, printed) = (script.executed(), script.printed());
    let (fields, seasons) = (script.fields(), script.seasons());
    let catalogue = script.catalogue()?;
    let all = section_text(alloc, catalogue, 0)?;
    let second = section_text(alloc, catalogue, 2)?;
    let third = section_text(alloc, catalogue, 3)?;
    let warehouse = section_text(alloc, script.warehouses().first()?, 2)?;
    format!(in alloc;
        "{executed} {printed} {fields} {seasons}; {all}; {second}; {third}; {warehouse}"
    ).ok()
}

const TOLD: &str =
    "10 4 2 2; 0 1 2 0 2 2 (57, 0); 0 1 2 0 2 2 (7, 0); 0 1 2 0 2 2 (0, 0); 1 0 8 4 2 2 (18, 1)";

#[test]
fn reads_sections(rt: HostRuntime) {
    let Some(text) = script_text(rt.alloc(), SEASONS) else {
        panic!(rt; "no script, or no memory")
    };
    assert_eq!(rt; text.as_str(), TOLD);
}

/// The name of a source's fault.
pub fn fault_of(alloc: Global, source: &[u8]) -> Option<String> {
    match read(alloc, source) {
        Ok(_) => "none".to_string(alloc).ok(),
        Err(e) => format!(in alloc; "{e:?}").ok(),
    }
}

const FAULTS: &str = "$ => BadHeader
$ gcscript 2

=> BadHeader
$ gcscript 1
warehouse
say a x
=> UnknownName { line: 3 }
$ gcscript 1
catalogue
new a 1
warehouse
cat x b
=> UnknownName { line: 5 }
$ gcscript 1
warehouse
repeat 2
nil x
catalogue
=> RepeatOpen { line: 3 }
$ gcscript 1
warehouse
nil x
get x x 4
=> NumberTooLarge { line: 4 }
$ gcscript 1
warehouse
repeat 2000000
nil x
end
nil x
=> TooManyCommands
$ gcscript 1
warehouse
nil x
=> none";

#[test]
fn tells_faults(rt: HostRuntime) {
    all_hold(&rt, Kind::Script, FAULTS);
}

#[test]
fn converts(rt: HostRuntime) {
    let Ok(converted) = convert(rt.alloc(), b"gcscript 1\nwarehouse\n") else {
        panic!(rt; "fault")
    };
    assert!(rt; converted.added && converted.rest == b"warehouse\n".as_slice());
}
