ghost use Rattle.std.specs.Prelude.{◌≡◌, ◌<◌, ◌^◌, IfOk, map, length};
ghost use Rattle.play_report.specs.Report.{outcome_of};
ghost use Rattle.play_report.specs.Text.{placed_count, printed_count};

use super::cases::{Kind, all_hold};
use gc_script::ScriptError;
use plain_heap::Line;
use play_report::{
    CountSink, Failed, MemorySink, Part, Positions, Report, Said, Survivor, write_fault,
    write_full, write_load, write_report, write_usage,
};
use std::alloc::{AllocError, Global};
use std::str::SplitWhitespace;
use std::test::Fail;

fn part<'a>(
    alloc: Global,
    said: &[Said<'a>],
    dropped: u32,
    places: &[u32],
) -> Result<Part<'a>, AllocError>
    ensures places { IfOk result (λ p. length p.places.items ≡ length places.now) }
    ensures said { IfOk result (λ p. length p.said.items ≡ length said.now) }
{
    Ok(Part {
        said: Vec::from_slice(alloc, said)?,
        dropped,
        places: Vec::from_slice(alloc, places)?,
    })
}

fn report(alloc: Global) -> Result<Report<'static>, AllocError>
    ensures places { IfOk result (λ r. placed_count (map outcome_of r.parts.items) < 2 ^ 32) }
    ensures said { IfOk result (λ r. printed_count (map outcome_of r.parts.items) < 2 ^ 64) }
    ensures survivors { IfOk result (λ r. length r.survivors.items < 2 ^ 32) }
{
    let five = Said {
        label: "a",
        line: Line::Value(5),
    };
    let nil = Said {
        label: "b",
        line: Line::Nil,
    };
    let walk = Said {
        label: "sum",
        line: Line::Walk {
            count: 3,
            total: 21,
        },
    };
    let catalogue = part(alloc, &[], 0, &[63])?;
    let first = part(alloc, &[five, nil], 1, &[])?;
    let second = part(alloc, &[walk], 0, &[0, 17])?;
    let small = Survivor {
        section: 1,
        number: 0,
        value: 5,
    };
    let large = Survivor {
        section: 2,
        number: 10,
        value: u32::MAX,
    };
    Ok(Report {
        parts: vec![in alloc; catalogue, first, second]?,
        survivors: vec![in alloc; small, large]?,
    })
}

/// Behind a `$ ` stand which text it is, the room of the sink, how much it takes in a call, the call that fails, and
/// whether all is done; then what the sink has. `ends` and `placed` are the report, without places and with them.
const TEXTS: &str = "$ ends 200 200 0 done
warehouse 1
a 5
b nil
dropped 1
warehouse 2
sum 3 21
dropped 0
survivors 2
1 0 5
2 10 4294967295
$ placed 200 200 0 done
warehouse 1
a 5
b nil
dropped 1
warehouse 2
sum 3 21
dropped 0
survivors 2
1 0 5
2 10 4294967295
placed 3
0 0 63
2 0 0
2 1 17
$ placed 200 1 0 done
warehouse 1
a 5
b nil
dropped 1
warehouse 2
sum 3 21
dropped 0
survivors 2
1 0 5
2 10 4294967295
placed 3
0 0 63
2 0 0
2 1 17
$ placed 200 200 1 failed
$ placed 200 200 2 failed
warehouse 1
$ placed 200 200 5 failed
warehouse 1
a 5
b nil
dropped 1
$ placed 200 5 3 failed
warehouse\x20$ placed 20 200 0 failed
warehouse 1
a 5
b ni$ load 200 200 0 done
commands 7
objects 3
lines 3
survivors 2
total 4294967300
$ load 200 200 1 failed
$ load 200 200 5 failed
commands 7
objects 3
lines 3
survivors 2
$ full 100 7 0 done
full section 2
position 0 0
position 1 3
position 2 12
$ usage 100 100 0 done
usage: gcplay command [options]
";

fn number(word: Option<&str>) -> Option<usize> {
    word?.parse::<usize>().ok()
}

fn sink_of(alloc: Global, words: &mut SplitWhitespace<'_>) -> Option<MemorySink> {
    let room = number(words.next())?;
    let per_call = number(words.next())?;
    let failing = words.next()?.parse::<u32>().ok()?;
    if per_call == 0 {
        return None;
    }
    MemorySink::make(alloc, room, per_call, &[failing]).ok()
}

fn write(
    form: &str,
    report: &Report<'_>,
    positions: &Positions,
    sink: &mut MemorySink,
) -> Result<(), Failed>
    requires places { placed_count (map outcome_of report.now.parts.items) < 2 ^ 32 }
    requires said { printed_count (map outcome_of report.now.parts.items) < 2 ^ 64 }
    requires survivors { length report.now.survivors.items < 2 ^ 32 }
{
    match form {
        "load" => write_load(report, 7, sink),
        "full" => write_full(positions, sink),
        "usage" => write_usage(sink),
        _ => write_report(report, form == "placed", sink),
    }
}

/// Whether what is told is written so.
fn is_written(alloc: Global, told: &str, report: &Report<'_>, positions: &Positions) -> Option<bool>
    requires places { placed_count (map outcome_of report.now.parts.items) < 2 ^ 32 }
    requires said { printed_count (map outcome_of report.now.parts.items) < 2 ^ 64 }
    requires survivors { length report.now.survivors.items < 2 ^ 32 }
{
    let (how, text) = told.split_once('\n')?;
    let mut words = how.split_whitespace();
    let form = words.next()?;
    let mut sink = sink_of(alloc, &mut words)?;
    let is_done = write(form, report, positions, &mut sink).is_ok();
    let should = words.next() == Some("done");
    Some(is_done == should && sink.bytes() == text.as_bytes())
}

#[test]
fn texts_are_written_line_by_line(rt: HostRuntime) -> Result<(), Fail> {
    let report = report(rt.alloc())?;
    let positions = Positions {
        section: 2,
        done: Vec::from_slice(rt.alloc(), &[0, 3, 12])?,
    };
    for told in TEXTS.split("$ ").skip(1) {
        let is_written = is_written(rt.alloc(), told, &report, &positions);
        assert!(rt; is_written == Some(true), "{told}");
    }
    Ok(())
}

#[test]
fn bytes_are_counted(rt: HostRuntime) -> Result<(), Fail> {
    let report = report(rt.alloc())?;
    let mut count = CountSink::make();
    let is_done = write_report(&report, true, &mut count).is_ok();
    assert!(rt; is_done && count.count() == 126);
    Ok(())
}

fn fault_of(name: &str, place: u32) -> Option<ScriptError> {
    match name {
        "NotAscii" => Some(ScriptError::NotAscii { offset: place }),
        "BadHeader" => Some(ScriptError::BadHeader),
        "BadLine" => Some(ScriptError::BadLine { line: place }),
        "UnknownName" => Some(ScriptError::UnknownName { line: place }),
        "TooManyNames" => Some(ScriptError::TooManyNames { line: place }),
        "NumberTooLarge" => Some(ScriptError::NumberTooLarge { line: place }),
        "RepeatOpen" => Some(ScriptError::RepeatOpen { line: place }),
        "TooManySections" => Some(ScriptError::TooManySections { line: place }),
        "TooManyCommands" => Some(ScriptError::TooManyCommands),
        "TooManyLines" => Some(ScriptError::TooManyLines),
        "TooLong" => Some(ScriptError::TooLong),
        "ConvertedTooLong" => Some(ScriptError::ConvertedTooLong),
        "TooManySeasons" => Some(ScriptError::TooManySeasons { line: place }),
        _ => None,
    }
}

/// The line that is written of the fault with that name and place.
pub fn fault_text(alloc: Global, told: &str) -> Option<String> {
    let (name, place) = told.trim().split_once(' ')?;
    let fault = fault_of(name, place.parse::<u32>().ok()?)?;
    if matches!(fault, ScriptError::OutOfMemory) {
        return None;
    }
    let mut sink = MemorySink::make(alloc, 100, 100, &[]).ok()?;
    write_fault(&fault, &mut sink).ok()?;
    let line = str::from_utf8(sink.bytes()).ok()?.strip_suffix('\n')?;
    line.to_string(alloc).ok()
}

const FAULTS: &str = "$ NotAscii 7 => 1 NotAscii offset 7
$ BadHeader 0 => 2 BadHeader
$ BadLine 2 => 3 BadLine line 2
$ UnknownName 3 => 4 UnknownName line 3
$ TooManyNames 4 => 5 TooManyNames line 4
$ NumberTooLarge 5 => 6 NumberTooLarge line 5
$ RepeatOpen 6 => 7 RepeatOpen line 6
$ TooManySections 10 => 8 TooManySections line 10
$ TooManyCommands 0 => 9 TooManyCommands
$ TooManyLines 0 => 10 TooManyLines
$ TooLong 0 => 11 TooLong
$ ConvertedTooLong 0 => 14 ConvertedTooLong
$ TooManySeasons 9 => 15 TooManySeasons line 9";

#[test]
fn faults_are_written(rt: HostRuntime) {
    all_hold(&rt, Kind::Fault, FAULTS);
}
