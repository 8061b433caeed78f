//! The dump of one object, byte by byte.
use super::cases::{Kind, all_hold};
use heap_dump::{DumpError, FinalHeap, FinalRecord, read_dump, write_dump};
use plain_heap::OutOfMemory;
use play_report::MemorySink;
use std::alloc::Global;
use std::test::Fail;

const HEAD: [u8; 20] = *b"gcdump 1\0\0\0\x04\0\0\0\x02\0\0\0\x01";

fn row() -> [u8; 305] {
    let mut bytes = [0u8; 305];
    bytes[..20].copy_from_slice(&HEAD);
    // Variable 0 of section 1, then section 1, number 0, value 5.
    bytes[151] = 1;
    bytes[279] = 1;
    bytes[287] = 5;
    bytes
}

fn one_object(alloc: Global) -> Result<FinalHeap, OutOfMemory> {
    let mut roots = [0u32; 64];
    roots[32] = 1;
    let record = FinalRecord {
        section: 1,
        number: 0,
        value: 5,
        refs: [0; 16],
    };
    FinalHeap::make(alloc, 4, 2, &roots, &[record])
}

fn written(alloc: Global) -> Result<MemorySink, OutOfMemory> {
    let heap = one_object(alloc)?;
    let mut sink = MemorySink::make(alloc, 304, 100, &[])?;
    let _failed = write_dump(&heap, &mut sink);
    Ok(sink)
}

fn front(bytes: &[u8], n: usize) -> &[u8] {
    if n < bytes.len() { &bytes[..n] } else { bytes }
}

/// What is read: the shape; roots, the last two of which aren't there; the record; a reference and one that isn't
/// there; whether there are more records.
fn read_text(alloc: Global, bytes: &[u8]) -> Option<String> {
    let dump = read_dump(bytes).ok()?;
    let record = dump.nth(0)?;
    let (fields, sections, records) = (dump.fields(), dump.sections(), dump.records());
    let (one, none) = (dump.root(1, 0), dump.root(0, 0));
    let (past, beyond) = (dump.root(2, 0), dump.root(1, 32));
    let (section, number, value) = (record.section(), record.number(), record.value());
    let (last, past_last) = (record.reference(3), record.reference(4));
    let has_more = dump.nth(1).is_some();
    format!(in alloc;
        "{fields} {sections} {records}, {one:?} {none:?} {past:?} {beyond:?}, {section} {number} {value}, {last:?} {past_last:?}, {has_more}"
    ).ok()
}

fn record(bytes: &[u8], k: u32) -> Option<&[u8]> {
    Some(read_dump(bytes).ok()?.nth(k)?.bytes())
}

const READ: &str = "4 2 1, Some(1) Some(0) None None, 1 0 5, Some(0) None, false";

#[test]
fn reads_one_object(rt: HostRuntime) {
    let row = row();
    let bytes = front(&row, 304);
    let Some(text) = read_text(rt.alloc(), bytes) else {
        panic!(rt; "no dump, or no memory")
    };
    assert_eq!(rt; text.as_str(), READ);
    assert!(rt; record(bytes, 0) == Some(&row[276..304]));
}

#[test]
fn writes_one_object(rt: HostRuntime) -> Result<(), Fail> {
    let Ok(sink) = written(rt.alloc()) else {
        return Err(Fail::from("no memory"));
    };
    assert!(rt; sink.bytes() == front(&row(), 304));
    Ok(())
}

#[test]
fn each_cut_is_told(rt: HostRuntime) {
    let row = row();
    for n in 0..304 {
        let needed = if n < 20 { 20 } else { 304 };
        let fault = read_dump(front(&row, n)).err();
        assert!(rt; fault == Some(DumpError::Cut { needed }), "{n}");
    }
}

fn change(bytes: &mut [u8; 305], changes: &str) -> Option<()> {
    for told in changes.split_whitespace() {
        let (at, to) = told.split_once('=')?;
        *bytes.get_mut(at.parse::<usize>().ok()?)? = to.parse::<u8>().ok()?;
    }
    Some(())
}

/// A dump's length, its changed bytes, and its fault.
#[derive(Drop)]
struct Faulty<'a> {
    length: usize,
    changes: &'a str,
    fault: &'a str,
}

fn faulty_of(line: &str) -> Option<Faulty<'_>> {
    let (dump, fault) = line.split_once(" => ")?;
    let (length, changes) = dump.split_once(' ').unwrap_or((dump, ""));
    Some(Faulty {
        length: length.parse::<usize>().ok()?,
        changes,
        fault,
    })
}

fn fault_of(alloc: Global, bytes: &[u8], length: usize) -> Option<String> {
    match read_dump(front(bytes, length)) {
        Ok(_) => "none".to_string(alloc).ok(),
        Err(e) => format!(in alloc; "{e:?}").ok(),
    }
}

/// The fault of the dump with this length and these changes.
pub fn first_fault(alloc: Global, told: &str) -> Option<String> {
    let (length, changes) = told.trim().split_once(' ').unwrap_or((told.trim(), ""));
    let mut bytes = row();
    change(&mut bytes, changes)?;
    fault_of(alloc, &bytes, length.parse::<usize>().ok()?)
}

/// 16 fields and 33 sections are in range, and want more bytes: 20 + 128 * 2 + 76, and 20 + 128 * 33 + 28.
const FAULTS: &str = "$ 303 => Cut { needed: 304 }
$ 305 => TooMuch
$ 19 => Cut { needed: 20 }
$ 304 151=2 => BadRoot { index: 32 }
$ 304 151=2 303=2 => BadRoot { index: 32 }
$ 304 303=2 => BadRef { k: 0, field: 3 }
$ 304 303=2 279=2 => BadRecord { k: 0 }
$ 304 7=50 => BadMagic
$ 304 11=0 => BadShape
$ 304 11=17 => BadShape
$ 304 15=0 => BadShape
$ 304 15=34 => BadShape
$ 304 17=1 => BadShape
$ 304 11=16 => Cut { needed: 352 }
$ 304 15=33 => Cut { needed: 4272 }
$ 304 291=2 303=2 => BadRef { k: 0, field: 0 }
$ 304 291=2 303=2 155=2 151=2 => BadRoot { index: 32 }";

#[test]
fn the_first_fault_is_told(rt: HostRuntime) {
    all_hold(&rt, Kind::Dump, FAULTS);
}

/// Faults in the order in which they are told.
const ORDER: &str = "19 => Cut { needed: 20 }
304 7=50 => BadMagic
304 11=0 => BadShape
303 => Cut { needed: 304 }
305 => TooMuch
304 279=2 => BadRecord { k: 0 }
304 151=2 => BadRoot { index: 32 }
304 303=2 => BadRef { k: 0, field: 3 }";

fn both(alloc: Global, one: &Faulty<'_>, other: &Faulty<'_>) -> Option<String> {
    let mut bytes = row();
    change(&mut bytes, one.changes)?;
    change(&mut bytes, other.changes)?;
    let least = one.length.min(other.length);
    let length = if least < 304 {
        least
    } else {
        one.length.max(other.length)
    };
    fault_of(alloc, &bytes, length)
}

/// Whether the first fault is told of both, whichever comes first.
fn is_first(alloc: Global, line: &str, other: &str) -> Option<bool> {
    let (first, second) = (faulty_of(line)?, faulty_of(other)?);
    let told = both(alloc, &first, &second)?;
    let turned = both(alloc, &second, &first)?;
    Some(told.as_str() == first.fault && turned.as_str() == first.fault)
}

#[test]
fn of_two_faults_the_first_is_told(rt: HostRuntime) {
    for (i, line) in ORDER.lines().enumerate() {
        for other in ORDER.lines().skip(i) {
            let is_first = is_first(rt.alloc(), line, other);
            assert!(rt; is_first == Some(true), "{line}, {other}");
        }
    }
}
