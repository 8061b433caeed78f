//! Censuses of small dumps, of a long chain, and of the most records.
ghost use Rattle.std.specs.Prelude.{◌≤◌};

use dump_census::{Census, census, write_census};
use heap_dump::read_dump;
use play_report::MemorySink;
use std::alloc::{AllocError, Global};
use std::thread::Threads;

fn push(bytes: &mut Vec<u8>, n: u32) -> Result<(), AllocError> {
    bytes.extend_from_slice(&n.to_be_bytes())
}

fn head(alloc: Global, fields: u32, records: u32) -> Result<Vec<u8>, AllocError> {
    let mut bytes = Vec::new(alloc);
    bytes.extend_from_slice(b"gcdump 1")?;
    push(&mut bytes, fields)?;
    push(&mut bytes, 2)?;
    push(&mut bytes, records)?;
    for i in 0..64u32 {
        push(&mut bytes, if i == 32 { 1 } else { 0 })?;
    }
    Ok(bytes)
}

fn listed(
    alloc: Global,
    fields: u32,
    records: u32,
    numbers: &[u32],
) -> Result<Vec<u8>, AllocError> {
    let mut bytes = head(alloc, fields, records)?;
    for n in numbers {
        push(&mut bytes, *n)?;
    }
    Ok(bytes)
}

fn chain(alloc: Global, records: u32) -> Result<Vec<u8>, AllocError>
    requires { records ≤ 65536 }
{
    let mut bytes = head(alloc, 1, records)?;
    for k in 0..records {
        push(&mut bytes, 1)?;
        push(&mut bytes, k)?;
        push(&mut bytes, 7)?;
        push(&mut bytes, if k + 1 < records { k + 2 } else { 0 })?;
    }
    Ok(bytes)
}

fn tree(alloc: Global, records: u32) -> Result<Vec<u8>, AllocError>
    requires { records ≤ 65536 }
{
    let mut bytes = head(alloc, 2, records)?;
    for k in 0..records {
        push(&mut bytes, 1)?;
        push(&mut bytes, k)?;
        push(&mut bytes, k % 2)?;
        push(&mut bytes, if 2 * k + 1 < records { 2 * k + 2 } else { 0 })?;
        push(&mut bytes, if 2 * k + 2 < records { 2 * k + 3 } else { 0 })?;
    }
    Ok(bytes)
}

fn counted<R: Threads + Sync>(rt: &R, alloc: Global, bytes: &[u8]) -> Option<Census> {
    let dump = read_dump(bytes).ok()?;
    census(rt, alloc, &dump).ok()
}

fn written<R: Threads + Sync>(
    rt: &R,
    alloc: Global,
    bytes: Result<Vec<u8>, AllocError>,
) -> Option<MemorySink> {
    let bytes = bytes.ok()?;
    let census = counted(rt, alloc, bytes.as_slice())?;
    let mut sink = MemorySink::make(alloc, 1000, 100, &[]).ok()?;
    write_census(&census, &mut sink).ok()?;
    Some(sink)
}

fn reads<R: Threads + Sync>(
    rt: &R,
    alloc: Global,
    bytes: Result<Vec<u8>, AllocError>,
    text: &[u8],
) -> bool {
    match written(rt, alloc, bytes) {
        Some(sink) => sink.bytes() == text,
        None => false,
    }
}

#[test]
fn one_object_is_at_level_0(rt: HostRuntime) {
    let alloc = rt.alloc();
    let dump = listed(alloc, 4, 1, &[1, 0, 5, 0, 0, 0, 0]);
    let text = b"levels 1\nlevel 0 1\nunreached 0\nsection 0 0 0\nsection 1 1 5\nvalue 5 1\n";
    assert!(rt; reads(&rt, alloc, dump, text));
}

#[test]
fn an_object_that_only_a_field_holds_is_at_level_1(rt: HostRuntime) {
    let alloc = rt.alloc();
    let dump = listed(alloc, 4, 2, &[1, 0, 1, 2, 0, 0, 0, 1, 1, 2, 0, 0, 0, 0]);
    let text =
        b"levels 2\nlevel 0 1\nlevel 1 1\nunreached 0\nsection 0 0 0\nsection 1 2 3\nvalue 1 1\nvalue 2 1\n";
    assert!(rt; reads(&rt, alloc, dump, text));
}

#[test]
fn two_objects_that_hold_each_other_are_unreached(rt: HostRuntime) {
    let alloc = rt.alloc();
    // Object 0 is of section 0, and variable 0 of section 1 holds it. The two of section 1 hold each other.
    let dump = listed(alloc, 1, 3, &[0, 0, 9, 0, 1, 0, 9, 3, 1, 1, 4, 2]);
    let text =
        b"levels 1\nlevel 0 1\nunreached 2\nsection 0 1 9\nsection 1 2 13\nvalue 4 1\nvalue 9 2\n";
    assert!(rt; reads(&rt, alloc, dump, text));
}

#[test]
fn a_chain_has_as_many_levels_as_records(rt: HostRuntime) {
    let alloc = rt.alloc();
    let found = match chain(alloc, 20_000) {
        Ok(bytes) => counted(&rt, alloc, bytes.as_slice()),
        Err(_) => None,
    };
    assert!(rt; found.is_some());
    if let Some(census) = found {
        assert_eq!(rt; census.levels().len(), 20_000);
        assert_eq!(rt; census.unreached(), 0);
        assert_eq!(rt; census.values().len(), 1);
    }
}

#[test]
fn a_tree_of_the_most_records_has_17_levels(rt: HostRuntime) {
    let alloc = rt.alloc();
    let found = match tree(alloc, 65_536) {
        Ok(bytes) => counted(&rt, alloc, bytes.as_slice()),
        Err(_) => None,
    };
    assert!(rt; found.is_some());
    if let Some(census) = found {
        // Level n has 2^n records, up to level 15; one is left.
        assert_eq!(rt; census.levels().len(), 17);
        assert_eq!(rt; census.levels().last(), Some(&1));
        assert_eq!(rt; census.unreached(), 0);
    }
}
