//! Each command, if a read or a write fails, reads and writes come in parts, or a sink has too little room.
use crate::tests::commands::COMMANDS;
use crate::tests::faults::FAULTS;
use crate::tests::outside::{Outside, answer_of, sure};
use crate::tests::written::{Case, case_of};
use std::alloc::Global;
use std::process::Abort;
use std::sync::Wait;
use std::thread::Threads;

fn sizes_of(alloc: Global, case: &Case<'_>) -> Option<Vec<usize>> {
    let mut sizes = Vec::new(alloc);
    if case.sizes.is_empty() {
        for line in case.text.lines() {
            sizes.push(line.len().saturating_add(1)).ok()?;
        }
    } else {
        for size in case.sizes.split(' ') {
            sizes.push(size.parse::<usize>().ok()?).ok()?;
        }
    }
    Some(sizes)
}

/// How many bytes are written before each write and after the last, if a write takes at most `part`.
fn ends_of(alloc: Global, case: &Case<'_>, part: usize) -> Option<Vec<usize>> {
    let mut ends = [0usize].to_vec(alloc).ok()?;
    let mut end = 0usize;
    for size in sizes_of(alloc, case)?.iter() {
        let last = end.saturating_add(*size);
        for _ in 0..*size {
            if end < last {
                end = end.saturating_add(part).min(last);
                ends.push(end).ok()?;
            }
        }
    }
    Some(ends)
}

/// Fails if the case doesn't end with this status and this prefix of its text.
fn ends_with<R: Abort + AllocGlobal + Threads + Wait + Sync>(
    rt: &R,
    case: &Case<'_>,
    outside: &Outside<'_>,
    status: u8,
    end: usize,
) {
    let is_so = match answer_of(rt, case.words, outside) {
        Some((found, written)) => {
            found == status && case.text.as_bytes().get(..end) == Some(written.as_slice())
        }
        None => false,
    };
    assert!(rt; is_so, "{}: {status} {end}", case.words);
}

/// If a read fails, nothing is written. One read more than there are fails nowhere.
fn fails_to_read<R: Abort + AllocGlobal + Threads + Wait + Sync>(
    rt: &R,
    case: &Case<'_>,
    part: usize,
) {
    let reads = if case.status == 1
        || case.words.starts_with("gen")
        || case.words.starts_with("load")
    {
        0
    } else {
        case.source.len().div_ceil(part.max(1)).saturating_add(1)
    };
    let mut call = 0u32;
    for read in 0..=reads {
        call = call.saturating_add(1);
        let outside = Outside {
            per_read: part,
            reads: &[call],
            ..sure(case.source.as_bytes())
        };
        if read < reads {
            ends_with(rt, case, &outside, 4, 0);
        } else {
            ends_with(rt, case, &outside, case.status, case.text.len());
        }
    }
}

/// If a write fails, what came before it is written. One write more than there are fails nowhere.
fn fails_to_write<R: Abort + AllocGlobal + Threads + Wait + Sync>(
    rt: &R,
    case: &Case<'_>,
    part: usize,
) {
    let Some(ends) = ends_of(rt.alloc(), case, part) else {
        panic!(rt; "memory")
    };
    assert!(rt; ends.last() == Some(&case.text.len()), "{}", case.words);
    let mut call = 0u32;
    for end in ends.iter() {
        call = call.saturating_add(1);
        let outside = Outside {
            per_write: part,
            writes: &[call],
            ..sure(case.source.as_bytes())
        };
        let status = if *end < case.text.len() {
            5
        } else {
            case.status
        };
        ends_with(rt, case, &outside, status, *end);
    }
}

/// As much of the text as fits is written.
fn lacks_room<R: Abort + AllocGlobal + Threads + Wait + Sync>(rt: &R, case: &Case<'_>) {
    for room in 0..=case.text.len() {
        let outside = Outside {
            room,
            ..sure(case.source.as_bytes())
        };
        let status = if room < case.text.len() {
            5
        } else {
            case.status
        };
        ends_with(rt, case, &outside, status, room);
    }
}

fn is_disturbed<R: Abort + AllocGlobal + Threads + Wait + Sync>(rt: &R, told: &str) {
    let Some(case) = case_of(rt.alloc(), told) else {
        panic!(rt; "no case, or no memory: {told}")
    };
    for part in [1, 4, 4_096] {
        fails_to_read(rt, &case, part);
        fails_to_write(rt, &case, part);
    }
    lacks_room(rt, &case);
}

fn faulty(alloc: Global, row: &str) -> Option<String> {
    let (script, fault) = row.split_once("=> ")?;
    format!(in alloc; "run; {script}=> 2; {fault}").ok()
}

#[test]
fn disturbs_commands(rt: HostRuntime) {
    for told in COMMANDS.split("$ ").skip(1) {
        is_disturbed(&rt, told);
    }
    for row in FAULTS.split("$ ").skip(1) {
        let Some(told) = faulty(rt.alloc(), row) else {
            panic!(rt; "no row, or no memory: {row}")
        };
        is_disturbed(&rt, told.as_str());
    }
}
