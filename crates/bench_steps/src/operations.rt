//! A runtime's operations, on a heap of 64 blocks with objects of four fields.
mod blocks;
mod cards;
mod cells;
mod opening;
mod stores;
mod sweeping;
mod tracing;

use crate::operations::opening::SIZES;
use crate::words::{OPERATION_WORKS, OperationWork as Work};
use std::io;
use std::rt::Runtime;
use std::sync::Wait;
use test_heaps::{opens, report};

fn is_done<R: Wait + AllocGlobal>(rt: &R, work: Work, rounds: u64) -> bool {
    let alloc = rt.alloc();
    match work {
        Work::Open => opens(alloc, SIZES, rounds),
        Work::Make => cells::run(alloc, rounds),
        Work::Publish => stores::run(alloc, rounds, true),
        Work::Hide => stores::run(alloc, rounds, false),
        Work::Mesh => tracing::run(alloc, rounds, false),
        Work::Trace => tracing::run(alloc, rounds, true),
        Work::Look => cards::run(alloc, rounds),
        Work::Drain => sweeping::run(rt, alloc, rounds, false),
        Work::Sweep => sweeping::run(rt, alloc, rounds, true),
    }
}

/// Does so many rounds, and writes what was done.
pub fn does<R: Runtime + AllocGlobal + Wait>(rt: &R, work: Work, rounds: u64) -> io::Result<()> {
    report(rt, work.name(), rounds, is_done(rt, work, rounds))
}

/// Does two rounds of each work.
pub fn do_all<R: Runtime + AllocGlobal + Wait>(rt: &R) -> io::Result<()> {
    for work in OPERATION_WORKS {
        does(rt, work, 2)?;
    }
    Ok(())
}
