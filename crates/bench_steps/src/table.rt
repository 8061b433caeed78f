//! Typed steps, on a heap of 64 blocks with objects of two fields.
mod fetches;
mod loads;
mod making;
mod opening;
mod stores;

use crate::table::opening::SIZES;
use crate::words::{TABLE_WORKS, TableWork as Work};
use std::alloc::Global;
use std::io;
use std::rt::Runtime;
use test_heaps::{opens, report};

fn is_done(alloc: Global, work: Work, rounds: u64) -> bool {
    match work {
        Work::Load => loads::run(alloc, rounds),
        Work::Look => loads::run_looks(alloc, rounds),
        Work::Store => stores::run(alloc, rounds),
        Work::Fetch => fetches::run(alloc, rounds),
        Work::Make => making::run(alloc, rounds),
        Work::Open => opens(alloc, SIZES, rounds),
    }
}

/// Does so many rounds, and writes what was done.
pub fn does<R: Runtime + AllocGlobal>(rt: &R, work: Work, rounds: u64) -> io::Result<()> {
    report(rt, work.name(), rounds, is_done(rt.alloc(), work, rounds))
}

/// Does a few rounds of each work.
pub fn do_all<R: Runtime + AllocGlobal>(rt: &R) -> io::Result<()> {
    for work in TABLE_WORKS {
        let rounds = match work {
            Work::Make | Work::Open => 1,
            _ => 10_000,
        };
        does(rt, work, rounds)?;
    }
    Ok(())
}
