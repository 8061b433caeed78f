//! The program `bench_steps`: steps, a runtime's operations, or collections, to be timed.
#![tactic(auto)]

mod cycles;
mod operations;
mod table;
mod words;

use std::io;
use std::rt::Runtime;
use std::sync::Wait;
use test_heaps::command_words;
use words::{Asked, asked_by};

fn does<R: Runtime + AllocGlobal + Wait>(rt: &R, asked: Asked) -> io::Result<()> {
    match asked {
        Asked::Table(work, rounds) => table::does(rt, work, rounds),
        Asked::Operations(work, rounds) => operations::does(rt, work, rounds),
        Asked::Cycles(collections) => cycles::does(rt, collections),
    }
}

fn do_all<R: Runtime + AllocGlobal + Wait>(rt: &R) -> io::Result<()> {
    table::do_all(rt)?;
    operations::do_all(rt)?;
    cycles::do_all(rt)
}

fn main(rt: HostRuntime) -> io::Result<()> {
    let words = command_words(&rt)?;
    if words.is_empty() {
        return do_all(&rt);
    }
    match asked_by(rt.alloc(), words.as_slice()) {
        Some(asked) => does(&rt, asked),
        None => println!(rt;
            "usage: bench_steps [table WORK ROUNDS | operations WORK ROUNDS | cycles CONTENT CELLS ROUNDS]"
        ),
    }
}
