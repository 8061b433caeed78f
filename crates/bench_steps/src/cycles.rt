//! Collections: how long the fastest takes.
//!
//! A collection is a stop with its finish: the mutator leaves, stops the world, marks, sweeps, and lets the world go
//! on. Nobody else is there.
mod checks;
mod filling;
mod opening;
mod stops;

use crate::cycles::opening::sizes_of;
use crate::words::{CONTENTS, Collections, Content, Size};
use std::io;
use std::rt::Runtime;
use std::sync::Wait;

const FEW: u64 = 2;

/// Writes the nanoseconds of the fastest.
pub fn does<R: Runtime + AllocGlobal + Wait>(rt: &R, asked: Collections) -> io::Result<()> {
    match stops::run(rt, rt.alloc(), asked) {
        Some(nanoseconds) => println!(rt; "{nanoseconds}"),
        None => println!(rt; "failed"),
    }
}

fn do_few<R: Runtime + AllocGlobal + Wait>(rt: &R, content: Content, size: Size) -> io::Result<()> {
    let name = content.name();
    let cells = sizes_of(size).cells;
    let asked = Collections {
        content,
        size,
        rounds: FEW,
    };
    match stops::run(rt, rt.alloc(), asked) {
        Some(_nanoseconds) => println!(rt; "{name} {cells} {FEW}"),
        None => println!(rt; "{name} {cells} failed"),
    }
}

/// Makes a few collections of each kind.
pub fn do_all<R: Runtime + AllocGlobal + Wait>(rt: &R) -> io::Result<()> {
    for size in [Size::Small, Size::Large] {
        for content in CONTENTS {
            do_few(rt, content, size)?;
        }
    }
    Ok(())
}
