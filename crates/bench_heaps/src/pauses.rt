//! How long the mutators of a warehouse's heap stand still.
//!
//! Each worker is a mutator that keeps orders: small trees and lists below a directory, which together fill a stated
//! share of the heap. A transaction replaces one order and looks at another, so the heap is full of garbage again and
//! again while the live set stays as it is. With `--stops` a collection marks only in stops.

mod clock;
mod crowd;
mod marking;
mod orders;
mod report;
mod timeline;
mod words;
mod workers;

use crate::words::refuse;
use crowd::run;
use report::tell;
use std::io;
use std::rt::{Clock, Runtime};
use std::sync::Wait;
use std::thread::Threads;
use words::{USAGE, asked_by};

/// Does what the options ask for, and answers the status.
pub fn does<R: Runtime + Threads + Wait + Clock + AllocGlobal + Sync>(
    rt: &R,
    words: &[String],
) -> io::Result<u8> {
    let asked = match asked_by(rt.alloc(), words) {
        Ok(asked) => asked,
        Err(why) => return refuse(rt, why, USAGE),
    };
    match run(rt, rt.alloc(), asked) {
        Some(found) => {
            tell(rt, asked, &found)?;
            Ok(0)
        }
        None => {
            println!(rt; "the live set doesn't fit, or memory ran out")?;
            Ok(3)
        }
    }
}
