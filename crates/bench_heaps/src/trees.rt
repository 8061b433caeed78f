//! The well-known workload of binary trees.
//!
//! A tree is made and thrown away, so that the heap is stretched; one tree is made and kept; and while it lives, many
//! trees of growing depth are made, counted and thrown away.
//!
//! A mutator's 32 variables are its only roots. A tree of depth d is made in variable v with the 2 d variables behind
//! it: the subtrees of a node wait in the next two. It is counted with the d + 1 variables behind v, one for each node
//! on the way down. Before each node that is made there is a safe point; a stop waits for the count of one tree.

mod crew;
mod nodes;
mod output;
mod running;
mod threads;
mod whole;
mod words;
mod workers;

use crate::words::refuse;
use output::report;
use running::run;
use std::io;
use std::rt::Runtime;
use std::sync::Wait;
use std::thread::Threads;
use words::{USAGE, asked_by};

/// Does what the options ask for, and answers the status.
pub fn does<R: Runtime + Threads + Wait + AllocGlobal + Sync>(
    rt: &R,
    words: &[String],
) -> io::Result<u8> {
    match asked_by(rt.alloc(), words) {
        Ok(asked) => report(rt, &asked, &run(rt, rt.alloc(), &asked)),
        Err(why) => refuse(rt, why, USAGE),
    }
}
