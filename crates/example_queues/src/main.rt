//! A queue of two threads: each puts numbers in and takes numbers out, and it is first in, first out.
//!
//! The queue is the root. A third mutator lays it out: both its fields refer to a node. By stamps all that the threads
//! do comes behind that.
#![tactic(auto)]

mod laws;
mod laying;
mod lining;
mod playing;
mod tallying;
mod worlds;

use std::io;

fn main(rt: HostRuntime) -> io::Result<()> {
    playing::tell(&rt)
}
