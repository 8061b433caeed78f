//! Four threads on one object: two store in a word of it each, and the two others, who read both words, agree on which was
//! stored first.
//!
//! The object is the root of a shared world. Its value becomes 1, and its field 0 comes to refer to an object. One reader
//! reads the value and then the field, the other the field and then the value. If the one finds 1 and then nothing, and
//! the other an object and then 0, there is no order of the two stores that both have seen. So it is never.
#![tactic(auto)]

mod laws;
mod ordering;
mod reading;
mod worlds;

use std::io;

fn main(rt: HostRuntime) -> io::Result<()> {
    ordering::tell(&rt)
}
