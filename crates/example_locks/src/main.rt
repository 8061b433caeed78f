//! A lock that guards data: two threads change a pair by turns, and whoever has the lock finds the pair whole.
//!
//! The lock is the value of the root: who exchanges 0 for 1 there has it. The pair is what fields 0 and 1 of the root
//! refer to. Each visit puts a new object into both, one after the other.
#![tactic(auto)]

mod laws;
mod visiting;
mod worlds;

use std::io;

fn main(rt: HostRuntime) -> io::Result<()> {
    visiting::tell(&rt)
}
