use std::rt::{Env, Runtime};
use std::{env, io};

/// The words of the command line, without the program's own name.
pub fn command_words<R: Env + AllocGlobal>(rt: &R) -> io::Result<Vec<String>> {
    let mut words = Vec::new(rt.alloc());
    let mut is_name = true;
    for word in env::args(rt)? {
        if is_name {
            is_name = false;
        } else {
            words.push(word)?;
        }
    }
    Ok(words)
}

/// Writes what was done this many times, or that it failed.
pub fn report<R: Runtime>(rt: &R, name: &str, rounds: u64, is_done: bool) -> io::Result<()> {
    if is_done {
        println!(rt; "{name} {rounds}")
    } else {
        println!(rt; "{name} failed")
    }
}
