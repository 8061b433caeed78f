//! Threads put into one queue and take out of it, or look up, put and take in one map.

mod crowd;
mod work;

use crate::words::{Unasked, chosen, matches_of, refuse};
use clap::ArgMatches;
use crowd::run;
use std::alloc::Global;
use std::io;
use std::rt::Runtime;
use std::sync::Wait;
use std::thread::Threads;

const USAGE: &str =
    "usage: bench_heaps queue|map [--workers k] [--rounds n] [--cells n] [--tracers t]";

/// What the threads act on.
#[derive(Clone, Copy, Drop)]
pub enum Structure {
    /// Its objects have two references.
    Queue,
    /// A map of 256 chains, whose objects have 16 references.
    Map,
}

/// A run that is asked for.
#[derive(Clone, Copy, Drop)]
pub struct Asked {
    pub structure: Structure,
    /// 1 to 31, each in a thread of its own. One more makes the structure.
    pub workers: u32,
    /// How often each does what it does.
    pub rounds: u32,
    /// A multiple of 64, 64 to 16,777,216.
    pub cells: u32,
    /// None, or one.
    pub tracers: u32,
}

const OPTIONS: [&str; 4] = ["workers", "rounds", "cells", "tracers"];

fn asked_of(structure: Structure, matches: &ArgMatches<'_>) -> Option<Asked> {
    Some(Asked {
        structure,
        workers: chosen(matches, "workers", 1, 31, 2)?,
        rounds: chosen(matches, "rounds", 0, u32::MAX, 10_000)?,
        cells: chosen(matches, "cells", 64, 16_777_216, 16_384)?,
        tracers: chosen(matches, "tracers", 0, 1, 1)?,
    })
}

/// The run that the words ask for.
fn asked_by(alloc: Global, structure: Structure, words: &[String]) -> Result<Asked, Unasked> {
    match matches_of(alloc, words, OPTIONS.as_slice(), [].as_slice()) {
        Ok(matches) => asked_of(structure, &matches).ok_or(Unasked::Wrong),
        Err(why) => Err(why),
    }
}

/// Does what the options ask for, and answers the status.
pub fn does<R: Runtime + Threads + Wait + AllocGlobal + Sync>(
    rt: &R,
    structure: Structure,
    words: &[String],
) -> io::Result<u8> {
    let asked = match asked_by(rt.alloc(), structure, words) {
        Ok(asked) => asked,
        Err(why) => return refuse(rt, why, USAGE),
    };
    match run(rt, rt.alloc(), asked) {
        Some(seen) => {
            println!(rt; "count {} sum {}", seen.objects, seen.sum)?;
            Ok(0)
        }
        None => {
            println!(rt; "a size is out of its range, or the heap is full, or memory ran out")?;
            Ok(3)
        }
    }
}
