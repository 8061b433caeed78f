ghost use Rattle.std.specs.Prelude.{IfOk, IfSome};
ghost use Rattle.bench_heaps.specs.Counts.{AreWordsInRange};

use crate::words::{Unasked, chosen, matches_of};
use clap::ArgMatches;
use std::alloc::Global;

pub const USAGE: &str =
    "usage: bench_heaps trees [--depth n] [--cells n] [--workers k] [--tracers t]";

/// A run that is asked for.
#[derive(Clone, Copy, Drop)]
pub struct Asked {
    /// The depth of the tree that is kept, 4 to 13. A tree of depth 0 is one node.
    pub depth: u32,
    /// A multiple of 64, 64 to 65,536. Each node takes one.
    pub cells: u32,
    /// 1 to 32, each in a thread of its own.
    pub workers: u32,
    /// 0 to 8.
    pub tracers: u32,
}

const OPTIONS: [&str; 4] = ["depth", "cells", "workers", "tracers"];

fn asked_of(matches: &ArgMatches<'_>) -> Option<Asked>
    ensures { IfSome result AreWordsInRange }
{
    let asked = Asked {
        depth: chosen(matches, "depth", 4, 13, 10)?,
        cells: chosen(matches, "cells", 64, 65_536, 16_384)?,
        workers: chosen(matches, "workers", 1, 32, 4)?,
        tracers: chosen(matches, "tracers", 0, 8, 1)?,
    };
    if asked.cells % 64 == 0 {
        Some(asked)
    } else {
        None
    }
}

/// The run that the words ask for.
pub fn asked_by(alloc: Global, words: &[String]) -> Result<Asked, Unasked>
    ensures { IfOk result AreWordsInRange }
{
    match matches_of(alloc, words, OPTIONS.as_slice(), [].as_slice()) {
        Ok(matches) => match asked_of(&matches) {
            Some(asked) => Ok(asked),
            None => Err(Unasked::Wrong),
        },
        Err(why) => Err(why),
    }
}
