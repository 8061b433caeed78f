ghost use Rattle.std.specs.Prelude.{IfOk, IfSome};
ghost use Rattle.bench_heaps.specs.Words.{AreWordsInRange};

use crate::words::{Unasked, chosen, matches_of};
use clap::ArgMatches;
use std::alloc::Global;

pub const USAGE: &str =
    "usage: bench_heaps pauses [--cells n] [--live percent] [--workers k] [--tracers t] [--packets n] [--entries e] [--transactions n] [--stops] [--counts-alone] [--timeline]";

/// A run that is asked for.
#[derive(Clone, Copy, Drop)]
pub struct Asked {
    /// A multiple of 64, 4,096 to 16,777,216.
    pub cells: u32,
    /// How many of a hundred cells the live set takes: 1 to 90.
    pub live: u32,
    /// 1 to 32, each in a thread of its own.
    pub workers: u32,
    /// 0 to 8.
    pub tracers: u32,
    /// 2 to 1,024.
    pub packets: u32,
    /// How many cells a packet has room for: 2 to 512.
    pub entries: u32,
    /// How many orders are replaced in all: up to 4,000,000,000.
    pub transactions: u32,
    /// Collections mark only in stops.
    pub stops: bool,
    /// Nothing is told that depends on the schedule.
    pub counts_alone: bool,
    pub timeline: bool,
}

const OPTIONS: [&str; 7] = [
    "cells",
    "live",
    "workers",
    "tracers",
    "packets",
    "entries",
    "transactions",
];

const FLAGS: [&str; 3] = ["stops", "counts-alone", "timeline"];

/// The run, if each number is in its range.
fn asked_of(matches: &ArgMatches<'_>) -> Option<Asked>
    ensures { IfSome result AreWordsInRange }
{
    let asked = Asked {
        cells: chosen(matches, "cells", 4_096, 16_777_216, 65_536)?,
        live: chosen(matches, "live", 1, 90, 60)?,
        workers: chosen(matches, "workers", 1, 32, 2)?,
        tracers: chosen(matches, "tracers", 0, 8, 1)?,
        packets: chosen(matches, "packets", 2, 1_024, 1_024)?,
        entries: chosen(matches, "entries", 2, 512, 512)?,
        transactions: chosen(matches, "transactions", 0, 4_000_000_000, 20_000)?,
        stops: matches.get_flag("stops"),
        counts_alone: matches.get_flag("counts-alone"),
        timeline: matches.get_flag("timeline"),
    };
    if asked.cells % 64 == 0 {
        Some(asked)
    } else {
        None
    }
}

/// The run that the words ask for.
pub fn asked_by(alloc: Global, words: &[String]) -> Result<Asked, Unasked>
    ensures { IfOk result AreWordsInRange }
{
    match matches_of(alloc, words, OPTIONS.as_slice(), FLAGS.as_slice()) {
        Ok(matches) => match asked_of(&matches) {
            Some(asked) => Ok(asked),
            None => Err(Unasked::Wrong),
        },
        Err(why) => Err(why),
    }
}
