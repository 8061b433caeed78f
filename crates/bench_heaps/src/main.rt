//! The program `bench_heaps`: works that embed the collector, to be timed. The first word names one, and options say
//! how large it is. A word `then` stands between two.
#![tactic(auto)]

mod pauses;
mod seen;
mod structures;
mod trees;
mod words;

use std::io;
use std::process::ExitCode;
use std::rt::{Clock, Runtime};
use std::sync::Wait;
use std::thread::Threads;
use structures::Structure;
use words::{Unasked, given_words, refuse};

const USAGE: &str = "usage: bench_heaps trees|queue|map|pauses [OPTIONS] [then ..]";

fn does<R: Runtime + Threads + Wait + Clock + AllocGlobal + Sync>(
    rt: &R,
    words: &[String],
) -> io::Result<u8> {
    let Some((work, options)) = words.split_first() else {
        return refuse(rt, Unasked::Wrong, USAGE);
    };
    match work.as_str() {
        "trees" => trees::does(rt, options),
        "queue" => structures::does(rt, Structure::Queue, options),
        "map" => structures::does(rt, Structure::Map, options),
        "pauses" => pauses::does(rt, options),
        _ => refuse(rt, Unasked::Wrong, USAGE),
    }
}

/// Does one work after another, until one isn't done.
fn do_all<R: Runtime + Threads + Wait + Clock + AllocGlobal + Sync>(
    rt: &R,
    words: &[String],
) -> io::Result<u8> {
    for part in words.split(|word| word.as_str() == "then") {
        let status = does(rt, part)?;
        if status != 0 {
            return Ok(status);
        }
    }
    Ok(0)
}

fn main(rt: HostRuntime) -> ExitCode {
    let Ok(words) = given_words(&rt) else {
        return ExitCode::from(6);
    };
    match do_all(&rt, words.as_slice()) {
        Ok(status) => ExitCode::from(status),
        Err(_) => ExitCode::from(5),
    }
}
