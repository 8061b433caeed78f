//! The words of the command line: options with numbers, and flags.
ghost use Rattle.std.specs.Prelude.{◌≤◌, IfSome};

use clap::error::ErrorKind;
use clap::{Arg, ArgAction, ArgMatches, Command};
use std::alloc::{AllocError, Global};
use std::rt::{Env, Runtime};
use std::{env, io};

/// Why nothing is done.
#[derive(Clone, Copy, Drop)]
pub enum Unasked {
    /// The words ask for nothing.
    Wrong,
    /// Memory ran out.
    OutOfMemory,
}

/// The words of the command line, without the program's own name.
pub fn given_words<R: Env + AllocGlobal>(rt: &R) -> io::Result<Vec<String>> {
    let words: Vec<String> = env::args(rt)?.skip(1).collect(rt.alloc())?;
    Ok(words)
}

fn number_of(text: &str) -> Option<u32> {
    if text.starts_with('+') {
        return None;
    }
    text.parse::<u32>().ok()
}

/// The number of an option, if in range, or the default.
pub fn chosen(
    matches: &ArgMatches<'_>,
    name: &str,
    least: u32,
    greatest: u32,
    default: u32,
) -> Option<u32>
    requires { (least ≤ default) × (default ≤ greatest) }
    ensures { IfSome result (λ n. (least ≤ n) × (n ≤ greatest)) }
{
    let number = match matches.get_str(name) {
        Some(text) => number_of(text)?,
        None => default,
    };
    if least <= number && number <= greatest {
        Some(number)
    } else {
        None
    }
}

/// Help is off.
fn program<'a>(
    alloc: Global,
    options: &[&'a str],
    flags: &[&'a str],
) -> Result<Command<'a>, AllocError> {
    let mut program = Command::new(alloc, "bench_heaps")
        .no_binary_name(true)
        .disable_help_flag(true);
    for name in options {
        let option = Arg::new(alloc, *name).long(*name).action(ArgAction::Set);
        program = program.arg(option)?;
    }
    for name in flags {
        let flag = Arg::new(alloc, *name)
            .long(*name)
            .action(ArgAction::SetTrue);
        program = program.arg(flag)?;
    }
    Ok(program)
}

/// What words give for these options and flags, in any order, each at most once.
pub fn matches_of<'a>(
    alloc: Global,
    words: &'a [String],
    options: &[&'a str],
    flags: &[&'a str],
) -> Result<ArgMatches<'a>, Unasked> {
    if !words.iter().all(|word| word.as_str() != "--") {
        return Err(Unasked::Wrong);
    }
    let Ok(program) = program(alloc, options, flags) else {
        return Err(Unasked::OutOfMemory);
    };
    match program.try_get_matches_from(words) {
        Ok(matches) => Ok(matches),
        Err(error) if error.kind() == ErrorKind::OutOfMemory => Err(Unasked::OutOfMemory),
        Err(_) => Err(Unasked::Wrong),
    }
}

/// Answers the status, and tells how the words are used if they ask for nothing.
pub fn refuse<R: Runtime>(rt: &R, why: Unasked, usage: &str) -> io::Result<u8> {
    match why {
        Unasked::OutOfMemory => Ok(6),
        Unasked::Wrong => {
            println!(rt; "{usage}")?;
            Ok(1)
        }
    }
}
