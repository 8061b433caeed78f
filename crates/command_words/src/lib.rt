//! What the words of the command line ask for.
//!
//! The words, without the program's own name, are a command and then its options in any order, each at most once, as
//! `--name value`, `--name=value`, or `--name` for a flag. [`command_of`] answers exactly `command` in
//! `specs/Words.antt`.
//!
//! # What `clap` does, and what is done here
//!
//! The commands and their options stand in one table (`COMMANDS` in `program`), of which `clap`'s builder is told line
//! by line. The parser's contract gives faults and matches as a function of the words; `proofs/LeafWalk.antt` follows
//! it word by word.
//!
//! - *Before the parse* a word `--` is refused, which `clap` takes as the mark that no option follows.
//! - *After the parse* the values are judged (`number`): one or more digits, in the option's range. `clap` takes any
//!   text as a value, and its own parsers of numbers allow a sign.
//!
//! # How a further command joins
//!
//! 1. `COMMANDS` in `program` gets its line, and `forms` in `specs/Parsing.antt` the same one; a new flag or required
//!    option is named in `is_flag` or `is_required`, in both. The builder is proved for any table.
//! 2. `Asked` gets what it asks for, with its lines in `command_of` and `IsCommandInRange` of `specs/Commands.antt`;
//!    `by_name` in `specs/Words.antt` says which command its words are.
//! 3. `choice` reads its values from the matches.
//! 4. `the_table` in `proofs/CommandTable.antt` gets its line: a bad value makes it none, and so does a required option
//!    that is missing.
#![tactic(auto)]

ghost use Rattle.std.specs.Prelude.{◌≡◌, map, IfOk, IfSome, option_map};
ghost use Rattle.std.specs.String.{string_bytes};
ghost use Rattle.command_words.specs.Words.{command};
ghost use Rattle.command_words.specs.Commands.{IsCommandInRange, command_of};
ghost use Rattle.command_words.specs.Parsing.{has_no_dashes};

mod asked;
mod choice;
mod number;
mod program;

pub use asked::Asked;
use choice::by_name;
use clap::error::ErrorKind;
use program::program;
use std::alloc::{AllocError, Global};

fn has_no_dashes(words: &[String]) -> bool
    ensures { result ≡ has_no_dashes (map string_bytes words.now) }
{
    words.iter().all(|word| word.as_str() != "--")
}

/// The command that the words ask for, if any, with values in their ranges. It takes memory for the parse.
pub fn command_of(alloc: Global, words: &[String]) -> Result<Option<Asked>, AllocError>
    ensures asked { IfOk result (λ r. option_map command_of r ≡ command (map string_bytes words.now)) }
    ensures range { IfOk result (λ r. IfSome r IsCommandInRange) }
{
    if !has_no_dashes(words) {
        return Ok(None);
    }
    let matches = match program(alloc)?.try_get_matches_from(words) {
        Ok(matches) => matches,
        Err(error) if error.kind() == ErrorKind::OutOfMemory => return Err(AllocError),
        Err(_) => return Ok(None),
    };
    match matches.subcommand() {
        Some((name, own)) => Ok(by_name(name, own)),
        None => Ok(None),
    }
}
