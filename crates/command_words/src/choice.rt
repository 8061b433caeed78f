ghost use Rattle.std.specs.Prelude.{◌≡◌, List, ℕ, Option, Some, None, true, option_map};
ghost use Rattle.clap.specs.Words.{first_of, found_of, rows_of};
ghost use Rattle.clap.specs.Walk.{one_of};
ghost use Rattle.command_words.specs.Words.{Setting, batch_command, by_name, cells, chosen, dump_command, gen, is_set, load, options, run};
ghost use Rattle.command_words.specs.Commands.{command_of, options_of};
ghost use Rattle.command_words.specs.Parsing.{IsAsked, IsToldFlag, MatchesTell, are_allowed, batch_options, load_options, made_options, play_options, run_options, told_values};

use crate::asked::Asked;
use crate::number::number_in;
use clap::ArgMatches;
use play_end::Options;

/// The number given for an option, if in range, or the default.
fn chosen(
    matches: &ArgMatches<'_>,
    name: &str,
    least: u32,
    greatest: u32,
    default: Option<u32>,
) -> Option<u32>
    ensures { result ≡ chosen least greatest default (told_values (first_of name.now (rows_of (found_of matches.now)))) }
{
    match matches.get_str(name) {
        Some(text) => number_in(least, greatest, text),
        None => default,
    }
}

fn is_set(matches: &ArgMatches<'_>, name: &str) -> bool
    ensures { (all : List (Option (List ℕ))) → IsToldFlag (one_of name.now (rows_of (found_of matches.now))) all → Some result ≡ is_set all }
{
    matches.get_flag(name)
}

/// The cells of the heap: a multiple of 64.
fn cells(matches: &ArgMatches<'_>) -> Option<u32>
    ensures { (all : List Setting) → MatchesTell (rows_of (found_of matches.now)) all → result ≡ cells all }
{
    let cells = chosen(matches, "cells", 64, 65_536, Some(4_096))?;
    if cells % 64 == 0 { Some(cells) } else { None }
}

fn options(matches: &ArgMatches<'_>) -> Option<Options>
    ensures { (all : List Setting) → MatchesTell (rows_of (found_of matches.now)) all → option_map options_of result ≡ options all }
{
    Some(Options {
        cells: cells(matches)?,
        workers: chosen(matches, "workers", 1, 32, Some(4))?,
        tracers: chosen(matches, "tracers", 0, 8, Some(1))?,
        packets: chosen(matches, "packets", 2, 1_024, Some(64))?,
        entries: chosen(matches, "entries", 2, 512, Some(32))?,
        place: is_set(matches, "place"),
    })
}

fn run(matches: &ArgMatches<'_>) -> Option<Asked>
    ensures { (all : List Setting) → MatchesTell (rows_of (found_of matches.now)) all → are_allowed run_options all ≡ true → option_map command_of result ≡ run all }
{
    Some(Asked::Run(options(matches)?))
}

fn generate(matches: &ArgMatches<'_>) -> Option<Asked>
    ensures { (all : List Setting) → MatchesTell (rows_of (found_of matches.now)) all → are_allowed made_options all ≡ true → option_map command_of result ≡ gen all }
{
    let number = chosen(matches, "number", 0, 4_294_967_295, None)?;
    let size = chosen(matches, "size", 1, 20_000, None)?;
    Some(Asked::Gen(number, size))
}

fn load(matches: &ArgMatches<'_>) -> Option<Asked>
    ensures { (all : List Setting) → MatchesTell (rows_of (found_of matches.now)) all → are_allowed load_options all ≡ true → option_map command_of result ≡ load all }
{
    let options = options(matches)?;
    let number = chosen(matches, "number", 0, 4_294_967_295, None)?;
    let size = chosen(matches, "size", 1, 20_000, None)?;
    Some(Asked::Load(options, number, size))
}

fn dump(matches: &ArgMatches<'_>) -> Option<Asked>
    ensures { (all : List Setting) → MatchesTell (rows_of (found_of matches.now)) all → are_allowed play_options all ≡ true → option_map command_of result ≡ dump_command all }
{
    Some(Asked::Dump(options(matches)?))
}

fn batch(matches: &ArgMatches<'_>) -> Option<Asked>
    ensures { (all : List Setting) → MatchesTell (rows_of (found_of matches.now)) all → are_allowed batch_options all ≡ true → option_map command_of result ≡ batch_command all }
{
    let options = options(matches)?;
    let runners = chosen(matches, "runners", 1, 8, Some(2))?;
    Some(Asked::Batch(options, runners))
}

/// The command of this name; none if a value is out of range or a required option is missing.
pub fn by_name(name: &str, matches: &ArgMatches<'_>) -> Option<Asked>
    ensures { (all : List Setting) → IsAsked name.now (rows_of (found_of matches.now)) all → option_map command_of result ≡ by_name name.now all }
{
    if name == "run" {
        run(matches)
    } else if name == "gen" {
        generate(matches)
    } else if name == "load" {
        load(matches)
    } else if name == "convert" {
        Some(Asked::Convert)
    } else if name == "schedule" {
        Some(Asked::Schedule)
    } else if name == "dump" {
        dump(matches)
    } else if name == "undump" {
        Some(Asked::Undump)
    } else if name == "census" {
        Some(Asked::Census)
    } else if name == "batch" {
        batch(matches)
    } else {
        None
    }
}
