//! In a case a `|` stands behind each word.
use super::cases::{Kind, all_hold};
use command_words::command_of;
use std::alloc::{AllocError, Global};

/// What these words ask for.
pub fn asked_by(alloc: Global, told: &str) -> Option<String> {
    let mut words = Vec::new(alloc);
    if let Some((all, _)) = told.rsplit_once('|') {
        for word in all.split('|') {
            words.push(word.to_string(alloc).ok()?).ok()?;
        }
    }
    let asked = command_of(alloc, words.as_slice()).ok()?;
    format!(in alloc; "{asked:?}").ok()
}

const TAKEN: &str =
    "$ run| => Some(Run(Options { cells: 4096, workers: 4, tracers: 1, packets: 64, entries: 32, place: false }))
$ run|--cells|64| => Some(Run(Options { cells: 64, workers: 4, tracers: 1, packets: 64, entries: 32, place: false }))
$ run|--cells=64| => Some(Run(Options { cells: 64, workers: 4, tracers: 1, packets: 64, entries: 32, place: false }))
$ run|--cells|00000064| => Some(Run(Options { cells: 64, workers: 4, tracers: 1, packets: 64, entries: 32, place: false }))
$ run|--place| => Some(Run(Options { cells: 4096, workers: 4, tracers: 1, packets: 64, entries: 32, place: true }))
$ run|--cells|64|--workers|1|--tracers|0|--packets|2|--entries|2| => Some(Run(Options { cells: 64, workers: 1, tracers: 0, packets: 2, entries: 2, place: false }))
$ run|--place|--entries=512|--packets|1024|--tracers=8|--workers|32|--cells=65536| => Some(Run(Options { cells: 65536, workers: 32, tracers: 8, packets: 1024, entries: 512, place: true }))
$ gen|--number|0|--size|1| => Some(Gen(0, 1))
$ gen|--size=20000|--number=4294967295| => Some(Gen(4294967295, 20000))
$ load|--number|1|--size|8| => Some(Load(Options { cells: 4096, workers: 4, tracers: 1, packets: 64, entries: 32, place: false }, 1, 8))
$ load|--number|1|--cells|64|--size|8| => Some(Load(Options { cells: 64, workers: 4, tracers: 1, packets: 64, entries: 32, place: false }, 1, 8))
$ load|--cells=64|--size=8|--number=1| => Some(Load(Options { cells: 64, workers: 4, tracers: 1, packets: 64, entries: 32, place: false }, 1, 8))
$ load|--entries|2|--packets|2|--tracers|0|--workers|1|--cells|64|--size|8|--number|1| => Some(Load(Options { cells: 64, workers: 1, tracers: 0, packets: 2, entries: 2, place: false }, 1, 8))
$ run|--cells|0000000000000000000000000000000000000000064| => Some(Run(Options { cells: 64, workers: 4, tracers: 1, packets: 64, entries: 32, place: false }))
$ convert| => Some(Convert)
$ schedule| => Some(Schedule)
$ dump| => Some(Dump(Options { cells: 4096, workers: 4, tracers: 1, packets: 64, entries: 32, place: false }))
$ dump|--cells=64| => Some(Dump(Options { cells: 64, workers: 4, tracers: 1, packets: 64, entries: 32, place: false }))
$ undump| => Some(Undump)
$ census| => Some(Census)
$ batch| => Some(Batch(Options { cells: 4096, workers: 4, tracers: 1, packets: 64, entries: 32, place: false }, 2))
$ batch|--runners|1| => Some(Batch(Options { cells: 4096, workers: 4, tracers: 1, packets: 64, entries: 32, place: false }, 1))
$ batch|--runners=008| => Some(Batch(Options { cells: 4096, workers: 4, tracers: 1, packets: 64, entries: 32, place: false }, 8))
$ batch|--cells|64|--runners|3| => Some(Batch(Options { cells: 64, workers: 4, tracers: 1, packets: 64, entries: 32, place: false }, 3))
$ dump|--cells|64|--workers|1|--tracers|0|--packets|2|--entries|2| => Some(Dump(Options { cells: 64, workers: 1, tracers: 0, packets: 2, entries: 2, place: false }))
$ batch|--runners=8|--entries=2|--packets=2|--tracers=0|--workers=1|--cells=64| => Some(Batch(Options { cells: 64, workers: 1, tracers: 0, packets: 2, entries: 2, place: false }, 8))";

#[test]
fn takes(rt: HostRuntime) {
    all_hold(&rt, Kind::Words, TAKEN);
}

fn with_zeros(alloc: Global, zeros: usize, digits: &str) -> Result<String, AllocError> {
    let mut number = String::new(alloc);
    for _ in 0..zeros {
        number.push('0')?;
    }
    number.push_str(digits)?;
    Ok(number)
}

/// What is asked for with a number of so many zeros and the digits behind them.
pub fn asked_with(alloc: Global, told: &str) -> Option<String> {
    let (zeros, digits) = told.trim().split_once(' ')?;
    let number = with_zeros(alloc, zeros.parse::<usize>().ok()?, digits).ok()?;
    let words = format!(in alloc; "gen|--size|1|--number|{number}|").ok()?;
    asked_by(alloc, words.as_str())
}

/// The last three numbers are 2^64, 2^64 + 7 and 2^128.
const NUMBERS: &str = "$ 40 7 => Some(Gen(7, 1))
$ 5000 7 => Some(Gen(7, 1))
$ 5000 4294967295 => Some(Gen(4294967295, 1))
$ 5000 4294967296 => None
$ 0 18446744073709551616 => None
$ 0 18446744073709551623 => None
$ 40 340282366920938463463374607431768211456 => None";

#[test]
fn reads_numbers_of_any_length(rt: HostRuntime) {
    all_hold(&rt, Kind::Number, NUMBERS);
}

/// No command, or more than one. The first case has no words, and the second an empty one.
const COMMANDS: &str = "$ => None
$ | => None
$ --| => None
$ -| => None
$ help| => None
$ --help| => None
$ -h| => None
$ --version| => None
$ -V| => None
$ Run| => None
$ ru| => None
$ run | => None
$ run|run| => None
$ run|convert| => None
$ --place|run| => None
$ --cells|64|run| => None
$ schedules| => None
$ Schedule| => None
$ dump|run| => None
$ undump|census| => None
$ batch|run| => None";

/// A word where an option has to begin, and is none of the command's.
const OPTIONS: &str = "$ run|| => None
$ run|--| => None
$ run|--|--cells|64| => None
$ run|--cells|64|--| => None
$ run|--cells|--| => None
$ run|-| => None
$ run|help| => None
$ run|--help| => None
$ run|-h| => None
$ run|--version| => None
$ run|--cell|64| => None
$ run|--cellss|64| => None
$ run|--Cells|64| => None
$ run|-c|64| => None
$ run|-cells|64| => None
$ run|cells|64| => None
$ run|cells=64| => None
$ run|=64| => None
$ run|--=64| => None
$ run|--number|1| => None
$ gen|--number|1|--size|8|--cells|64| => None
$ load|--number|1|--size|8|--place| => None
$ convert|--cells|64| => None
$ schedule|--cells|64| => None
$ dump|--place| => None
$ dump|--runners|2| => None
$ undump|--cells|64| => None
$ census|--place| => None
$ batch|--place| => None
$ batch|--number|1| => None
$ run|--runners|2| => None";

/// An option given twice, without its value, with one that it doesn't take, or not at all.
const TIMES: &str = "$ run|--cells|64|--cells|64| => None
$ run|--cells=64|--workers|4|--cells|128| => None
$ run|--place|--place| => None
$ run|--cells| => None
$ run|--workers|4|--cells| => None
$ run|--cells|--workers|4| => None
$ run|--cells|--workers|--workers|4| => None
$ run|--cells|--place| => None
$ run|--cells|64|128| => None
$ run|--place|1| => None
$ run|--place=1| => None
$ run|--place=| => None
$ run|--place=true| => None
$ gen|--number|1| => None
$ gen|--size|8| => None
$ load|--cells|64| => None
$ batch|--runners| => None
$ batch|--runners|2|--runners=2| => None";

/// A value that is no number, or out of its range.
const VALUES: &str = "$ run|--cells|| => None
$ run|--cells=| => None
$ run|--cells=|64| => None
$ run|--cells|+64| => None
$ run|--cells|-64| => None
$ run|--cells=-64| => None
$ run|--cells|-0| => None
$ run|--cells|-x| => None
$ run|--cells| 64| => None
$ run|--cells|64 | => None
$ run|--cells|0x40| => None
$ run|--cells|6_4| => None
$ run|--cells|64.0| => None
$ run|--cells|64=--workers|3| => None
$ run|--cells=64=64| => None
$ run|--cells|0| => None
$ run|--cells|63| => None
$ run|--cells|100| => None
$ run|--cells|65600| => None
$ run|--workers|0| => None
$ run|--workers|33| => None
$ run|--tracers|9| => None
$ run|--packets|1| => None
$ run|--packets|1025| => None
$ run|--entries|1| => None
$ run|--entries|513| => None
$ run|--entries|18446744073709551618| => None
$ dump|--cells|100| => None
$ batch|--workers|33| => None
$ batch|--runners|0| => None
$ batch|--runners|9| => None
$ batch|--runners=| => None";

/// Beyond what `gen` and `load` take.
const MADE: &str = "$ gen|--number|1|--size|0| => None
$ gen|--number|1|--size|20001| => None
$ gen|--number|4294967296|--size|1| => None
$ load|--number|1|--size|8|--cells|65| => None";

#[test]
fn refuses(rt: HostRuntime) {
    for words in [COMMANDS, OPTIONS, TIMES, VALUES, MADE] {
        all_hold(&rt, Kind::Words, words);
    }
}
