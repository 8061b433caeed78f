//! Lines that are known: of number 1 the first draw is 908,834,774.
use super::cases::{Kind, all_hold};
use load_gen::generate;
use std::alloc::Global;
use std::test::Fail;

/// That line, from 0, of the script of number 1 and that size.
pub fn line_of(alloc: Global, told: &str) -> Option<String> {
    let (size, line) = told.trim().split_once(' ')?;
    let size = size.parse::<u32>().ok()?;
    if size < 1 || 20000 < size {
        return None;
    }
    let script = generate(alloc, 1, size).ok()?;
    let line = script.as_str().lines().nth(line.parse::<usize>().ok()?)?;
    line.to_string(alloc).ok()
}

const LINES: &str = "$ 1 0 => gcscript 1
$ 1 1 => warehouse
$ 1 2 => nil a
$ 1 3 => warehouse
$ 9 9 => nil h
$ 9 10 => set c 3 h
$ 20000 10 => set c 3 h
$ 72 66 => nil a
$ 72 74 => warehouse";

const EIGHT: &str = "warehouse\nnil a\nnil b\nnil c\nnil d\nnil e\nnil f\nnil g\nnil h\n";

#[test]
fn known_lines(rt: HostRuntime) {
    all_hold(&rt, Kind::Generated, LINES);
}

#[test]
fn eight_lines(rt: HostRuntime) -> Result<(), Fail> {
    let text = generate(rt.alloc(), 1, 8)?;
    let expected = format!(in rt.alloc(); "gcscript 1\n{EIGHT}{EIGHT}{EIGHT}{EIGHT}")?;
    assert!(rt; text.as_str() == expected.as_str());
    Ok(())
}

#[test]
fn forty_lines(rt: HostRuntime) -> Result<(), Fail> {
    let text = generate(rt.alloc(), 1, 9)?;
    // the header, and four times a line `warehouse` and nine lines
    assert!(rt; text.as_str().lines().count() == 41);
    Ok(())
}
