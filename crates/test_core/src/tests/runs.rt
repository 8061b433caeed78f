//! All events are allowed but the one before ` => `, which is refused by that part of that rule and changes nothing.
//! `words` and `seat` tell the values of words, and what stands in a seat's record: a number, 1 for yes, or `-` for
//! nothing.
use super::events::applied;
use super::heaps::{index_of, shape_of};
use mark_core::{Cell, CoreState, Phase, SEATS, SeatState};
use std::alloc::Global;
use std::process::Abort;

fn start(alloc: Global, heap: &str) -> Option<CoreState> {
    let (name, seats) = heap.split_once(' ')?;
    let shape = shape_of(name)?;
    let seats = seats.parse::<u32>().ok()?;
    if seats == 0 || SEATS < seats {
        return None;
    }
    CoreState::start(alloc, shape, seats).ok()
}

fn allows(core: &mut CoreState, events: &str) -> bool {
    for told in events.split(", ") {
        if applied(core, told) != Some(Ok(())) {
            return false;
        }
    }
    true
}

fn refuses(core: &mut CoreState, told: &str, broken: &str) -> Option<bool> {
    let (kind, part) = broken.split_once(' ')?;
    let kind = kind.parse::<u8>().ok()?;
    let part = part.parse::<u8>().ok()?;
    match applied(core, told)? {
        Ok(()) => Some(false),
        Err(rule) => Some(rule.kind == kind && rule.part == part),
    }
}

fn has_word(core: &CoreState, told: &str) -> Option<bool> {
    let (name, value) = told.split_once(' ')?;
    let value = value.parse::<u64>().ok()?;
    Some(core.word(index_of(name)?)? == value)
}

fn has_words(core: &CoreState, words: &str) -> bool {
    for told in words.split(", ") {
        if has_word(core, told) != Some(true) {
            return false;
        }
    }
    true
}

fn number_of(cell: Option<Cell>) -> Option<u32> {
    match cell {
        None => None,
        Some(cell) => Some(cell.number()),
    }
}

/// What the seat has in hand under this name.
fn in_hand(s: &SeatState, what: &str) -> Option<Option<u32>> {
    match (what, s.popped, s.scan, s.block) {
        ("popped", Some((cell, _)), _, _) => Some(Some(cell.number())),
        ("unpublished", Some((_, is_so)), _, _) => Some(Some(u32::from(is_so))),
        ("scan", _, Some((cell, _)), _) => Some(Some(cell.number())),
        ("field", _, Some((_, i)), _) => Some(Some(u32::from(i))),
        ("block", _, _, Some(x)) => Some(Some(x.block)),
        ("until", _, _, Some(x)) => Some(Some(x.until)),
        ("popped", None, _, _) | ("scan", _, None, _) | ("block", _, _, None) => Some(None),
        _ => None,
    }
}

fn in_record(s: &SeatState, what: &str) -> Option<Option<u32>> {
    match what {
        "number" => Some(Some(s.number)),
        "active" => Some(Some(u32::from(s.active))),
        "knows" => Some(Some(u32::from(s.knows))),
        "exact" => Some(Some(u32::from(s.exact))),
        "saw_full" => Some(Some(u32::from(s.phase_seen == Some(Phase::Full)))),
        "got" => Some(Some(s.got)),
        "lags" => Some(u32::try_from(s.lags).ok()),
        "owes" => Some(s.owes),
        "value" => Some(number_of(s.value)),
        "fresh" => Some(number_of(s.fresh)),
        _ => in_hand(s, what),
    }
}

/// Whether the seat's record says this. `-` also stands for no such seat.
fn has_record(core: &CoreState, told: &str) -> Option<bool> {
    let (seat, rest) = told.split_once(' ')?;
    let (what, wanted) = rest.split_once(' ')?;
    let found = match core.seat(seat.parse::<u32>().ok()?) {
        None => None,
        Some(s) => in_record(s, what)?,
    };
    match found {
        None => Some(wanted == "-"),
        Some(number) => Some(wanted.parse::<u32>().ok()? == number),
    }
}

/// Whether the line holds. None if it has no such form.
fn holds(core: &mut CoreState, line: &str) -> Option<bool> {
    if line.is_empty() || line.starts_with('#') {
        return Some(true);
    }
    if let Some(words) = line.strip_prefix("words ") {
        return Some(has_words(core, words));
    }
    if let Some(told) = line.strip_prefix("seat ") {
        return has_record(core, told);
    }
    match line.split_once(" => ") {
        None => Some(allows(core, line)),
        Some((event, broken)) => refuses(core, event, broken),
    }
}

fn first_wrong<'a>(alloc: Global, run: &'a str) -> Option<&'a str> {
    let Some((head, lines)) = run.split_once("\nheap ") else {
        return Some(run);
    };
    let Some((heap, lines)) = lines.split_once('\n') else {
        return Some(head);
    };
    let Some(mut core) = start(alloc, heap) else {
        return Some(head);
    };
    for line in lines.lines() {
        if holds(&mut core, line) != Some(true) {
            return Some(line);
        }
    }
    None
}

/// Fails if a line of one of the runs doesn't hold.
pub fn all_hold<R: Abort + AllocGlobal>(rt: &R, runs: &str) {
    for run in runs.split("$ ").skip(1) {
        let wrong = first_wrong(rt.alloc(), run).unwrap_or("");
        assert!(rt; wrong.is_empty(), "{wrong}");
    }
}
