//! The numbers of a seat's rows.
//!
//! False and true are 0 and 1, and in place of a number that may be missing stands 0, or the number and 1. A word of 64
//! bits that may be missing is two numbers: whether it is there, and what it is.
ghost use Rattle.std.specs.Prelude.{◌≡◌};
ghost use Rattle.schedule_states.specs.Seats.{flag_number, number_or_none, phase_or_none, standing_numbers, packet_numbers, first_or_none, clear_number, next_number, hand_numbers, cleaning_numbers, cache_numbers, block_numbers, counter_numbers};

use mark_core::{BlockState, CacheState, Cell, Cleaning, Phase, SeatState, phase_number};

fn flag(b: bool) -> u64
    ensures { result ≡ flag_number b }
{
    if b { 1 } else { 0 }
}

fn number(n: Option<u32>) -> u64
    ensures { result ≡ number_or_none n }
{
    match n {
        None => 0,
        Some(n) => u64::from(n) + 1,
    }
}

fn cell(c: Option<Cell>) -> u64
    ensures { result ≡ number_or_none c }
{
    match c {
        None => 0,
        Some(c) => u64::from(c.number()) + 1,
    }
}

fn phase(seen: Option<Phase>) -> u64
    ensures { result ≡ phase_or_none seen }
{
    match seen {
        None => 0,
        Some(phase) => phase_number(phase) + 1,
    }
}

pub fn standing(s: &SeatState) -> [u64; 16]
    ensures { result ≡ standing_numbers s.now }
{
    [
        u64::from(s.number),
        number(s.section),
        flag(s.counted),
        flag(s.active),
        flag(s.raised),
        flag(s.knows),
        flag(s.helping),
        flag(s.admitted),
        flag(s.opened),
        flag(s.alone),
        flag(s.exact),
        phase(s.phase_seen),
        flag(s.season_seen.is_some()),
        s.season_seen.unwrap_or(0),
        u64::from(s.made),
        flag(s.spent),
    ]
}

pub fn packet(slot: Option<(u32, Option<u32>, bool)>) -> [u64; 3]
    ensures { result ≡ packet_numbers slot }
{
    match slot {
        None => [0, 0, 0],
        Some((p, length, stored)) => [u64::from(p) + 1, number(length), flag(stored)],
    }
}

/// The cell of a pair.
fn first<A: Copy>(pair: Option<(Cell, A)>) -> u64
    ensures { result ≡ first_or_none pair }
{
    match pair {
        None => 0,
        Some((c, _)) => u64::from(c.number()) + 1,
    }
}

/// Whether the popped cell was seen unpublished.
fn clear(popped: Option<(Cell, bool)>) -> u64
    ensures { result ≡ clear_number popped }
{
    match popped {
        None => 0,
        Some((_, clear)) => flag(clear),
    }
}

/// The field of a scan, or the part of a cell being made, that is next.
fn next(pair: Option<(Cell, u8)>) -> u64
    ensures { result ≡ next_number pair }
{
    match pair {
        None => 0,
        Some((_, next)) => u64::from(next),
    }
}

pub fn hand(s: &SeatState) -> [u64; 10]
    ensures { result ≡ hand_numbers s.now }
{
    [
        flag(s.reserved),
        flag(s.credit),
        first(s.popped),
        clear(s.popped),
        first(s.scan),
        next(s.scan),
        cell(s.value),
        cell(s.fresh),
        number(s.owes),
        u64::from(s.got),
    ]
}

pub fn cleaning(held: Option<Cleaning>) -> [u64; 5]
    ensures { result ≡ cleaning_numbers held }
{
    match held {
        None => [0; 5],
        Some(x) => [
            u64::from(x.card) + 1,
            flag(x.known),
            x.left,
            x.published,
            flag(x.redirty),
        ],
    }
}

pub fn cache(held: Option<CacheState>) -> [u64; 7]
    ensures { result ≡ cache_numbers held }
{
    match held {
        None => [0; 7],
        Some(x) => [
            u64::from(x.block) + 1,
            flag(x.unread),
            x.free,
            x.used,
            first(x.making),
            next(x.making),
            cell(x.last),
        ],
    }
}

pub fn block(held: Option<BlockState>) -> [u64; 7]
    ensures { result ≡ block_numbers held }
{
    match held {
        None => [0; 7],
        Some(x) => [
            u64::from(x.block) + 1,
            u64::from(x.until),
            flag(x.alloc_word.is_some()),
            x.alloc_word.unwrap_or(0),
            flag(x.mark_word.is_some()),
            x.mark_word.unwrap_or(0),
            flag(x.stored),
        ],
    }
}

pub fn counters(s: &SeatState) -> [u64; 2]
    ensures { result ≡ counter_numbers s.now }
{
    [flag(s.below_card), flag(s.below_block)]
}
