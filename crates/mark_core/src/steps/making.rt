//! The steps by which a seat claims a block, fills free cells of it, and publishes them.
ghost use Rattle.std.specs.Prelude.{◌≡◌, ◌<◌, ◌+◌, ◌*◌, nat_le, if◌then◌else◌};
ghost use Rattle.mark_core.specs.Steps.MutatorSteps.{claim_block_parts, claim_block_effect, cached_block as cached_block_of, release_block_parts, with_free as with_free_of, read_free_parts, read_free_effect, is_next_part as is_next_part_of, fits_part as fits_part_of, with_making as with_making_of, with_made as with_made_of, store_new_parts, used_bits as used_bits_of, without_used as without_used_of, publish_cells_parts, publish_cells_effect};
ghost use Rattle.mark_core.specs.Steps.{first_false as first_false_of};
ghost use Rattle.mark_core.specs.Numbers.{section_span};

use crate::cards::BLOCK_CELLS;
use crate::cell::Cell;
use crate::failing_part::first_false;
use crate::kinds::{Phase, Shape};
use crate::layout::block_count;
use crate::numbers::{SECTION_SPAN, VALUE_BOUND};
use crate::seat::{CacheState, SeatState};
use crate::standing::is_phase;
use crate::{bits, hand};

/// A sweep stores the allocation word whole, so cells that are made meanwhile would be lost.
pub fn check_claim_block(shape: &Shape, phase: u64, s: &SeatState, b: u32) -> Option<u8>
    ensures { result ≡ first_false_of 1 (claim_block_parts shape.now phase s.now b) }
{
    first_false(&[
        b < block_count(shape) && s.cache.is_none(),
        (s.active || s.knows) && s.section.is_some(),
        !s.knows || is_phase(phase, Phase::Idle),
    ])
}

pub fn claim_block(s: &mut SeatState, b: u32, old: u64) -> u64
    ensures word { result ≡ (claim_block_effect s.old b).written old }
    ensures seat { s.new ≡ (claim_block_effect s.old b).seat old }
{
    if old == 0 {
        s.cache = Some(CacheState {
            block: b,
            unread: true,
            free: 0,
            used: 0,
            making: None,
            last: None,
        });
        u64::from(s.number) + 1
    } else {
        old
    }
}

pub fn cached_block(s: &SeatState) -> u32
    ensures { result ≡ cached_block_of s.now }
{
    match s.cache {
        None => 0,
        Some(x) => x.block,
    }
}

/// Otherwise a cell that is made and not published would be in use and nobody's.
pub fn check_release_block(s: &SeatState) -> Option<u8>
    ensures { result ≡ first_false_of 1 (release_block_parts s.now) }
{
    first_false(&[
        s.cache.is_some(),
        !hand::has_used(s.cache) && !s.has_making(),
    ])
}

pub fn release_block(s: &mut SeatState) -> u64
    ensures word { result ≡ 0 }
    ensures seat { s.new ≡ record s.old { cache = None } }
{
    s.cache = None;
    0
}

fn with_free(cache: &mut Option<CacheState>, word: u64)
    ensures { cache.new ≡ with_free_of cache.old word }
{
    if let Some(x) = cache {
        x.unread = false;
        x.free = !word;
    }
}

pub fn check_read_free(s: &SeatState) -> Option<u8>
    ensures { result ≡ first_false_of 1 (read_free_parts s.now) }
{
    first_false(&[hand::is_unread(s.cache)])
}

pub fn read_free(s: &mut SeatState, old: u64) -> u64
    ensures word { result ≡ (read_free_effect s.old).written old }
    ensures seat { s.new ≡ (read_free_effect s.old).seat old }
{
    with_free(&mut s.cache, old);
    old
}

fn is_next_part(s: &SeatState, c: Cell, part: u8) -> bool
    ensures { result ≡ is_next_part_of s.now c part }
{
    if part == 0 {
        hand::free_in(s.cache, c) && !s.has_making()
    } else {
        hand::makes(s.cache, c, part)
    }
}

fn identity_of(section: u32, number: u32) -> u64
    ensures { result ≡ section * section_span + number }
{
    u64::from(section) * SECTION_SPAN + u64::from(number)
}

fn fits_part(shape: &Shape, s: &SeatState, part: u8, word: u64) -> bool
    ensures { result ≡ fits_part_of shape.now s.now part word }
{
    if u32::from(part) < shape.fields {
        word == 0
    } else if u32::from(part) == shape.fields {
        word < VALUE_BOUND
    } else {
        s.section.is_some()
            && s.made < shape.objects
            && word == identity_of(s.section.unwrap_or(0), s.made)
    }
}

#[inline(always)]
fn with_making(cache: &mut Option<CacheState>, c: Cell, part: u8)
    ensures { cache.new ≡ with_making_of cache.old c part }
{
    if let Some(x) = cache {
        x.making = Some((c, part));
    }
}

#[inline(always)]
fn with_made(cache: &mut Option<CacheState>, c: Cell)
    ensures { cache.new ≡ with_made_of cache.old c }
{
    if let Some(x) = cache {
        x.free = bits::without_bit(x.free, c.number() % BLOCK_CELLS);
        x.used = bits::with_bit(x.used, c.number() % BLOCK_CELLS);
        x.making = None;
        x.last = Some(c);
    }
}

/// Parts stored out of order would leave an old reference in a cell.
pub fn check_store_new(shape: &Shape, s: &SeatState, c: Cell, part: u8, word: u64) -> Option<u8>
    requires { shape.now.fields < 256 }
    ensures { result ≡ first_false_of 1 (store_new_parts shape.now s.now c part word) }
{
    first_false(&[
        c.number() < shape.cells && u32::from(part) <= shape.fields + 1 && s.may_mutate(),
        is_next_part(s, c, part),
        fits_part(shape, s, part, word),
    ])
}

#[inline(always)]
pub fn store_new(shape: &Shape, s: &mut SeatState, c: Cell, part: u8, word: u64) -> u64
    requires part_counts { part < 255 }
    requires made_counts { shape.now.fields < part → s.old.made < 4294967295 }
    ensures word { result ≡ word }
    ensures seat { s.new ≡ record s.old { cache = if nat_le part shape.now.fields then with_making_of s.old.cache c (part + 1) else with_made_of s.old.cache c; made = if nat_le part shape.now.fields then s.old.made else s.old.made + 1 } }
{
    if u32::from(part) <= shape.fields {
        with_making(&mut s.cache, c, part + 1);
    } else {
        with_made(&mut s.cache, c);
        s.made += 1;
    }
    word
}

/// The bits of the used cells.
pub fn used_bits(cache: Option<CacheState>) -> u64
    ensures { result ≡ used_bits_of cache }
{
    match cache {
        None => 0,
        Some(x) => x.used,
    }
}

fn without_used(cache: &mut Option<CacheState>)
    ensures { cache.new ≡ without_used_of cache.old }
{
    if let Some(x) = cache {
        x.used = 0;
        x.last = None;
    }
}

/// A published cell may be scanned at once, so none may be half made.
pub fn check_publish_cells(s: &SeatState) -> Option<u8>
    ensures { result ≡ first_false_of 1 (publish_cells_parts s.now) }
{
    first_false(&[s.cache.is_some(), s.owes.is_none() && !s.has_making()])
}

pub fn publish_cells(s: &mut SeatState, old: u64) -> u64
    ensures word { result ≡ (publish_cells_effect s.old).written old }
    ensures seat { s.new ≡ (publish_cells_effect s.old).seat old }
{
    let used = used_bits(s.cache);
    without_used(&mut s.cache);
    old | used
}
