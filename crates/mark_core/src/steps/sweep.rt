//! The steps of the sweep and of the counters.
ghost use Rattle.std.specs.Prelude.{◌≡◌, ◌<◌, ◌+◌, if◌then◌else◌, true};
ghost use Rattle.mark_core.specs.Bits.{wrapped_sum, wrapped_difference};
ghost use Rattle.mark_core.specs.Steps.SweepSteps.{next_block_parts, next_block_effect, untouched as untouched_of, next_in_stretch as next_in_stretch_of, next_of_cards_parts, next_of_cards_effect, own_block as own_block_of, with_mark_word as with_mark_word_of, read_block_marks_parts, read_block_marks_effect, survivors as survivors_of, with_stored as with_stored_of, store_alloc_parts, clear_marks_parts, wipe_card_parts, store_position_parts, store_named_parts, reset_parts, add_stat_parts, read_stat_parts, read_stat_effect};
ghost use Rattle.mark_core.specs.Steps.{first_false as first_false_of};
ghost use Rattle.mark_core.specs.Numbers.{first_position};

use crate::failing_part::first_false;
use crate::hand;
use crate::kinds::{Phase, Shape};
use crate::layout::{block_count, card_count, stretch_end};
use crate::numbers::{BLOCK_COUNTER, CARD_COUNTER, DONE, FIRST_POSITION, FREE, LAST};
use crate::seat::{BlockState, SeatState};
use crate::standing::{is_phase, may_clear, may_sweep, may_trace};

/// Otherwise a block in hand would be left unswept, or a counter raised unread would run away.
pub fn check_next_block(phase: u64, s: &SeatState) -> Option<u8>
    ensures { result ≡ first_false_of 1 (next_block_parts phase s.now) }
{
    first_false(&[
        may_sweep(phase, s) || may_clear(phase, s),
        s.block.is_none(),
        s.below_block,
    ])
}

pub fn next_block(shape: &Shape, s: &mut SeatState, old: u64) -> u64
    ensures word { result ≡ (next_block_effect shape.now s.old).written old }
    ensures seat { s.new ≡ (next_block_effect shape.now s.old).seat old }
{
    s.below_block = false;
    if old < u64::from(block_count(shape)) {
        let first = old as u32;
        s.block = Some(untouched(first, stretch_end(shape, first)));
    }
    old.wrapping_add(u64::from(shape.stretch))
}

fn untouched(block: u32, until: u32) -> BlockState
    ensures { result ≡ untouched_of block until }
{
    BlockState {
        block,
        until,
        alloc_word: None,
        mark_word: None,
        stored: false,
    }
}

/// Otherwise a counter raised unread would run away.
pub fn check_next_of_cards(phase: u64, s: &SeatState) -> Option<u8>
    ensures { result ≡ first_false_of 1 (next_of_cards_parts phase s.now) }
{
    first_false(&[may_trace(phase, s), s.below_card])
}

pub fn next_of_cards(s: &mut SeatState, old: u64) -> u64
    ensures word { result ≡ (next_of_cards_effect s.old).written old }
    ensures seat { s.new ≡ (next_of_cards_effect s.old).seat old }
{
    s.below_card = false;
    old.wrapping_add(1)
}

pub fn own_block(s: &SeatState) -> u32
    ensures { result ≡ own_block_of s.now }
{
    match s.block {
        None => 0,
        Some(x) => x.block,
    }
}

fn with_mark_word(block: &mut Option<BlockState>, word: u64)
    ensures { block.new ≡ with_mark_word_of block.old word }
{
    if let Some(x) = block {
        x.mark_word = Some(word);
    }
}

/// Outside Sweep the marks don't say what stays.
pub fn check_read_block_marks(phase: u64, s: &SeatState) -> Option<u8>
    ensures { result ≡ first_false_of 1 (read_block_marks_parts phase s.now) }
{
    first_false(&[s.block.is_some() && is_phase(phase, Phase::Sweep)])
}

pub fn read_block_marks(s: &mut SeatState, old: u64) -> u64
    ensures word { result ≡ (read_block_marks_effect s.old).written old }
    ensures seat { s.new ≡ (read_block_marks_effect s.old).seat old }
{
    with_mark_word(&mut s.block, old);
    old
}

fn survivors(block: Option<BlockState>) -> u64
    ensures { result ≡ survivors_of block }
{
    match block {
        None => 0,
        Some(x) => x.alloc_word.unwrap_or(0) & x.mark_word.unwrap_or(0),
    }
}

fn with_stored(block: &mut Option<BlockState>)
    ensures { block.new ≡ with_stored_of block.old }
{
    if let Some(x) = block {
        x.stored = true;
    }
}

/// If a word of the block wasn't read, marked cells would be freed.
pub fn check_store_alloc(phase: u64, s: &SeatState) -> Option<u8>
    ensures { result ≡ first_false_of 1 (store_alloc_parts phase s.now) }
{
    first_false(&[may_sweep(phase, s), hand::may_store(s.block)])
}

pub fn store_alloc(s: &mut SeatState) -> u64
    ensures word { result ≡ survivors_of s.old.block }
    ensures seat { s.new ≡ record s.old { block = with_stored_of s.old.block } }
{
    let word = survivors(s.block);
    with_stored(&mut s.block);
    word
}

/// Until the block is swept its marks say what stays.
pub fn check_clear_marks(phase: u64, s: &SeatState) -> Option<u8>
    ensures { result ≡ first_false_of 1 (clear_marks_parts phase s.now) }
{
    let swept = !is_phase(phase, Phase::Sweep) || hand::is_swept(s.block);
    first_false(&[s.block.is_some(), s.block.is_some() && swept])
}

fn next_in_stretch(block: Option<BlockState>) -> Option<BlockState>
    ensures { result ≡ next_in_stretch_of block }
{
    match block {
        None => None,
        Some(x) => {
            if x.until <= x.block {
                return None;
            }
            let next = x.block + 1;
            if next < x.until {
                Some(untouched(next, x.until))
            } else {
                None
            }
        }
    }
}

pub fn clear_marks(s: &mut SeatState) -> u64
    ensures word { result ≡ 0 }
    ensures seat { s.new ≡ record s.old { block = next_in_stretch_of s.old.block } }
{
    s.block = next_in_stretch(s.block);
    0
}

/// In Marking and Drain a dirty card stands for cells that wait to be scanned.
pub fn check_wipe_card(shape: &Shape, phase: u64, s: &SeatState, card: u32) -> Option<u8>
    ensures { result ≡ first_false_of 1 (wipe_card_parts shape.now phase s.now card) }
{
    first_false(&[card < card_count(shape) && (may_sweep(phase, s) || may_clear(phase, s))])
}

pub fn check_store_position(s: &SeatState) -> Option<u8>
    ensures { result ≡ first_false_of 1 (store_position_parts s.now) }
{
    first_false(&[s.section.is_some(), s.active || s.knows])
}

pub fn check_store_named(phase: u64, s: &SeatState) -> Option<u8>
    ensures { result ≡ first_false_of 1 (store_named_parts phase s.now) }
{
    first_false(&[s.knows && s.section.is_some() && is_phase(phase, Phase::Idle)])
}

/// Otherwise a counter would fall under a seat that draws from it.
pub fn check_reset(phase: u64, s: &SeatState, which: u8) -> Option<u8>
    ensures { result ≡ first_false_of 1 (reset_parts phase s.now which) }
{
    let in_time = is_phase(phase, Phase::Idle) || is_phase(phase, Phase::Drain);
    first_false(&[which <= FREE && s.alone && in_time])
}

/// Otherwise a statistic would change under the seat that has stopped the world.
pub fn check_add_stat(s: &SeatState, which: u8, by: u32, down: bool) -> Option<u8>
    ensures { result ≡ first_false_of 1 (add_stat_parts s.now which by down) }
{
    first_false(&[
        LAST <= which && which <= DONE && s.takes_part(),
        !(which == DONE) || !down && by == 1 && s.section.is_some(),
    ])
}

pub fn add_stat(by: u32, down: bool, old: u64) -> u64
    ensures { result ≡ (if down then wrapped_difference old by else wrapped_sum old by) }
{
    if down {
        old.wrapping_sub(u64::from(by))
    } else {
        old.wrapping_add(u64::from(by))
    }
}

pub fn check_read_stat(shape: &Shape, which: u8) -> Option<u8>
    requires { first_position + shape.now.sections < 4294967296 }
    ensures { result ≡ first_false_of 1 (read_stat_parts shape.now which) }
{
    first_false(&[u32::from(which) < u32::from(FIRST_POSITION) + shape.sections])
}

pub fn read_stat(shape: &Shape, s: &mut SeatState, which: u8, old: u64) -> u64
    ensures word { result ≡ (read_stat_effect shape.now s.old which).written old }
    ensures seat { s.new ≡ (read_stat_effect shape.now s.old which).seat old }
{
    if which == CARD_COUNTER {
        s.below_card = old < u64::from(card_count(shape));
    } else if which == BLOCK_COUNTER {
        s.below_block = old < u64::from(block_count(shape));
    }
    old
}
