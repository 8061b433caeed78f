//! The moves between the phases, and what each asks.
ghost use Rattle.std.specs.Prelude.{◌≡◌, ◌==◌, length};
ghost use Rattle.std.specs.List.{list_all};
ghost use Rattle.mark_core.specs.Bits.{cell_bit as cell_bit_of, nil_or};
ghost use Rattle.mark_core.specs.Layout.{region_sizes, total_words as total_words_of, words_of};
ghost use Rattle.mark_core.specs.Shapes.{IsShape};
ghost use Rattle.mark_core.specs.Steps.WorldSteps.{is_quiet as is_quiet_of, cards_clean as cards_clean_of, roots_marked as roots_marked_of, none_marked as none_marked_of, all_allocated as all_allocated_of, blocks_done as blocks_done_of, is_move as is_move_of, may_move as may_move_of, store_phase_parts, phase_after as phase_after_of, begins_exact as begins_exact_of, store_phase_effect};
ghost use Rattle.mark_core.specs.Steps.{first_false as first_false_of};

use crate::cards::BLOCK_CELLS;
use crate::failing_part::first_false;
use crate::kinds::{Phase, Shape};
use crate::numbers::EMPTY_OFFSET;
use crate::seat::SeatState;
use crate::standing::is_phase;
use crate::words::read;
use crate::{bits, hand, layout};

pub fn all_are(words: &[u64], word: u64) -> bool
    ensures { result ≡ list_all (λ x. x == word) words.now }
{
    words.iter().all(|x| *x == word)
}

/// Nil counts as marked.
fn is_marked(marks: &[u64], reference: u64) -> bool
    ensures { result ≡ nil_or (cell_bit_of marks.now) reference }
{
    if reference == 0 {
        return true;
    }
    let c = reference - 1;
    let block = u64::from(BLOCK_CELLS);
    bits::has_bit(read(marks, (c / block) as usize), (c % block) as u32)
}

pub fn roots_marked(roots: &[u64], marks: &[u64]) -> bool
    ensures { result ≡ roots_marked_of roots.now marks.now }
{
    roots.iter().all(|x| is_marked(marks, *x))
}

/// All packets are in the empty pool, and the seat has no work in hand.
pub fn is_quiet(shape: &Shape, words: &[u64], s: &SeatState) -> bool
    ensures { result ≡ is_quiet_of shape.now (words_of shape.now words.now) s.now }
{
    read(words, layout::EMPTY) == EMPTY_OFFSET + u64::from(shape.packets)
        && !s.work_in_hand(shape.fields)
}

/// Every block was handed out, none is in hand, and no mark is left.
fn blocks_done(shape: &Shape, words: &[u64], s: &SeatState) -> bool
    requires shaped { IsShape shape.now }
    requires whole { length words.now ≡ total_words_of (region_sizes shape.now) }
    ensures { result ≡ blocks_done_of shape.now (words_of shape.now words.now) s.now }
{
    u64::from(layout::block_count(shape)) <= read(words, layout::NEXT_BLOCK)
        && s.block.is_none()
        && all_are(layout::marks_of(shape, words), 0)
}

/// The move to Marking is a try.
fn is_move(from: u64, to: Phase) -> bool
    ensures { result ≡ is_move_of from to }
{
    match to {
        Phase::Idle => is_phase(from, Phase::Sweep),
        Phase::Marking => true,
        Phase::Drain => is_phase(from, Phase::Idle)
            || is_phase(from, Phase::Marking)
            || is_phase(from, Phase::Clear),
        Phase::Sweep => is_phase(from, Phase::Drain),
        Phase::Clear => is_phase(from, Phase::Drain),
        Phase::Full => is_phase(from, Phase::Idle),
    }
}

fn may_sweep_now(shape: &Shape, words: &[u64], s: &SeatState) -> bool
    requires shaped { IsShape shape.now }
    requires whole { length words.now ≡ total_words_of (region_sizes shape.now) }
    ensures { result ≡ may_move_of shape.now (words_of shape.now words.now) s.now Phase.Sweep }
{
    s.knows
        && is_quiet(shape, words, s)
        && all_are(layout::cards_of(shape, words), 0)
        && roots_marked(
            layout::roots_of(shape, words),
            layout::marks_of(shape, words),
        )
        && read(words, layout::NEXT_BLOCK) == 0
}

fn may_move(shape: &Shape, words: &[u64], s: &SeatState, to: Phase) -> bool
    requires shaped { IsShape shape.now }
    requires whole { length words.now ≡ total_words_of (region_sizes shape.now) }
    ensures { result ≡ may_move_of shape.now (words_of shape.now words.now) s.now to }
{
    match to {
        Phase::Idle => s.knows && blocks_done(shape, words, s),
        Phase::Marking => s.active,
        Phase::Drain => s.knows
            && (!is_phase(read(words, layout::PHASE), Phase::Clear)
                || blocks_done(shape, words, s)),
        Phase::Sweep => may_sweep_now(shape, words, s),
        Phase::Clear => s.knows
            && is_quiet(shape, words, s)
            && read(words, layout::NEXT_BLOCK) == 0,
        Phase::Full => s.knows && all_are(layout::allocs_of(shape, words), u64::MAX) && s.exact,
    }
}

/// A sweep before all was marked would free reachable cells, and helpers act by the phase that they read.
pub fn check_store_phase(shape: &Shape, words: &[u64], s: &SeatState, to: Phase) -> Option<u8>
    requires shaped { IsShape shape.now }
    requires whole { length words.now ≡ total_words_of (region_sizes shape.now) }
    ensures { result ≡ first_false_of 1 (store_phase_parts shape.now (words_of shape.now words.now) s.now to) }
{
    first_false(&[
        is_move(read(words, layout::PHASE), to),
        may_move(shape, words, s, to),
        !s.knows || s.alone,
    ])
}

/// A move to Marking leaves any phase but Idle.
fn phase_after(old: u64, to: Phase) -> u64
    ensures { result ≡ phase_after_of old to }
{
    match to {
        Phase::Idle => 0,
        Phase::Marking => if is_phase(old, Phase::Idle) { 1 } else { old },
        Phase::Drain => 2,
        Phase::Sweep => 3,
        Phase::Clear => 4,
        Phase::Full => 5,
    }
}

fn begins_exact(old: u64, to: Phase) -> bool
    ensures { result ≡ begins_exact_of old to }
{
    match to {
        Phase::Drain => is_phase(old, Phase::Idle) || is_phase(old, Phase::Clear),
        _ => false,
    }
}

pub fn store_phase(s: &mut SeatState, to: Phase, old: u64) -> u64
    ensures word { result ≡ (store_phase_effect s.old to).written old }
    ensures seat { s.new ≡ (store_phase_effect s.old to).seat old }
{
    s.exact = s.exact || begins_exact(old, to);
    phase_after(old, to)
}
