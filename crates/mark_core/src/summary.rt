//! Whether marking is done, and how many cells are marked and in use.
ghost use Rattle.std.specs.Prelude.{◌≡◌, ◌&&◌, length, []};
ghost use Rattle.std.specs.List.{list_any};
ghost use Rattle.mark_core.specs.Shapes.{IsShape};
ghost use Rattle.mark_core.specs.Layout.{region_sizes, total_words as total_words_of, words_of};
ghost use Rattle.mark_core.specs.Bits.{cell_bit as cell_bit_of};
ghost use Rattle.mark_core.specs.Cells.{in_use};
ghost use Rattle.mark_core.specs.Seats.{used_in};
ghost use Rattle.mark_core.specs.Views.{makers};
ghost use Rattle.mark_core.specs.Steps.WorldSteps.{cards_clean, roots_marked as roots_marked_of};
ghost use Rattle.mark_core.specs.Closed.{sees_quiet as sees_quiet_of, is_closed as is_closed_of};
ghost use Rattle.mark_core.specs.Summary.{marked_cells as marked_cells_of, used_cells as used_cells_of};

use crate::cards::BLOCK_CELLS;
use crate::cell::Cell;
use crate::kinds::{Phase, Shape};
use crate::seat::SeatState;
use crate::standing::is_phase;
use crate::state::CoreState;
use crate::steps::phase;
use crate::words::read;
use crate::{bits, hand, layout};

fn cell_bit(words: &[u64], c: u32) -> bool
    ensures { result ≡ cell_bit_of words.now c }
{
    bits::has_bit(read(words, (c / BLOCK_CELLS) as usize), c % BLOCK_CELLS)
}

fn is_made(seats: &[SeatState], c: u32) -> bool
    ensures { result ≡ list_any (λ s. used_in s.cache c) seats.now }
{
    seats.iter().any(|s| hand::used_in(s.cache, Cell::make(c)))
}

#[tactic(auto, using(crate::proofs::Consequences::SomePasses::any_rules))]
fn is_in_use(allocs: &[u64], seats: &[SeatState], c: u32) -> bool
    ensures { result ≡ in_use allocs.now (makers seats.now) c }
{
    cell_bit(allocs, c) || is_made(seats, c)
}

fn sees_quiet(shape: &Shape, words: &[u64], s: &SeatState) -> bool
    ensures { result ≡ sees_quiet_of shape.now (words_of shape.now words.now) s.now }
{
    s.knows && phase::is_quiet(shape, words, s)
}

fn some_sees_quiet(shape: &Shape, words: &[u64], seats: &[SeatState]) -> bool
    ensures { result ≡ list_any (sees_quiet_of shape.now (words_of shape.now words.now)) seats.now }
{
    seats.iter().any(|s| sees_quiet(shape, words, s))
}

fn is_marked_from_roots(shape: &Shape, words: &[u64]) -> bool
    requires shaped { IsShape shape.now }
    requires whole { length words.now ≡ total_words_of (region_sizes shape.now) }
    ensures { result ≡ (cards_clean (words_of shape.now words.now).cards && roots_marked_of (words_of shape.now words.now).roots (words_of shape.now words.now).marks) }
{
    let marks = layout::marks_of(shape, words);
    phase::all_are(layout::cards_of(shape, words), 0)
        && phase::roots_marked(layout::roots_of(shape, words), marks)
}

fn is_closed(shape: &Shape, words: &[u64], seats: &[SeatState]) -> bool
    requires shaped { IsShape shape.now }
    requires whole { length words.now ≡ total_words_of (region_sizes shape.now) }
    ensures { result ≡ is_closed_of (record { shape = shape.now; words = words.now; seats = seats.now }) }
{
    some_sees_quiet(shape, words, seats)
        && is_phase(read(words, layout::PHASE), Phase::Drain)
        && is_marked_from_roots(shape, words)
}

fn marked_cells(shape: &Shape, words: &[u64]) -> u32
    requires shaped { IsShape shape.now }
    requires whole { length words.now ≡ total_words_of (region_sizes shape.now) }
    ensures { result ≡ marked_cells_of (record { shape = shape.now; words = words.now; seats = [] }) }
{
    let marks = layout::marks_of(shape, words);
    (0..shape.cells).filter(|c| cell_bit(marks, *c)).count() as u32
}

fn used_cells(shape: &Shape, words: &[u64], seats: &[SeatState]) -> u32
    requires shaped { IsShape shape.now }
    requires whole { length words.now ≡ total_words_of (region_sizes shape.now) }
    ensures { result ≡ used_cells_of (record { shape = shape.now; words = words.now; seats = seats.now }) }
{
    let allocs = layout::allocs_of(shape, words);
    (0..shape.cells)
        .filter(|c| is_in_use(allocs, seats, *c))
        .count() as u32
}

impl CoreState {
    /// Whether marking is done, as a seat that has stopped the world in Drain may tell: every packet is in the empty
    /// pool, the seat has no work in hand, no card is dirty, and no root names a white cell.
    pub fn is_closed(&self) -> bool
        ensures { result ≡ is_closed_of self.now }
    {
        is_closed(&self.shape, self.words.as_slice(), self.seats.as_slice())
    }

    /// How many cells are marked.
    pub fn marked_cells(&self) -> u32
        ensures { result ≡ marked_cells_of self.now }
    {
        marked_cells(&self.shape, self.words.as_slice())
    }

    /// How many cells are in use: published, or made by a seat and not yet published.
    pub fn used_cells(&self) -> u32
        ensures { result ≡ used_cells_of self.now }
    {
        used_cells(&self.shape, self.words.as_slice(), self.seats.as_slice())
    }
}
