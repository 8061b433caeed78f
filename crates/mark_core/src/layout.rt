//! Where each region of words begins in the list of all words, and what stands there.
ghost use Rattle.std.specs.Prelude.{◌≡◌, ◌<◌, ◌+◌, ◌*◌, ◌-◌, ◌≤◌, ◌^◌, length, take, drop};
ghost use Rattle.mark_core.specs.Layout.{pool_words as pool_words_of, block_count as block_count_of, card_count as card_count_of, region_sizes, region_base, total_words as total_words_of, address, words_of};
ghost use Rattle.mark_core.specs.Places.{identity_at as identity_place};
ghost use Rattle.mark_core.specs.Shapes.{IsShape, usual_stretch as usual_stretch_of};
ghost use Rattle.mark_core.specs.Steps.SweepSteps.{stretch_end as stretch_end_of};
ghost use Rattle.mark_core.specs.Numbers.{section_variables};

use crate::cards::{BLOCK_CELLS, CARD_CELLS};
use crate::kinds::Shape;
use crate::numbers::{POOLS, VARIABLES, WORD_BITS};

pub const SINGLE_WORDS: usize = 11;

/// How many seats run, and above that number the stop flag.
pub const WORLD: usize = 0;

/// The phase of the cycle, by its number.
pub const PHASE: usize = 1;

/// The count of empty packets, plus [`EMPTY_OFFSET`](crate::EMPTY_OFFSET): never above the packets of the empty
/// pool.
pub const EMPTY: usize = 2;

/// The counter of the card pass. That of the sweep, the named section and the statistics follow.
pub const NEXT_CARD: usize = 3;

pub const NEXT_BLOCK: usize = 4;

/// The section that found the heap full. It stores this just before.
pub const NAMED: usize = 5;

pub fn block_count(shape: &Shape) -> u32
    ensures { result ≡ block_count_of shape.now }
{
    shape.cells / BLOCK_CELLS
}

/// The block behind the last of the stretch that begins with block b.
pub fn stretch_end(shape: &Shape, b: u32) -> u32
    ensures { result ≡ stretch_end_of shape.now b }
{
    let end = u64::from(b) + u64::from(shape.stretch);
    end.min(u64::from(block_count(shape))) as u32
}

/// How many blocks a sweeper usually takes at a time: a 16th of all, at least one and at most 128.
pub fn usual_stretch(cells: u32) -> u32
    ensures { result ≡ usual_stretch_of cells }
{
    (cells / (BLOCK_CELLS * 16)).min(128).max(1)
}

pub fn card_count(shape: &Shape) -> u32
    ensures { result ≡ card_count_of shape.now }
{
    shape.cells / CARD_CELLS
}

pub fn pool_words(shape: &Shape) -> usize
    ensures { result ≡ pool_words_of shape.now }
{
    (shape.packets as usize + 63) / WORD_BITS as usize
}

pub fn positions(shape: &Shape) -> usize
    ensures { result ≡ region_base (region_sizes shape.now) 1 }
{
    SINGLE_WORDS
}

/// The variables of all sections, and behind them the slots.
pub fn roots(shape: &Shape) -> usize
    ensures { result ≡ region_base (region_sizes shape.now) 2 }
{
    positions(shape) + shape.sections as usize
}

pub fn slots(shape: &Shape) -> usize
    ensures { result ≡ region_base (region_sizes shape.now) 2 + shape.now.sections * section_variables }
{
    roots(shape) + shape.sections as usize * VARIABLES as usize
}

pub fn owners(shape: &Shape) -> usize
    requires { IsShape shape.now }
    ensures { result ≡ region_base (region_sizes shape.now) 3 }
{
    slots(shape) + shape.sections as usize * shape.slots as usize
}

pub fn allocs(shape: &Shape) -> usize
    requires { IsShape shape.now }
    ensures { result ≡ region_base (region_sizes shape.now) 4 }
{
    owners(shape) + block_count(shape) as usize
}

pub fn marks(shape: &Shape) -> usize
    requires { IsShape shape.now }
    ensures { result ≡ region_base (region_sizes shape.now) 5 }
{
    allocs(shape) + block_count(shape) as usize
}

pub fn cards(shape: &Shape) -> usize
    requires { IsShape shape.now }
    ensures { result ≡ region_base (region_sizes shape.now) 6 }
{
    marks(shape) + block_count(shape) as usize
}

pub fn heads(shape: &Shape) -> usize
    requires { IsShape shape.now }
    ensures { result ≡ region_base (region_sizes shape.now) 7 }
{
    cards(shape) + card_count(shape) as usize
}

pub fn entries(shape: &Shape) -> usize
    requires { IsShape shape.now }
    ensures { result ≡ region_base (region_sizes shape.now) 8 }
{
    heads(shape) + shape.packets as usize
}

pub fn identities(shape: &Shape) -> usize
    requires { IsShape shape.now }
    ensures { result ≡ region_base (region_sizes shape.now) 9 }
{
    entries(shape) + shape.packets as usize * shape.entries as usize
}

pub fn values(shape: &Shape) -> usize
    requires { IsShape shape.now }
    ensures { result ≡ region_base (region_sizes shape.now) 10 }
{
    identities(shape) + shape.cells as usize
}

pub fn fields(shape: &Shape) -> usize
    requires { IsShape shape.now }
    ensures { result ≡ region_base (region_sizes shape.now) 11 }
{
    values(shape) + shape.cells as usize
}

pub fn pools(shape: &Shape) -> usize
    requires { IsShape shape.now }
    ensures { result ≡ region_base (region_sizes shape.now) 12 }
{
    fields(shape) + shape.cells as usize * shape.fields as usize
}

/// The season follows the word of help.
pub fn help(shape: &Shape) -> usize
    requires { IsShape shape.now }
    ensures { result ≡ region_base (region_sizes shape.now) 13 }
{
    pools(shape) + POOLS as usize * pool_words(shape)
}

/// How many words a heap of this shape has.
pub fn total_words(shape: &Shape) -> usize
    requires { IsShape shape.now }
    ensures { result ≡ total_words_of (region_sizes shape.now) }
{
    help(shape) + 2
}

pub fn identity_at(shape: &Shape, c: u32) -> usize
    requires { IsShape shape.now }
    ensures { result ≡ address shape.now (identity_place c) }
{
    identities(shape) + c as usize
}

#[tactic(auto, using(crate::proofs::Writing::Slices::parts_of_words))]
pub fn roots_of<'a>(shape: &Shape, words: &'a [u64]) -> &'a [u64]
    requires shaped { IsShape shape.now }
    requires whole { length words.now ≡ total_words_of (region_sizes shape.now) }
    ensures { result.now ≡ (words_of shape.now words.now).roots }
{
    &words[roots(shape)..owners(shape)]
}

#[tactic(auto, using(crate::proofs::Writing::Slices::parts_of_words))]
pub fn allocs_of<'a>(shape: &Shape, words: &'a [u64]) -> &'a [u64]
    requires shaped { IsShape shape.now }
    requires whole { length words.now ≡ total_words_of (region_sizes shape.now) }
    ensures { result.now ≡ (words_of shape.now words.now).allocs }
{
    &words[allocs(shape)..marks(shape)]
}

#[tactic(auto, using(crate::proofs::Writing::Slices::parts_of_words))]
pub fn marks_of<'a>(shape: &Shape, words: &'a [u64]) -> &'a [u64]
    requires shaped { IsShape shape.now }
    requires whole { length words.now ≡ total_words_of (region_sizes shape.now) }
    ensures { result.now ≡ (words_of shape.now words.now).marks }
{
    &words[marks(shape)..cards(shape)]
}

#[tactic(auto, using(std::proofs::lemmas::List::places))]
pub fn cards_of<'a>(shape: &Shape, words: &'a [u64]) -> &'a [u64]
    requires shaped { IsShape shape.now }
    requires whole { length words.now ≡ total_words_of (region_sizes shape.now) }
    ensures { result.now ≡ (words_of shape.now words.now).cards }
{
    &words[cards(shape)..heads(shape)]
}
