//! What is read of the words by their meaning.
ghost use Rattle.std.specs.Prelude.{◌≡◌, length, slice_get, slice_index};
ghost use Rattle.mark_core.specs.Layout.{region_sizes, total_words as total_words_of, words_of};
ghost use Rattle.mark_core.specs.Shapes.{IsShape};

use crate::kinds::Shape;
use crate::layout;

pub fn word_at(words: &[u64], at: usize) -> Option<u64>
    ensures { result ≡ slice_get words.now at }
{
    words.get(at).copied()
}

/// The word at this address; 0 past the last one.
pub fn read(words: &[u64], at: usize) -> u64
    ensures { result ≡ slice_index words.now at }
{
    words.get(at).copied().unwrap_or(0)
}

#[tactic(auto, using(crate::proofs::Writing::Places::reads))]
pub fn identity_of(shape: &Shape, words: &[u64], c: u32) -> u64
    requires shaped { IsShape shape.now }
    requires whole { length words.now ≡ total_words_of (region_sizes shape.now) }
    ensures { result ≡ slice_index (words_of shape.now words.now).identities c }
{
    if c < shape.cells {
        read(words, layout::identity_at(shape, c))
    } else {
        0
    }
}

#[tactic(auto, using(crate::proofs::Writing::Places::reads))]
pub fn season_of(shape: &Shape, words: &[u64]) -> u64
    requires shaped { IsShape shape.now }
    requires whole { length words.now ≡ total_words_of (region_sizes shape.now) }
    ensures { result ≡ (words_of shape.now words.now).season }
{
    read(words, layout::help(shape) + 1)
}
