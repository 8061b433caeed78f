//! What a closed world's words say of its root.
ghost use Rattle.std.specs.Prelude.{◌≡◌};
ghost use Rattle.shared_heap.specs.Counting.{root_value_of};

use gc_table::Words;

/// The value of the root in the words of a closed world; None only if these are the words of no world.
pub fn root_value(words: &Words) -> Option<u64>
    ensures value { result ≡ root_value_of words.now }
{
    let word = match words.roots.first() {
        Some(word) => *word,
        None => 0,
    };
    if word == 0 {
        return None;
    }
    words.values.get((word - 1) as usize).copied()
}
