//! Words as sets of bits, as counts beside a flag, and as references to cells.
ghost use Rattle.std.specs.Prelude.{◌≡◌, ◌<◌};
ghost use Rattle.mark_core.specs.Bits.{has_flag as has_flag_of, has_bit as has_bit_of, with_bit as with_bit_of, without_bit as without_bit_of, cell_of as cell_of_word, cell_named as cell_named_of, reference_in as reference_in_word};

use crate::cell::Cell;

/// The flag above a count of seats.
pub const FLAG: u64 = 4_294_967_296;

/// Whether the flag is up: the stop flag, or in the word of help that help is open.
pub fn has_flag(word: u64) -> bool
    ensures { result ≡ has_flag_of word }
{
    !(word < FLAG)
}

/// Whether bit i, below 64, is set. In a word of a block it is the bit of the block's cell i.
pub fn has_bit(word: u64, i: u32) -> bool
    requires { i < 64 }
    ensures { result ≡ has_bit_of word i }
{
    (word >> i) & 1 == 1
}

pub fn with_bit(word: u64, i: u32) -> u64
    requires { i < 64 }
    ensures { result ≡ with_bit_of word i }
{
    word | (1 << i)
}

pub fn without_bit(word: u64, i: u32) -> u64
    requires { i < 64 }
    ensures { result ≡ without_bit_of word i }
{
    word & !(1 << i)
}

/// The cell that a word other than nil names: a field, a root or an entry has the cell's number plus 1.
pub fn cell_of(word: u64) -> Cell
    ensures { result ≡ cell_of_word word }
{
    Cell::make((word.saturating_sub(1) % FLAG) as u32)
}

pub fn cell_named(word: u64) -> Option<Cell>
    ensures { result ≡ cell_named_of word }
{
    if word == 0 { None } else { Some(cell_of(word)) }
}

/// The word as a reference: 0 for nil, else the cell's number plus 1. Only the lower half counts.
pub fn reference_in(word: u64) -> u32
    ensures { result ≡ reference_in_word word }
{
    (word % FLAG) as u32
}
