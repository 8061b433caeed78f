//! Blocks and cards. Only this file sets their sizes.
ghost use Rattle.std.specs.Prelude.{◌≡◌};
ghost use Rattle.mark_core.specs.Cards.{card_of as card_of_cell, block_of_card as block_of, first_bit as first_bit_of, card_bits as card_bits_of};

use crate::cell::Cell;

/// How many cells a block has: a bit of a word for each.
pub const BLOCK_CELLS: u32 = 64;

/// How many cells a card has.
pub const CARD_CELLS: u32 = 16;

/// How many cards a block has.
pub const BLOCK_CARDS: u32 = BLOCK_CELLS / CARD_CELLS;

/// The card of a cell, by its number.
pub fn card_of(c: Cell) -> u32
    ensures { result ≡ card_of_cell c }
{
    c.number() / CARD_CELLS
}

pub fn block_of_card(card: u32) -> u32
    ensures { result ≡ block_of card }
{
    card / BLOCK_CARDS
}

/// The bit of the card's first cell in the words of its block.
pub fn first_bit(card: u32) -> u32
    ensures { result ≡ first_bit_of card }
{
    CARD_CELLS * (card % BLOCK_CARDS)
}

#[tactic(auto, using(crate::proofs::Hands::HandsCleaning::card_rules))]
pub fn card_bits(card: u32) -> u64
    ensures { result ≡ card_bits_of card }
{
    ((1 << CARD_CELLS) - 1) << first_bit(card)
}
