//! What becomes of a cleaning as the seat reads bits.
ghost use Rattle.std.specs.Prelude.{◌≡◌};
ghost use Rattle.mark_core.specs.Steps.ColourSteps.{seen_in as seen_in_of, cleaning_after as cleaning_after_of, without_cell as without_cell_of, redirty_off as redirty_off_of, known_in as known_in_of};

use crate::bits;
use crate::cards::{BLOCK_CELLS, block_of_card, card_bits};
use crate::cell::Cell;
use crate::seat::Cleaning;

/// Cells whose bit is set may be scanned; the others leave the list, so their card must be dirty again.
fn see(x: &mut Cleaning, word: u64)
    ensures { x.new ≡ seen_in_of x.old word }
{
    if !(x.left & !word == 0) {
        x.redirty = true;
    }
    x.left &= word;
    x.published = x.left;
}

/// What a cleaning in block b becomes, once the block's allocation bits were read.
pub fn cleaning_after(cleaning: &mut Option<Cleaning>, b: u32, word: u64)
    ensures { cleaning.new ≡ cleaning_after_of cleaning.old b word }
{
    if let Some(x) = cleaning {
        if x.known && block_of_card(x.card) == b {
            see(x, word);
        }
    }
}

pub fn without_cell(cleaning: &mut Option<Cleaning>, c: Cell)
    ensures { cleaning.new ≡ without_cell_of cleaning.old c }
{
    if let Some(x) = cleaning {
        if block_of_card(x.card) == c.number() / BLOCK_CELLS {
            x.left = bits::without_bit(x.left, c.number() % BLOCK_CELLS);
            x.published = bits::without_bit(x.published, c.number() % BLOCK_CELLS);
        }
    }
}

#[inline(always)]
pub fn redirty_off(cleaning: &mut Option<Cleaning>, card: u32)
    ensures { cleaning.new ≡ redirty_off_of cleaning.old card }
{
    if let Some(x) = cleaning {
        if x.card == card {
            x.redirty = false;
        }
    }
}

/// The marked cells of the cleaned card are left to scan.
pub fn known_in(cleaning: &mut Option<Cleaning>, b: u32, word: u64)
    ensures { cleaning.new ≡ known_in_of cleaning.old b word }
{
    if let Some(x) = cleaning {
        if !x.known && block_of_card(x.card) == b {
            x.known = true;
            x.left = word & card_bits(x.card);
            x.published = 0;
        }
    }
}
