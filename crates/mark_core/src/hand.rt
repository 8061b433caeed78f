//! What a seat has in hand.
ghost use Rattle.std.specs.Prelude.{◌≡◌};
ghost use Rattle.mark_core.specs.Seats.{is_the as is_the_cell_number, scan_left as scan_left_of, cleaning_left as cleaning_left_of, work_in_hand as work_in_hand_of, empty_handed as empty_handed_of, in_set as in_set_of, may_scan as may_scan_of, is_unpublished as is_unpublished_of, scans as scans_of, free_in as free_in_of, used_in as used_in_of, has_used as has_used_of, is_unread as is_unread_of, has_making as has_making_of, makes as makes_of, may_store as may_store_of, is_swept as is_swept_of};

use crate::cards::{BLOCK_CELLS, block_of_card};
use crate::cell::Cell;
use crate::seat::{BlockState, CacheState, Cleaning, SeatState};
use crate::{bits, slots};

pub fn is_the_cell(held: Option<Cell>, c: Cell) -> bool
    ensures { result ≡ is_the_cell_number held c }
{
    match held {
        None => false,
        Some(x) => x.number() == c.number(),
    }
}

pub fn scan_left(fields: u32, scan: Option<(Cell, u8)>) -> bool
    ensures { result ≡ scan_left_of fields scan }
{
    match scan {
        None => false,
        Some(x) => u32::from(x.1) < fields,
    }
}

fn cleaning_left(cleaning: Option<Cleaning>) -> bool
    ensures { result ≡ cleaning_left_of cleaning }
{
    match cleaning {
        None => false,
        Some(x) => !x.known || !(x.left == 0) || x.redirty,
    }
}

fn in_set(b: u32, set: u64, c: Cell) -> bool
    ensures { result ≡ in_set_of b set c }
{
    b == c.number() / BLOCK_CELLS && bits::has_bit(set, c.number() % BLOCK_CELLS)
}

/// Whether the cell is left in the cleaning, and its allocation bit was seen set.
pub fn may_scan(cleaning: Option<Cleaning>, c: Cell) -> bool
    ensures { result ≡ may_scan_of cleaning c }
{
    match cleaning {
        None => false,
        Some(x) => in_set(block_of_card(x.card), x.left, c)
            && in_set(block_of_card(x.card), x.published, c),
    }
}

pub fn is_unpublished(popped: Option<(Cell, bool)>, c: Cell) -> bool
    ensures { result ≡ is_unpublished_of popped c }
{
    match popped {
        None => false,
        Some(x) => x.0.number() == c.number() && x.1,
    }
}

pub fn scans(scan: Option<(Cell, u8)>, c: Cell, i: u8) -> bool
    ensures { result ≡ scans_of scan c i }
{
    match scan {
        None => false,
        Some(x) => x.0.number() == c.number() && x.1 == i,
    }
}

pub fn free_in(cache: Option<CacheState>, c: Cell) -> bool
    ensures { result ≡ free_in_of cache c }
{
    match cache {
        None => false,
        Some(x) => in_set(x.block, x.free, c),
    }
}

/// Whether a seat with this cache made cell c and hasn't published it.
pub fn used_in(cache: Option<CacheState>, c: Cell) -> bool
    ensures { result ≡ used_in_of cache c }
{
    match cache {
        None => false,
        Some(x) => in_set(x.block, x.used, c),
    }
}

pub fn has_used(cache: Option<CacheState>) -> bool
    ensures { result ≡ has_used_of cache }
{
    match cache {
        None => false,
        Some(x) => !(x.used == 0),
    }
}

pub fn is_unread(cache: Option<CacheState>) -> bool
    ensures { result ≡ is_unread_of cache }
{
    match cache {
        None => false,
        Some(x) => x.unread,
    }
}

pub fn makes(cache: Option<CacheState>, c: Cell, part: u8) -> bool
    ensures { result ≡ makes_of cache c part }
{
    match cache {
        None => false,
        Some(x) => scans(x.making, c, part),
    }
}

/// Whether both words of the block in hand were read, and none stored.
pub fn may_store(block: Option<BlockState>) -> bool
    ensures { result ≡ may_store_of block }
{
    match block {
        None => false,
        Some(x) => x.alloc_word.is_some() && x.mark_word.is_some() && !x.stored,
    }
}

pub fn is_swept(block: Option<BlockState>) -> bool
    ensures { result ≡ is_swept_of block }
{
    match block {
        None => false,
        Some(x) => x.stored,
    }
}

impl SeatState {
    /// Whether a grey cell, or something that may lead to one, is in the seat's record only; an object has `fields`
    /// fields. Then the seat must not give back its last packet, nor leave.
    pub fn work_in_hand(&self, fields: u32) -> bool
        ensures { result ≡ work_in_hand_of fields self.now }
    {
        self.popped.is_some()
            || scan_left(fields, self.scan)
            || self.value.is_some()
            || self.fresh.is_some()
            || cleaning_left(self.cleaning)
    }

    /// Whether the seat has no packet, no reservation of an empty one, and no credit for one that it gave back.
    pub fn empty_handed(&self) -> bool
        ensures { result ≡ empty_handed_of self.now }
    {
        !slots::holds_any(self.held) && !self.reserved && !self.credit
    }

    /// Whether the seat has begun to make a cell that it hasn't finished.
    pub fn has_making(&self) -> bool
        ensures { result ≡ has_making_of self.now.cache }
    {
        match self.cache {
            None => false,
            Some(x) => x.making.is_some(),
        }
    }
}
