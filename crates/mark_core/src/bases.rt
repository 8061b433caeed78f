//! Addresses of words. Where the regions begin is worked out once.
ghost use Rattle.std.specs.Prelude.{◌≡◌, ◌<◌, ◌+◌, ◌*◌};
ghost use Rattle.mark_core.specs.Layout.{pool_words as pool_words_of, region_sizes, region_base, address};
ghost use Rattle.mark_core.specs.Places.{position_at as position_place, root_at as root_place, slot_at as slot_place, owner_at as owner_place, alloc_at as alloc_place, mark_at as mark_place, card_at as card_place, head_at as head_place, entry_at as entry_place, identity_at as identity_place, value_at as value_place, field_at as field_place, pool_at as pool_place, counter_at as counter_place};
ghost use Rattle.mark_core.specs.Shapes.{IsShape};
ghost use Rattle.mark_core.specs.Numbers.{section_variables};

use crate::kinds::Shape;
use crate::layout::{self, NAMED, NEXT_CARD};
use crate::numbers::{FIRST_POSITION, LAST, NAMED_SECTION, VARIABLES};

/// Where the regions of a heap's words begin.
#[derive(Drop)]
pub struct Bases {
    pub(crate) shape: Shape,
    positions: usize,
    roots: usize,
    slots: usize,
    owners: usize,
    allocs: usize,
    marks: usize,
    cards: usize,
    heads: usize,
    entries: usize,
    identities: usize,
    values: usize,
    fields: usize,
    pools: usize,
    help: usize,
    pool_words: usize,
    ghost shaped: { IsShape shape },
    ghost positions_begin: { positions ≡ region_base (region_sizes shape) 1 },
    ghost roots_begin: { roots ≡ region_base (region_sizes shape) 2 },
    ghost slots_begin: { slots ≡ region_base (region_sizes shape) 2 + shape.sections * section_variables },
    ghost owners_begin: { owners ≡ region_base (region_sizes shape) 3 },
    ghost allocs_begin: { allocs ≡ region_base (region_sizes shape) 4 },
    ghost marks_begin: { marks ≡ region_base (region_sizes shape) 5 },
    ghost cards_begin: { cards ≡ region_base (region_sizes shape) 6 },
    ghost heads_begin: { heads ≡ region_base (region_sizes shape) 7 },
    ghost entries_begin: { entries ≡ region_base (region_sizes shape) 8 },
    ghost identities_begin: { identities ≡ region_base (region_sizes shape) 9 },
    ghost values_begin: { values ≡ region_base (region_sizes shape) 10 },
    ghost fields_begin: { fields ≡ region_base (region_sizes shape) 11 },
    ghost pools_begin: { pools ≡ region_base (region_sizes shape) 12 },
    ghost help_begin: { help ≡ region_base (region_sizes shape) 13 },
    ghost pool_words_count: { pool_words ≡ pool_words_of shape },
}

impl Bases {
    /// The bases of a heap of these sizes.
    #[inline(always)]
    pub fn of(shape: &Shape) -> Bases
        requires { IsShape shape.now }
        ensures { result.shape ≡ shape.now }
    {
        Bases {
            shape: *shape,
            positions: layout::positions(shape),
            roots: layout::roots(shape),
            slots: layout::slots(shape),
            owners: layout::owners(shape),
            allocs: layout::allocs(shape),
            marks: layout::marks(shape),
            cards: layout::cards(shape),
            heads: layout::heads(shape),
            entries: layout::entries(shape),
            identities: layout::identities(shape),
            values: layout::values(shape),
            fields: layout::fields(shape),
            pools: layout::pools(shape),
            help: layout::help(shape),
            pool_words: layout::pool_words(shape),
        }
    }

    /// The section's position: how many commands it has done.
    #[inline(always)]
    pub fn position_at(&self, section: u32) -> usize
        ensures { result ≡ address self.now.shape (position_place section) }
    {
        self.positions + section as usize
    }

    /// Variable v of this section.
    #[inline(always)]
    pub fn root_at(&self, section: u32, v: u8) -> usize
        ensures { result ≡ address self.now.shape (root_place section v) }
    {
        self.roots + (section as usize * VARIABLES as usize + v as usize)
    }

    /// Slot k of this section.
    #[inline(always)]
    pub fn slot_at(&self, section: u32, k: u16) -> usize
        ensures { result ≡ address self.now.shape (slot_place self.now.shape section k) }
    {
        self.slots + (section as usize * self.shape.slots as usize + k as usize)
    }

    /// The owner of block b: who makes cells in it.
    #[inline(always)]
    pub fn owner_at(&self, b: u32) -> usize
        ensures { result ≡ address self.now.shape (owner_place b) }
    {
        self.owners + b as usize
    }

    /// The allocation bits of block b.
    #[inline(always)]
    pub fn alloc_at(&self, b: u32) -> usize
        ensures { result ≡ address self.now.shape (alloc_place b) }
    {
        self.allocs + b as usize
    }

    /// The mark bits of block b.
    #[inline(always)]
    pub fn mark_at(&self, b: u32) -> usize
        ensures { result ≡ address self.now.shape (mark_place b) }
    {
        self.marks + b as usize
    }

    /// This card: 1 if it is dirty.
    #[inline(always)]
    pub fn card_at(&self, card: u32) -> usize
        ensures { result ≡ address self.now.shape (card_place card) }
    {
        self.cards + card as usize
    }

    /// The head of packet p, which holds its length.
    #[inline(always)]
    pub fn head_at(&self, p: u32) -> usize
        ensures { result ≡ address self.now.shape (head_place p) }
    {
        self.heads + p as usize
    }

    /// Entry k of packet p.
    #[inline(always)]
    pub fn entry_at(&self, p: u32, k: u32) -> usize
        ensures { result ≡ address self.now.shape (entry_place self.now.shape p k) }
    {
        self.entries + (p as usize * self.shape.entries as usize + k as usize)
    }

    /// The identity of cell c.
    #[inline(always)]
    pub fn identity_at(&self, c: u32) -> usize
        ensures { result ≡ address self.now.shape (identity_place c) }
    {
        self.identities + c as usize
    }

    /// The value of cell c.
    #[inline(always)]
    pub fn value_at(&self, c: u32) -> usize
        ensures { result ≡ address self.now.shape (value_place c) }
    {
        self.values + c as usize
    }

    /// Field i of cell c.
    #[inline(always)]
    pub fn field_at(&self, c: u32, i: u8) -> usize
        ensures { result ≡ address self.now.shape (field_place self.now.shape c i) }
    {
        self.fields + (c as usize * self.shape.fields as usize + i as usize)
    }

    /// Word g of pool q, which has a bit for each of [`WORD_BITS`](crate::WORD_BITS) packets.
    #[inline(always)]
    pub fn pool_at(&self, q: usize, g: u32) -> usize
        requires { q < 256 }
        ensures { result ≡ address self.now.shape (pool_place self.now.shape q g) }
    {
        self.pools + (q * self.pool_words + g as usize)
    }

    /// What `ReadStat` reads by this number.
    #[inline(always)]
    pub fn counter_at(&self, which: u8) -> usize
        ensures { result ≡ address self.now.shape (counter_place which) }
    {
        if which < LAST {
            NEXT_CARD + which as usize
        } else if which < NAMED_SECTION {
            NEXT_CARD + 1 + which as usize
        } else if which == NAMED_SECTION {
            NAMED
        } else {
            self.positions + (which - FIRST_POSITION) as usize
        }
    }

    /// The word of help.
    #[inline(always)]
    pub fn help(&self) -> usize
        ensures { result ≡ region_base (region_sizes self.now.shape) 13 }
    {
        self.help
    }
}
