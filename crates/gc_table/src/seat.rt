//! A heap and its seats.
ghost use Rattle.std.specs.Prelude.{◌≡◌, ◌<◌, [], length, IsFalse, IsTrue};
ghost use Rattle.mark_core.specs.Layout.{region_sizes, total_words};
ghost use Rattle.mark_core.specs.Shapes.{IsShape};
ghost use Rattle.gc_table.specs.Rule.{IsPossible};
ghost use Rattle.gc_table.specs.Seen.{Recalls};

use crate::rule::{Key, Rule};
use crate::view::TokenState;
use atomic_table::{Seat, Table};
use mark_core::{Bases, SeatState, Shape};
use std::alloc::Global;

/// A heap that threads share. Its words change only by the steps of its seats.
#[derive(Drop)]
pub struct Heap {
    pub(crate) table: Table<(), TokenState, Key, Rule, Global>,
    pub(crate) shape: Shape,
    pub(crate) bases: Bases,
    ghost shaped: { IsShape shape },
    ghost based: { bases.shape ≡ shape },
    ghost keyed: { shape ≡ table.shared.key.shape },
    ghost sized: { table.shared.table_id.words ≡ total_words (region_sizes shape) },
    ghost slotless: { table.shared.table_id.slots ≡ 0 },
}

/// A participant: its record, and the right to take steps.
#[derive(Drop)]
pub struct HeapSeat {
    pub(crate) state: SeatState,
    pub(crate) token: Seat<(), TokenState>,
    /// Where its last search for a block ended.
    pub(crate) hint: u32,
    ghost agrees: { state ≡ token.me.0.view.state },
    ghost bare: { token.me.1 ≡ [] },
    ghost seated: { IsFalse token.me.0.stamp },
    ghost possible: { ∥ IsPossible token.me.0.view ∥₁ },
    ghost recalls: { ∥ Recalls token.me.0 ∥₁ },
}

/// What a seat had seen when the stamp was taken. It is no seat, and has no bytes.
#[derive(Drop)]
pub struct Stamp {
    pub(crate) token: Seat<(), TokenState>,
    ghost bare: { token.me.1 ≡ [] },
    ghost is_stamp: { IsTrue token.me.0.stamp },
    ghost recalls: { ∥ Recalls token.me.0 ∥₁ },
}
