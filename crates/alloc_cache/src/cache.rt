//! A cache in a mutator's hand.
ghost use Rattle.std.specs.Prelude.{◌≡◌, None, IfNone, IfSome, IsTrue};
ghost use Rattle.std.specs.Int.Count.{ones};
ghost use Rattle.gc_table.specs.Seats.{state_of, view_of};
ghost use Rattle.alloc_cache.specs.Caching.{IsCached, is_whole};

use gc_table::HeapSeat;

/// A block that the seat claimed, and its free cells. It can't be dropped: [`retire`](crate::retire) spends it.
pub struct Cache {
    pub(crate) block: u32,
    /// Bit i is for cell 64 * block + i.
    pub(crate) cells: u64,
}

impl Cache {
    /// The number of its block, whose first cell is 64 times that.
    pub fn block(&self) -> u32
        ensures { result ≡ self.now.block }
    {
        self.block
    }

    /// How many of its cells are free: at most 64.
    pub fn free(&self) -> u32
        ensures { result ≡ ones self.now.cells }
    {
        self.cells.count_ones()
    }
}

/// The cache in the seat's record, for a caller that kept none between two calls. Once it is given up, no other of the
/// same block can be spent.
pub fn cache_of(seat: &HeapSeat) -> Option<Cache>
    requires whole { IsTrue (is_whole (state_of seat.now).cache) }
    ensures some { IfSome result (λ h. IsCached h (view_of seat.now)) }
    ensures none { IfNone result ((state_of seat.now).cache ≡ None) }
{
    match seat.state().cache {
        Some(c) => Some(Cache {
            block: c.block,
            cells: c.free,
        }),
        None => None,
    }
}

/// Lets go of a cache that stays the seat's: [`cache_of`] gives it again.
pub fn leave_with_seat(cache: Cache) {
    let Cache { block: _, cells: _ } = cache;
}
