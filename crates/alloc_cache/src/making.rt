//! A cell is made in a cache.
ghost use Rattle.std.specs.Prelude.{◌≡◌, ◌<◌, ◌%◌, length, Some, IsTrue, IsFalse, IfSome, IfNone};
ghost use Rattle.std.specs.Int.Count.{ones};
ghost use Rattle.mark_core.specs.Bits.{without_bit};
ghost use Rattle.mark_core.specs.Cards.{block_cells};
ghost use Rattle.mark_core.specs.Seats.{free_in, has_making, may_mutate};
ghost use Rattle.gc_table.specs.Seats.{Across, Sits, state_of, view_of};
ghost use Rattle.alloc_cache.specs.Caching.{IsCached};
ghost use Rattle.alloc_cache.specs.Making.{Cleared, Makes, identity_word as identity_word_of};
ghost use Rattle.gc_table.specs.Running.{Ran};

use crate::cache::Cache;
use gc_table::{Heap, HeapSeat};
use mark_core::{BLOCK_CELLS, Cell, Identity, SECTION_SPAN};

fn identity_word(id: Identity) -> u64
    ensures { result ≡ identity_word_of id }
{
    u64::from(id.section) * SECTION_SPAN + u64::from(id.number)
}

fn clear_fields(heap: &Heap, seat: &mut HeapSeat, cell: Cell)
    requires seat { Sits heap.now seat.old }
    requires turn { IsTrue (may_mutate (state_of seat.old)) }
    requires cell { IsTrue (free_in (state_of seat.old).cache cell) }
    requires whole { IsFalse (has_making (state_of seat.old).cache) }
    requires counted { length (view_of seat.old).own.meaning.heap.objects ≡ (state_of seat.old).made }
    ensures seat { Sits heap.now seat.new }
    ensures cleared { Across (Cleared cell heap.now.shape.fields) seat.old seat.new }
{
    for i in 0..heap.shape().fields {
        heap.store_new(seat, cell, i as u8, 0);
    }
}

fn fill(heap: &Heap, seat: &mut HeapSeat, cell: Cell, id: Identity, value: u32)
    requires seat { Sits heap.now seat.old }
    requires turn { IsTrue (may_mutate (state_of seat.old)) }
    requires cell { IsTrue (free_in (state_of seat.old).cache cell) }
    requires whole { IsFalse (has_making (state_of seat.old).cache) }
    requires identity { ((state_of seat.old).section ≡ Some id.section) × (id.number ≡ (state_of seat.old).made) × (id.number < heap.now.shape.objects) }
    requires counted { length (view_of seat.old).own.meaning.heap.objects ≡ (state_of seat.old).made }
    ensures seat { Sits heap.now seat.new }
    ensures ran { Across Ran seat.old seat.new }
    ensures makes { Across (Makes cell value id) seat.old seat.new }
{
    let fields = heap.shape().fields as u8;
    clear_fields(heap, seat, cell);
    heap.store_new(seat, cell, fields, u64::from(value));
    heap.store_new(seat, cell, fields + 1, identity_word(id));
}

fn without_cell(cells: u64, i: u32) -> u64
    requires { i < block_cells }
    ensures { result ≡ without_bit cells i }
{
    cells & !(1 << i)
}

/// Makes an unpublished cell with this identity and value and nil references. The answer is None exactly if no cell of
/// the cache is free, and nothing changes.
///
/// The seat has its section's turn. `id` is that section and the number of cells that the seat has made, below what the
/// shape allows. A cell is stored in a variable before the next one is made.
pub fn new_cell(
    heap: &Heap,
    seat: &mut HeapSeat,
    cache: &mut Cache,
    id: Identity,
    value: u32,
) -> Option<Cell>
    requires seat { Sits heap.now seat.old }
    requires cache { IsCached cache.old (view_of seat.old) }
    requires turn { IsTrue (may_mutate (state_of seat.old)) }
    requires identity { ((state_of seat.old).section ≡ Some id.section) × (id.number ≡ (state_of seat.old).made) × (id.number < heap.now.shape.objects) }
    requires counted { length (view_of seat.old).own.meaning.heap.objects ≡ (state_of seat.old).made }
    ensures seat { Sits heap.now seat.new }
    ensures ran { Across Ran seat.old seat.new }
    ensures cache { IsCached cache.new (view_of seat.new) }
    ensures made { IfSome result (λ cell. (cell < heap.now.shape.cells) × IsTrue (free_in (state_of seat.old).cache cell) × (cache.new ≡ record cache.old { cells = without_bit cache.old.cells (cell % block_cells) }) × Across (Makes cell value id) seat.old seat.new) }
    ensures none { IfNone result ((ones cache.old.cells ≡ 0) × (cache.new ≡ cache.old) × (view_of seat.new ≡ view_of seat.old)) }
{
    if cache.cells == 0 {
        return None;
    }
    let i = cache.cells.trailing_zeros();
    let cell = Cell::make(BLOCK_CELLS * cache.block + i);
    fill(heap, seat, cell, id, value);
    cache.cells = without_cell(cache.cells, i);
    Some(cell)
}
