ghost use Rattle.std.specs.Prelude.{false};
ghost use Rattle.mark_core.specs.Shapes.{IsShape};
ghost use Rattle.test_heaps.specs.Seats.{HasEachObject};

use crate::words::Size;
use gc_table::{Heap, HeapSeat};
use mark_core::{BLOCK_CELLS, Shape};
use stop_world::enter;
use test_heaps::is_bare;

/// Eight packets of 64 entries, one section, and objects of four fields.
fn shape_of(cells: u32) -> Shape
    requires { IsShape (record { cells = cells; packets = 8; entries = 64; sections = 1; fields = 4; objects = 2000000; sharing = false; slots = 0; stretch = 1 }) }
    ensures { IsShape result }
{
    Shape {
        cells,
        packets: 8,
        entries: 64,
        sections: 1,
        fields: 4,
        objects: 2_000_000,
        sharing: false,
        slots: 0,
        stretch: 1,
    }
}

/// The sizes of a small or a large heap.
pub fn sizes_of(size: Size) -> Shape
    ensures { IsShape result }
{
    match size {
        Size::Small => shape_of(BLOCK_CELLS),
        Size::Large => shape_of(65_536),
    }
}

/// The seat enters, if no stop is under way.
pub fn begin(heap: &Heap, seat: &mut HeapSeat) -> bool
    requires { HasEachObject heap.now seat.old }
    ensures { HasEachObject heap.now seat.new }
{
    if !is_bare(seat) || !enter(heap, seat) {
        return false;
    }
    heap.read_phase(seat);
    true
}
