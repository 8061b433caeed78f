//! Shapes of small heaps, in which each cell and packet can be told apart by hand.
use mark_core::Shape;

/// One block, and two packets of two entries.
pub const SMALL: Shape = Shape {
    cells: 64,
    packets: 2,
    entries: 2,
    sections: 2,
    fields: 4,
    objects: 2_000_000,
    sharing: false,
    slots: 0,
    stretch: 1,
};
