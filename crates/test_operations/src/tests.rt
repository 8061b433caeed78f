//! Small heaps with two or three seats: seat 0 is the catalogue's, seat 1 a warehouse's, and seat 2 a tracer's.
mod blocks;
mod cleaning;
mod meeting;
mod mutators;
mod objects;
mod opening;
mod orders;
mod pools;
mod refusing;
mod scanning;
mod seasons;
mod stops;
mod sweeping;
mod threads;
mod tracing;
mod trades;

use mark_core::Shape;
use test_heaps::SMALL;

/// One block, and four packets of two entries.
const FOUR: Shape = Shape {
    packets: 4,
    ..SMALL
};

/// One block, and two packets of four entries.
const DEEP: Shape = Shape {
    entries: 4,
    ..SMALL
};
