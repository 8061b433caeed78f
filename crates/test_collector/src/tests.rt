//! Small heaps with two seats: seat 0 is the catalogue's, and seat 1 a warehouse's.
mod checks;
mod collecting;
mod helping;
mod hiding;
mod moving;
mod objects;
mod opening;
mod paying;
mod quotas;
mod resting;
mod seasons;
mod sharers;
mod sharing;
mod stages;
mod stepping;
mod threads;

use mark_core::Shape;
use test_heaps::SMALL;

/// Ten blocks, and 64 packets of 32 entries.
const LARGE: Shape = Shape {
    cells: 640,
    packets: 64,
    entries: 32,
    ..SMALL
};

/// Ten blocks, 64 packets of 32 entries, and two warehouses.
const THREE: Shape = Shape {
    sections: 3,
    ..LARGE
};

/// 256 blocks, and 64 packets of two entries, so that packets are soon given back.
const BROAD: Shape = Shape {
    cells: 16_384,
    packets: 64,
    ..SMALL
};
