//! Sizes that C gives, and numbers that C reads.
ghost use Rattle.std.specs.Prelude.{◌≡◌};
ghost use Rattle.managed_heap_c.specs.Sizing.{shared_sizes_of, sizes_of};

use managed_heap::Sizes;
use shared_heap::SharedSizes;

/// The sizes of a world, as C gives them.
#[repr(C)]
pub struct CSizes {
    pub cells: u32,
    pub fields: u32,
    pub mutators: u32,
    pub name: u32,
    pub tracers: u32,
    /// 1 if all mutators share their objects, 0 if each has its own.
    pub shared: u32,
    pub slots: u32,
}

/// The numbers of a world, as C reads them.
#[derive(Drop)]
#[repr(C)]
pub struct CNumbers {
    pub cells: u32,
    pub free: u64,
    pub marked: u64,
}

/// These without slots.
pub fn own_sizes(sizes: &CSizes) -> Sizes
    ensures wanted { result ≡ sizes_of sizes.now }
{
    Sizes::of_cells(sizes.cells)
        .fields(sizes.fields)
        .mutators(sizes.mutators)
        .tracers(sizes.tracers)
        .named(sizes.name)
}

pub fn shared_sizes(sizes: &CSizes) -> SharedSizes
    ensures wanted { result ≡ shared_sizes_of sizes.now }
{
    own_sizes(sizes).slots(sizes.slots)
}
