//! The sizes of a world.
ghost use Rattle.std.specs.Prelude.{◌≡◌, false};
ghost use Rattle.std.specs.Bool.{OnFalse, OnTrue};
ghost use Rattle.managed_heap.specs.Sizing.{Fits, usual_entries as usual};

use mark_core::BLOCK_CELLS;

/// So what waits to be scanned in a large heap fits the packets, and they take a 32nd of a word for each cell.
fn usual_entries(cells: u32) -> u32
    ensures { result ≡ usual cells }
{
    (cells / 2_048).max(32).min(512)
}

/// The sizes of a world. All memory is taken when it opens.
#[derive(Clone, Copy, Debug, PartialEq, Eq, Drop)]
pub struct Sizes {
    /// How many cells the heap has.
    pub cells: u32,
    /// How many references an object has.
    pub fields: u32,
    /// How many mutators there are.
    pub mutators: u32,
    /// How many tracers there are.
    pub tracers: u32,
    /// How many slots a mutator has: none if mutators don't share their objects.
    pub slots: u32,
    /// How many packets there are.
    pub packets: u32,
    /// How many cells a packet has room for.
    pub entries: u32,
    /// The world's name.
    pub name: u32,
    /// Whether mutators collect only in stops. If they share their objects they don't.
    pub in_stops: bool,
}

impl Sizes {
    /// A heap of so many cells, 64 to 16,777,216, a multiple of 64. Twice as many as objects are reachable at once are
    /// ample. Unless other numbers are given, objects have two references, and there is one mutator, without slots,
    /// and no tracer.
    pub fn of_cells(cells: u32) -> Sizes
        ensures { result ≡ record { cells = cells; fields = 2; mutators = 1; tracers = 0; slots = 0; packets = 64; entries = usual cells; name = 0; in_stops = false } }
    {
        Sizes {
            cells,
            fields: 2,
            mutators: 1,
            tracers: 0,
            slots: 0,
            packets: 64,
            entries: usual_entries(cells),
            name: 0,
            in_stops: false,
        }
    }

    /// With this many references in each object, 1 to 16. Each takes a word in every cell.
    pub fn fields(self, fields: u32) -> Sizes
        ensures { result ≡ record self { fields = fields } }
    {
        Sizes { fields, ..self }
    }

    /// With this many mutators, 1 to 32.
    pub fn mutators(self, mutators: u32) -> Sizes
        ensures { result ≡ record self { mutators = mutators } }
    {
        Sizes { mutators, ..self }
    }

    /// With this many tracers, 0 to 8. Each helps only if a processor is free for it: mutators trace, too.
    pub fn tracers(self, tracers: u32) -> Sizes
        ensures { result ≡ record self { tracers = tracers } }
    {
        Sizes { tracers, ..self }
    }

    /// With this many slots for each mutator, 0 to 65,536: roots besides its 32 variables, for the frames of a stack.
    pub fn slots(self, slots: u32) -> Sizes
        ensures { result ≡ record self { slots = slots } }
    {
        Sizes { slots, ..self }
    }

    /// With this many packets, 2 to 1,024, each with room for this many cells, 2 to 512, that wait to be scanned. If
    /// more wait, cards take the place of packets: too few only cost time. If none are given there are 64, each with
    /// room for a 2,048th of the cells, but 32 at least and 512 at most.
    pub fn packets(self, packets: u32, entries: u32) -> Sizes
        ensures { result ≡ record self { packets = packets; entries = entries } }
    {
        Sizes {
            packets,
            entries,
            ..self
        }
    }

    /// With this name, any number, which the world's mutators and tracers have too: no world takes back what one of
    /// another name lent. 0 if none is given.
    pub fn named(self, name: u32) -> Sizes
        ensures { result ≡ record self { name = name } }
    {
        Sizes { name, ..self }
    }

    /// With mutators that collect only in stops, if that is asked for: each stop marks all. It is there to compare
    /// with.
    pub fn in_stops(self, in_stops: bool) -> Sizes
        ensures { result ≡ record self { in_stops = in_stops } }
    {
        Sizes { in_stops, ..self }
    }

    /// Whether each is in its range.
    pub fn fit(&self) -> bool
        ensures fits { OnTrue result (Fits self.now) }
        ensures unfit { OnFalse result (Fits self.now → ⊥) }
    {
        BLOCK_CELLS <= self.cells
            && self.cells <= 16_777_216
            && self.cells % BLOCK_CELLS == 0
            && 1 <= self.fields
            && self.fields <= 16
            && 1 <= self.mutators
            && self.mutators <= 32
            && self.tracers <= 8
            && self.slots <= 65_536
            && 2 <= self.packets
            && self.packets <= 1024
            && 2 <= self.entries
            && self.entries <= 512
    }
}
