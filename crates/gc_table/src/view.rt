//! What a seat knows. Only contracts see it.
ghost use Rattle.std.specs.Prelude.{◌≡◌};

use mark_core::{Event, SeatState, Shape, Step};
use plain_heap::{Op, PlainHeap, Ref};
use std::collections::LinkedList;

/// A step that the seat took.
pub struct Entry {
    /// The step.
    pub step: Step,
    /// The word that it found, or that a store stored.
    pub found: u64,
    /// Whether it got what it tried to get.
    pub won: bool,
}

/// What the words of a section and of its seat mean.
pub struct Meaning {
    /// The section's plain heap.
    pub heap: PlainHeap,
    /// The reference in the seat's register.
    pub got: Ref,
    /// The value that was stored last in a new cell.
    pub value: u32,
}

/// Where an object was made.
pub struct Place {
    /// Its cell.
    pub cell: u32,
    /// The season word that the seat had read.
    pub season: u64,
    /// The section's plain heap just before.
    pub heap: PlainHeap,
}

/// A plain step of a section.
pub struct PlainStep {
    /// The season word that the seat had read.
    pub season: u64,
    /// The section's plain heap afterwards.
    pub heap: PlainHeap,
}

/// What a section has come to by the steps of its seat.
pub struct SectionState {
    /// What its words mean.
    pub meaning: Meaning,
    /// Where its objects were made, in the order of their numbers.
    pub places: LinkedList<Place>,
    /// Its plain steps, in order.
    pub history: LinkedList<PlainStep>,
    /// How many commands were done, as stored last.
    pub position: u64,
    /// How many times the seat moved the season on.
    pub seasons: u64,
    /// The seat found the heap full.
    pub full: bool,
    /// The seat ended an exact cycle in the catalogue's turn, and has stored nothing since.
    pub settled: bool,
}

/// What a seat knows. No value of it is made.
pub struct View {
    /// The sizes of the heap.
    pub shape: Shape,
    /// The seat's record.
    pub state: SeatState,
    /// The steps that it took, in order.
    pub log: LinkedList<Entry>,
    /// Words that stay as the seat found or left them, by region and index. A word's first pair counts; with None the
    /// note has ended.
    pub known: LinkedList<((u32, u32), Option<u64>)>,
    /// Counters that don't fall below what the seat found or left, in the same form.
    pub floors: LinkedList<((u32, u32), Option<u64>)>,
    /// How many seats there are, if this is the first one.
    pub opened: u32,
    /// The operations of the catalogue, part by part, for good.
    pub plan: LinkedList<LinkedList<Op>>,
    /// What the seat's section has come to, if it has one.
    pub own: SectionState,
    /// The same of the seats that were joined into this one, by their numbers.
    pub joined: LinkedList<(u32, SectionState)>,
    /// Their logs, likewise.
    pub logs: LinkedList<(u32, LinkedList<Entry>)>,
}

/// What a token of the table has: that of a seat, or of a stamp of what a seat had seen.
pub struct TokenState {
    /// What the seat knows, or knew.
    pub view: View,
    /// Events of all seats in the order in which they happened, up to the seat's last step or later.
    pub seen: LinkedList<Event>,
    /// Histories that the seat was told.
    pub heard: LinkedList<LinkedList<Event>>,
    /// Whether it is a stamp, and no seat.
    pub stamp: bool,
}
