//! Numbers of pools, counters and statistics, and those that all heaps have in common. `docs/CYCLE.md` says when a
//! counter or a statistic rises and falls.

/// The pool of empty packets, which a word of its own counts.
pub const EMPTY_POOL: u8 = 0;

/// The pool of packets that are less than half full.
pub const LOW_POOL: u8 = 1;

/// The pool of packets that are at least half full.
pub const HIGH_POOL: u8 = 2;

/// The pool of packets with cells that weren't published.
pub const DEFERRED_POOL: u8 = 3;

/// How many pools there are.
pub const POOLS: u8 = 4;

/// The next card of the pass; it runs on past the last.
pub const CARD_COUNTER: u8 = 0;

/// The next block of the sweep, or of clearing; it runs on past the last.
pub const BLOCK_COUNTER: u8 = 1;

/// How many cells were marked in the last cycle. The first statistic.
pub const LAST: u8 = 2;

/// How many objects were scanned again in the last cycle's stop.
pub const RESCANNED: u8 = 3;

/// How many objects were traced in this cycle.
pub const TRACED: u8 = 4;

/// How many cells are free, all at first. The last that `Reset` takes.
pub const FREE: u8 = 5;

/// How many parts the sections have played. The last statistic.
pub const DONE: u8 = 6;

/// The section that found the heap full (`StoreNamed`). Only `ReadStat` takes this number.
pub const NAMED_SECTION: u8 = 7;

/// How many commands section 0 has done (`StorePosition`); for another section add its number. Only `ReadStat` takes
/// it.
pub const FIRST_POSITION: u8 = 8;

/// How many variables a section has.
pub const VARIABLES: u8 = 32;

/// How many seats there can be: 33 sections and 8 tracers.
pub const SEATS: u32 = 41;

/// How many bits a word has.
pub const WORD_BITS: u32 = 64;

/// What the word of empty packets holds beside their count: it stays above 0 if each seat has lowered it by 1.
pub const EMPTY_OFFSET: u64 = 64;

/// An identity is its section times this, plus the object's number in the section.
pub const SECTION_SPAN: u64 = 4_294_967_296;

/// Values are below this.
pub const VALUE_BOUND: u64 = 4_294_967_296;
