//! Packets of grey cells, which tracers take from pools, fill, empty and give back.
//!
//! A packet in a pool is anybody's, so a tracer can leave its cells to another; one in hand is its holder's.
//!
//! # What a seat has in hand
//!
//! A grey cell that is in no packet is in the record of one seat:
//!
//! - *popped*: a cell that came out of a packet. Once its allocation bit was read it is in scan; if it isn't published
//!   yet, it goes back into a packet or its card is dirtied;
//! - *scan*: the object whose fields are read, and the next field;
//! - *value*: a cell that was loaded from a field or a root, and isn't marked yet;
//! - *fresh*: a cell that this seat marked.
//!
//! A seat with any of these holds a packet, so it takes one before it gives its last one back.
//!
//! # Pools
//!
//! A packet goes back to the pool of its length (empty, low or high), or to the deferred pool, if its cells can't be
//! scanned yet. [`take_input`] looks in the high pool first, and [`take_output`] in the empty one, so both need few
//! looks. A seat holds at most four packets, and at most three as it calls what may take another.
//!
//! A search that answers None *missed* each packet in each pool that it asked (`specs/Seeking.antt`): it saw the packet
//! outside, lost it to another seat, or (only [`take_output`], in the high pool) took it and found it full.
//!
//! # What a call tries
//!
//! A full packet is changed for one with room: at first as [`take_output`] finds it. Once the empty and the low pool had
//! none, the call goes through the high pool, from where it stopped, and fills each packet with room; then marks go to
//! their cards. So each search but two, the last among empty and low packets and the pass over the high pool, is paid by
//! cells that fill a packet (`room_left` in `specs/StepBounds.antt`), and a card is dirtied only after each packet was
//! missed or filled in this call (`all_tried` in `specs/Tried.antt`).
//!
//! docs/CYCLE.md says why one count tells that nothing is left ([`all_empty`]).
#![tactic(auto)]

mod deferred;
mod entries;
mod giving;
mod held;
mod lengths;
mod marking;
mod quiet;
mod room;
mod scanned;
mod scanning;
mod search;
mod seeking;
mod taking;

pub use deferred::take_deferred_at;
pub use entries::{pop, push};
pub use giving::give;
pub use held::{Held, PacketFull};
pub use marking::mark_cell;
pub use quiet::all_empty;
pub use room::take_other;
pub use scanned::Scanned;
pub use scanning::{scan_again, scan_cell, scan_whole};
pub use search::Search;
pub use taking::{take_deferred, take_input, take_output};
