//! Tracing: grey cells are taken out of packets, and what they refer to is marked and goes into packets.
//!
//! Any seat that may trace and holds no packet calls [`trace`] with a quota, [`scan_roots`] and [`recycle_deferred`]: a
//! mutator that pays for its cells, a background tracer, a helper in a stop, or the seat that stopped the world. They
//! share only the packets, so tracing needs no lock and no list of who works on what: the work packets of Ossia and
//! others, 2002, and Barabash and others, TOPLAS 2005.
//!
//! # One object
//!
//! 1. A cell is *popped* out of the input packet.
//! 2. Its allocation bit is read. Only a published object is scanned: the words of any other are its maker's.
//! 3. If the bit is set, the cell is in *scan*: what each field names is marked, and pushed into a packet if it was
//!    white.
//! 4. If it is clear, the cell is *deferred*: it is pushed into a third packet, which goes into the deferred pool.
//!    Nobody pops out of that pool, so no quota is spent on cells that can't be scanned. [`recycle_deferred`] moves the
//!    packets back once caches were published.
//! 5. If a cell finds no packet with room, its card is dirtied, and cleaning that card will find it.
//!
//! A cell in hand ends in one of these ways and in no other (`specs/Ends.antt`).
//!
//! # Packets
//!
//! A tracer pops out of one packet and pushes into it, which has room after each pop: what was found last is traced
//! first, and its words are still near. So one packet suffices for a heap of any size. Now and then the tracer looks
//! whether the pools have a packet with cells ([`lacks_work`]). If they have none and it has cells to spare, it pushes
//! into a second packet; at its next look it goes on with that one and gives the first away.
//!
//! # What a trace has tried
//!
//! From one share to the next a trace looks for packets with room as one call does ([`Search`](packet_pools::Search)):
//! it goes through the high pool once, and then leaves cells to their cards. With each share its search begins anew,
//! since it may have emptied packets itself. So a look for room comes once for each packet that was filled, and a trace
//! has a bound that is a sum (`trace_steps` in `specs/StepBounds.antt`).
//!
//! # What an answer says
//!
//! [`Stopped::NoWork`] says that at some moment of the call nothing was left in hand, and that the search that followed
//! missed each packet. Others may give packets back meanwhile: that tracing is done is told by `all_empty` of
//! `packet_pools`.
#![tactic(auto)]

mod deferring;
mod finding;
mod packets;
mod recycling;
mod roots;
mod sharing;
mod traced;
mod tracing;

pub use recycling::recycle_deferred;
pub use roots::scan_roots;
pub use sharing::lacks_work;
pub use traced::{RootScan, Stopped, Traced};
pub use tracing::trace;
