//! Blocks are swept, or cleared of their marks, and handed out in stretches.
//!
//! One counter hands them out, as many at a time as the heap's shape says: so seats seldom meet at its cache line, or
//! at one with words of each other's blocks. A seat reads the counter before it raises it, so each raises it past its
//! end at most once. Only a seat that is alone resets it; until then a block is swept by one seat.
//!
//! A swept block keeps the cells that are allocated and marked. Its allocation bits are stored before its marks are
//! cleared, and only blocks in a seat's stretch may have marks left. So "no cell is marked" is known at the end of a
//! sweep without reading a mark: the counter is at its end, and no block is in hand.
#![tactic(auto)]

mod blocks;
mod resting;
mod sweeping;
mod swept;

pub use resting::{clear_rest, sweep_rest};
pub use sweeping::{clear_marks_next, sweep_next};
pub use swept::Swept;
