//! The dump of a final heap: the objects that a play leaves, as bytes that say them in one way only.
//!
//! A dump is the eight bytes `gcdump 1` and then big-endian numbers of four bytes: how many fields an object has (1
//! to 16), how many sections there are (1 to 33), how many records (at most 65,536), 32 references for each
//! section, and the records, each a section, a number, a value and its references. A reference is 0 for nil and k +
//! 1 for record k, and names a record of its own section or of section 0. The records rise by section and number.
//!
//! Bytes that are no dump have one first fault ([`DumpError`]): of the head, the length, the records, the roots,
//! and the fields of records, in this order, so whatever is read of a dump is in range.
#![tactic(auto)]

mod check;
mod fault;
mod final_heap;
mod frame;
mod reader;
mod text;
mod writer;

pub use fault::DumpError;
pub use final_heap::{FinalHeap, FinalRecord};
pub use reader::{Dump, Record, one_dump, read_dump};
pub use text::{write_dump_fault, write_undump};
pub use writer::write_dump;
