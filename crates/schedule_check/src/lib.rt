//! Written schedules: one interleaving of the collector's steps, read from a text and checked against the rules of
//! the mark core.
//!
//! A schedule is lines of words, separated by spaces. Line 1 is `gcschedule 1`; lines without a word, or whose
//! first word begins with `#`, are skipped from line 2 on. The first line that isn't skipped is `shape` with six
//! numbers: cells, packets, entries of a packet, sections, fields and seats. Every other line is an event: the
//! number of a seat, the name of a step, and the step's parameters in order. Cells and phases are their numbers,
//! false and true are 0 and 1, and `-` is none.
//!
//! [`tell_schedule`] does all of it for the bytes of a source:
//!
//! 1. [`read_schedule`] answers the schedule that the bytes are, or their one fault. The faults come in this order:
//!    too long, a foreign byte anywhere, then line by line.
//! 2. [`check`] answers the verdict. If each event is allowed in its turn the schedule is accepted, and the phase,
//!    the count of empty packets, how many cells are marked and in use, and whether marking is done are told of the
//!    end. Otherwise it is refused, at the line of the first event that isn't allowed, with the kind of its step
//!    and the least part of the step's condition that fails.
//! 3. [`write_verdict`] and [`write_schedule_fault`] write the texts.
//!
//! `gc_script` cuts lines into words and reads numbers of 32 bits. `table` has the names of all steps with the
//! forms of their parameters; each row is proved against the same table in `specs/Table.antt`.
#![tactic(auto)]

mod fault;
mod forms;
mod judge;
mod laws;
mod line;
mod parameters;
mod play;
mod reader;
mod schedule;
mod shape_line;
mod table;
mod tell;
mod verdict;
mod writer;

pub use fault::ScheduleFault;
pub use judge::check;
pub use laws::runs_are_accepted;
pub use line::Line;
pub use reader::read_schedule;
pub use schedule::Schedule;
pub use tell::{Told, Untold, tell_schedule};
pub use verdict::Verdict;
pub use writer::{write_schedule_fault, write_verdict};
