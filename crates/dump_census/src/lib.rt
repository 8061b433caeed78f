//! A census of a dump: how many of the records have each level, belong to each section, and have each value.
//!
//! The level of a record is the least number of references in a path to it from a record that a variable refers to;
//! a record that no path reaches has none.
//!
//! Levels are found in rounds (`levels`, `search`): the records that variables refer to have level 0, and each
//! round gives the next level to those records without one that the records of the last round refer to. So each
//! record and each reference is looked at once, and a chain of n records costs n small rounds. All else is read and
//! counted by several threads, each a range of records; values are sorted first, so that equal ones stand together.
#![tactic(auto)]

mod counting;
mod counts;
mod entries;
mod laws;
mod levels;
mod search;
mod sections;
mod text;
mod values;

pub use counting::census;
pub use counts::{Census, SectionCount, ValueCount};
pub use laws::{one_census, survivors_are_reached};
pub use text::write_census;
