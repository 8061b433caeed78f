//! Heaps of tests and benches: they are opened with their seats, the season moves on, objects are made, a cycle
//! ends in a stop, and the heap is closed. The conditions of these calls are proved here, once.
#![tactic(auto)]

mod checks;
mod closing;
mod command_line;
mod draining;
mod ending;
mod marking;
mod objects;
mod opening;
mod seasons;
mod shapes;

pub use checks::{
    are_bare, empty_handed, has_free, has_making, has_seen_phase, holds_nothing, is_bare, is_free,
    is_marking, is_ready, marks_as_mutator, may_mutate, work_in_hand,
};
pub use closing::{close_one, leaves, opens, try_close};
pub use command_line::{command_words, report};
pub use draining::{begins_sweep, drained, drains, resets, scans_all};
pub use ending::{end_clear, end_sweep};
pub use marking::{sees_marking, try_marking};
pub use objects::{forget, make, sees_season, take};
pub use opening::{next_seat, open, open_one};
pub use seasons::{enters, goes_on, next_turn, raises_own, stops_idle};
pub use shapes::SMALL;
