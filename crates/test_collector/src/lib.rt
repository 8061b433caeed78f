//! Whole cycles of the collector, as mutators and threads that wait see them.
//!
//! The condition of each call is proved, or the test first looks in the seat's record whether it holds. Answers are
//! compared with numbers worked out by hand, which are the same under every schedule.
#![tactic(auto)]

#[cfg(test)]
mod tests;
