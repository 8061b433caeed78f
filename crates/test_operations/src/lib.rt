//! Sequences of the operations by which mutators, tracers and the seat that stops the world use the running heap.
//!
//! The condition of each call is proved. Answers are compared with numbers worked out by hand, which are the same under
//! every schedule.
#![tactic(auto)]

#[cfg(test)]
mod tests;
