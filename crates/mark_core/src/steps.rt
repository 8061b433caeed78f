//! The steps: for each kind its condition and its effect.
//!
//! A function `check_..` answers the least part of its kind's condition that fails; a comment says what would go wrong
//! without the condition. The effect changes the seat's record, and answers what the word becomes.
pub mod cleaning;
pub mod colour;
pub mod help;
pub mod making;
pub mod mutator;
pub mod packets;
pub mod phase;
pub mod season;
pub mod sweep;
pub mod world;
