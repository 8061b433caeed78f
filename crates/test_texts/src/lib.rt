//! What is read and what is written, byte by byte, with answers worked out by hand.
#![tactic(auto)]

#[cfg(test)]
mod tests;
