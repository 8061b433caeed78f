//! Whole runs of the program, from the words and the bytes in to the bytes out.
#![tactic(auto)]

#[cfg(test)]
mod tests;
