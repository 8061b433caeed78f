//! Threads act on one queue, one map or random graphs, in small heaps that collect thousands of times.
//!
//! What comes of it is compared, once the threads are joined, with numbers worked out by hand, which are the same under
//! every schedule. Each thread waits a bounded number of looks.
#![tactic(auto)]

#[cfg(test)]
mod tests;
