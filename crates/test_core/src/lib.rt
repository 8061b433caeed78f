//! Whole cycles of the core as lists of events, which tests read from texts, and sequences of the table's typed steps;
//! with counts and words worked out by hand.
//!
//! `proofs/Rows.antt` and `proofs/Runs.antt` have more runs, which the definitions of the core compute. If a step's
//! condition speaks of the seat's record, the test looks at the record first, and fails if the condition isn't met.
#![tactic(auto)]

#[cfg(test)]
mod tests;
