//! What the program does: it plays scripts of mutations over a heap, and makes, converts and checks texts.
//!
//! The contract of `play_words` is what the program promises; `laws` has what follows for any two runs. Of `play` of
//! `gc_play` the commands know only `PlayAnswers` of `play_end`, and of `play_final` `FinalAnswers`.
#![tactic(auto)]

mod commands;
mod laws;
mod lines;
mod program;

pub use gc_play::{given_words, settle};
pub use laws::{
    answers_follow, conversions_answer, conversions_run_alike, dumps_alike, dumps_are_reached,
    dumps_tell_survivors, final_heaps_are_reached, loads_alike, one_final_heap, runs_alike,
    statuses_follow,
};
pub use program::play_words;
