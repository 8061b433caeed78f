//! The core on one table of atomic words, which threads share.
//!
//! `mark_core` says which seat may do what to which word when. Here threads hold the seats, and each step of the core
//! is one call ([`Heap::take`], [`Heap::read_field`] and so on): one atomic operation on one word, which waits for
//! nobody and takes no memory, with the change of the seat's record. Nothing else changes a word.
//!
//! # Views
//!
//! A thread can't know what others do meanwhile. What a seat knows is its [`view::View`], which only contracts see. Its
//! notes are words that stay as the seat found or left them: all that it reads while it is alone in a stopped world,
//! but the words that count seats; the phase while a helper is admitted, the season while a seat is active.
//! `mark_core`'s `Notes` says which record keeps which word.
//!
//! # The rule
//!
//! Between any two steps, whatever threads do, the rule holds (`specs/Rule.antt`):
//!
//! - The words and records meet the rule of the core, and no block that was swept has a mark.
//! - The words stand for the plain heaps, if objects aren't shared (`specs/StandsFor.antt`). One cell of a section may
//!   be excepted: the one made last, until a variable gets it.
//! - What is told of the sections is true (`specs/Told.antt`), and each view agrees with words and records.
//! - The events of all seats, in one order, lead from the start to these words and records, and the log of each seat is
//!   its part of them (`specs/Past.antt`). So no word changes but by a step in a log, and no log has a word that wasn't
//!   there. The start is a single seat; it makes the others (`Split`), and takes them in at the end (`Join`).
//! - What a seat or a stamp has seen is the beginning of these events (`specs/Seen.antt`). So all logs are parts of one
//!   run while the heap is open too (`seats_share_run`), and a seat that learns a stamp goes on from it (`order_kept`).
//!
//! # Steps
//!
//! A seat may take a step if its condition (`docs/STEPS.md`) holds in every state that meets the rule and agrees with
//! its view (`May` in `specs/Taking.antt`). More is asked of a few steps (`Asked`). No call takes a runtime, and nothing
//! can wait without one: a lock could not even be written.
//!
//! A call of the crates above did what it added to its seat's log (`Ran` in `specs/Running.antt`). `Only` says of which
//! sort the steps were; what they left as it was follows (`proofs/Running.antt`, `proofs/Noticing.antt`). `Known` and
//! `AtLeast` are notes and floors; `Alone` says that the seat has stopped the world and nobody else is in it.
#![tactic(auto)]

pub mod ends;
mod laws;
mod masks;
pub mod mutator;
mod operations;
pub mod packets;
mod plan;
pub mod resting;
mod rule;
mod run_laws;
pub mod seat;
pub mod stamps;
mod stepping;
pub mod sweep;
pub mod tracing;
pub mod view;
pub mod words;
pub mod world;

pub use laws::{
    closed_heaps_ran, one_cell_is_next, one_meaning_changes, plain_steps_are_in_range,
    reachable_cells_have_objects, reachable_objects_have_cells, rule_is_kept, rule_starts,
    stands_is_kept, stands_starts,
};
pub use run_laws::{
    counter_told, death_told, events_agree, field_won_once, histories_keep_weak, lock_held,
    lost_for_good, none_forgotten, none_freed, objects_stay, one_object_lent, one_order,
    order_kept, raises_counted, reached_have_cells, reads_tell, root_found, runs_agree, same_words,
    seats_see_runs, seats_share_run, stamps_share_runs, start_agrees, steps_find, steps_follow,
    threads_free_none, threads_share_one_heap, unshared_stores, weak_remembered, wins_told,
    won_once,
};
pub use seat::{Heap, HeapSeat, Stamp};
pub use words::{Room, Words};
