//! Cards: a mutator's barrier dirties them, and tracers clean them.
//!
//! While tracers read the fields of objects, mutators store in them, so an object that was scanned may refer to a white
//! cell. Then its card is dirty, and to clean the card is to scan its marked objects again (as in Boehm and others,
//! "Mostly parallel garbage collection", PLDI 1991, with pages for cards, and in Barabash and others, TOPLAS 2005,
//! whose cards these are). [`store_ref`] stores the field and then dirties the card, unless it finds it dirty;
//! [`clean_card`] clears the card and then scans. At each stands the interleaving that its order prevents.
//!
//! A marked cell whose allocation bit is clear is still being written by its maker, without a barrier: it isn't
//! scanned, and its card is dirtied again.
//!
//! # Passes
//!
//! While mutators run cards are drawn from one counter ([`next_card`], [`clean_next`]). In a stop each seat looks at
//! every card, by one load if the card is clean: the seat that drains and its helpers each from a stretch of its own on
//! ([`clean_dirty_round`]), so that they seldom meet, and a seat that is alone from the first one on ([`clean_dirty`]).
//!
//! # The end of a drain
//!
//! A seat that is alone sees to the roots once ([`see_to_roots`]). Then it traces and cleans in turns until every
//! reachable cell is marked ([`is_drained`]). Each can be done a part at a time ([`see_to_some`], [`dirty_between`],
//! [`clean_some`]).
#![tactic(auto)]

mod barrier;
mod card_pass;
mod cleaned;
mod cleaning;
mod dirty_cards;
mod drain_end;
mod next_cards;
mod one_card;
mod rescanning;
mod roots;
mod sharing;
mod taking;

pub use barrier::{store_ref, store_value};
pub use card_pass::next_card;
pub use cleaned::{Cleaned, CleanedCards};
pub use cleaning::clean_card;
pub use dirty_cards::{clean_dirty, clean_dirty_round, clean_some, dirty_between};
pub use drain_end::is_drained;
pub use next_cards::clean_next;
pub use one_card::clean_one;
pub use roots::{count_roots, see_to_roots, see_to_some};
pub use sharing::{exchange_ref, exchange_value, share_ref, share_value};
