//! What a mutator and a tracer do with their seats between the calls of the collector.
//!
//! # A mutator
//!
//! Into the world and out of it, to its turn, to a cell, and one operation at a time. Each call takes a heap and a
//! seat, and asks for the facts that the types above keep (`specs/Standing.antt`).
//!
//! Where objects are shared, an assignment of a variable leaves its root as it was: the root lags. [`flush_turn`] stores
//! the roots that lag. It comes before each call that asks for a seat at rest: a collection, a safe point that waits, a
//! refill, leaving.
//!
//! # A tracer
//!
//! A tracer enters the world, reads the phase ([`see_phase`]), marks if marking is under way ([`mark_some`]), and
//! leaves. A stop waits until the turn has ended, so a turn is short:
//!
//! 1. it traces 64 objects, or fewer if at some moment nothing was left in hand and no packet with a cell was found;
//! 2. if there were fewer and the cycle is far on, it passes up to 1,024 cards and cleans the dirty ones. The stop
//!    cleans those that are dirtied again;
//! 3. deferred cells, which weren't published yet, stay where they are until the stop, or until a mutator that pays
//!    finds nothing else to trace. A play's tracers bring them back ([`mark_and_recycle`]).
//!
//! A [`Tracer`] owns a seat that is outside the world between two turns, so none of its calls asks for a proof.
#![tactic(auto)]

mod background;
mod dismissing;
mod flushing;
mod gates;
mod helping;
mod operations;
mod own_turn;
mod refused;
mod sharing;
mod tracer_marking;
mod tracer_turn;
mod try_turns;
mod turns;
mod weak;

pub use background::{Tracer, Turn, rest};
pub use dismissing::{tell_dismissed, try_dismiss};
pub use flushing::{collect_flushed, flush_turn, leave_flushed, make_flushed};
pub use gates::{collect_turn, enter_turn, leave, leave_turn, pass_turn, retire_own_cache};
pub use helping::TryHelp;
pub use operations::{make_in, make_object, read_value, refer_to_one, refers_to_nothing};
pub use own_turn::is_turn;
pub use refused::{NotOpened, Refused};
pub use sharing::{clear_slots_shared, get_shared, identity_shared, make_shared_in, word_of};
pub use tracer_marking::{mark_and_recycle, mark_some, see_phase};
pub use try_turns::TryTurn;
pub use turns::{TURN, keep_some, retire_some, with_free};
pub use weak::{Upgraded, Weak, upgrade_shared, weak_shared};
