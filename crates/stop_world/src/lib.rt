//! The world of mutators is stopped and goes on, and helpers are let into a stopped world.
//!
//! # A stop
//!
//! One word counts the seats that run, and has a flag.
//!
//! 1. A seat outside raises the flag ([`raise`]). If another's is up it waits like everybody.
//! 2. The seats that run see the flag at their next safe point ([`poll`]), give back all that they have in hand and
//!    leave ([`leave`]). A seat that enters meanwhile finds the flag and is out again ([`enter`]).
//! 3. When no seat is left the world has stopped, and the seat whose flag it is knows it ([`await_stopped`]). The phase
//!    is Idle, Marking or Full, and only this seat moves it.
//! 4. The flag is cleared and the seat runs, in one step ([`resume`]), so that no other stop comes between.
//!
//! # Help
//!
//! A second word counts helpers, with a flag of its own. The seat that stopped the world may open it to helpers
//! ([`open_help`], [`join_help`], [`leave_help`]). Until it has closed help and the last helper has left
//! ([`close_help`]) it isn't alone: it can note only the phase, and doesn't move it. A seat that doesn't wait closes it in
//! tries ([`shut_help`], [`finds_alone`]).
//!
//! Only [`await_stopped`], [`await_resumed`] and [`close_help`] wait for another thread. No call promises that a wait
//! ends.
#![tactic(auto)]

mod gates;
mod helping;
mod waiting;

pub use gates::{Raised, enter, leave, poll, raise, resume};
pub use helping::{close_help, finds_alone, join_help, leave_help, open_help, shut_help};
pub use waiting::{await_resumed, await_stopped};
