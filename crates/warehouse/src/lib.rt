//! The player of a section: one part of it, on the heap that all sections share.
//!
//! Before each command the mutator polls. If a stop is under way it gives its cache back, stores how far it has come,
//! leaves, helps, and enters again. It stores only in its section's turn: the season word is even for the catalogue,
//! and odd for the warehouses. It was outside in a stop, so it reads the season once more after one. A `new` needs a
//! cell, from the cache or from a refill, after which it polls again.
//!
//! What the section prints and makes has its room before the first command. No command is done after the heap was found
//! full: the stored position is then how many commands the mutator did.
#![tactic(auto)]

mod commands;
mod gate;
mod mutator;
mod part;
mod season;
mod turn;

pub use gate::Gate;
pub use mutator::Mutator;
pub use part::{play_absent, play_part};
pub use play_end::Played;
pub use season::{end_play, turn_season};
