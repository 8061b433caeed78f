//! The commands of a mutator, each as the steps that do it and as the one step of the plain heap that it is.
//!
//! A command is a few loads, and at most one store that the plain heap sees. So it takes effect at one step, and no
//! other thread sees half of it.
//!
//! A variable's word is 0 for nil, or the number of a cell plus 1. The seat's record has a copy of its section's
//! variables, so a variable is read without a load. A field or a variable of the catalogue is loaded into the seat's
//! register, and goes from there into a variable. A command leaves the register empty: if the walk of `sum` doesn't end
//! at nil, it stores its variable in itself.
//!
//! Where objects are shared, an assignment changes the variable in the record alone, by a load: its root lags. The roots
//! that lag are stored by [`flush_roots`], at the latest before the seat leaves the world.
//!
//! A warehouse stores in no object of the catalogue. [`set`] and [`put`] read the object's identity first; if it is the
//! catalogue's they drop the store, and answer true.
#![tactic(auto)]

mod commands;
mod flushing;
mod making;
mod objects;
mod placing;
mod reading;
mod sharing;
mod upgrading;
mod variables;
mod weak;

pub use commands::{Done, command};
pub use flushing::flush_roots;
pub use making::create;
pub use objects::{put, set};
pub use placing::cell_of_variable;
pub use reading::{say, sum};
pub use sharing::{
    share_copy, share_count, share_create, share_exchange, share_fill, share_follow, share_forget,
    share_lend, share_put, share_set, share_spill, share_value_of,
};
pub use upgrading::share_upgrade;
pub use variables::{assign, clear, follow, lend};
pub use weak::share_weak;
