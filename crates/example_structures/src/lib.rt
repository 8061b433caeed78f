//! Structures that threads fill and empty together, in a heap whose objects they share: a queue of several producers
//! and consumers, and a hash map.
//!
//! Both are changed by exchanges of references. There is no lock: a thread that loses an exchange looks again, and then
//! another has won one. Whoever has a reference in a variable keeps its object, so no other is ever taken for it (no
//! ABA).
//!
//! No call asks for a proof. Each answers by name why it was refused, as those of `shared_heap` do.
#![tactic(auto)]

mod calls;
mod chain;
mod hands;
mod laws;
mod map;
mod queue;

pub use hands::CALLERS;
pub use laws::fits_by_calls;
pub use map::SharedMap;
pub use queue::SharedQueue;
