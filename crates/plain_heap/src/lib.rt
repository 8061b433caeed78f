//! What a script means: its heaps as they would be with no collector.
//!
//! A correct collector can't be observed. So what it has to preserve is written down here without it, and all that a
//! running heap prints, stores and keeps is compared with this: a heap that only grows, in which an object keeps its
//! number for good.
//!
//! # Sections
//!
//! Each section of a script has a heap of its own, a [`PlainHeap`]. Section 0 is the *catalogue*; the others are
//! *warehouses*, numbered from 1, which read what the catalogue holds and change nothing there.
//!
//! - An object's name is its section and its number.
//! - What the catalogue calls `Own(n)` a warehouse calls `Cat(n)`: a reference is *lent*, whether it comes from a
//!   variable or from a field. A warehouse may keep it in its own objects.
//! - A warehouse's store into an object of the catalogue is *dropped*; the heap only counts it.
//!
//! # Definitions
//!
//! `specs/` has those on which the crates above rest, each over the one before: `PlainHeap` and `PlainStep` (what each
//! operation does and prints), `Paths` (reachable objects and survivors), `Sections` (commands in parts, one for each
//! season), `PlainRun` (the heap after so many commands) and `Placement` (in which cells objects may lie, and when a
//! heap is full).
#![tactic(auto)]

mod heap;
mod memory;
mod object;
mod operation;
mod plan;

pub use heap::PlainHeap;
pub use memory::OutOfMemory;
pub use object::{Object, Ref};
pub use operation::{Line, Op};
pub use plan::{NoPlan, Plan};
