//! Garbage goes: laws about all runs of the core, and about what threads do with an open table.
#![tactic(auto)]

ghost use Rattle.garbage_laws.specs.Calls.{CallsFreeGarbage};
ghost use Rattle.garbage_laws.specs.Garbage.{GarbageGoes};
ghost use Rattle.garbage_laws.specs.OpenTables.{TableGarbageGoes};

/// A cell in use that no path leads to while the phase is Idle isn't marked in the cycle that comes, and is free once it
/// has ended, whatever threads do meanwhile. A path begins at a root, at what a seat has, or at what a weak read finds
/// until then.
#[tactic(auto, using(crate::proofs::Goes::garbage_goes))]
pub fn garbage_goes()
    ensures { GarbageGoes }
{}

/// The same of an open table, whatever other threads do: no step finds a cell marked that was garbage in Idle, until the
/// cycle has ended, and the step that ends it leaves no such cell in use.
#[tactic(auto, using(crate::proofs::OpenTables::table_garbage_goes))]
pub fn table_garbage_goes()
    ensures { TableGarbageGoes }
{}

/// The same of each call that ended a cycle: one of its steps freed what was garbage in Idle.
#[tactic(auto, using(crate::proofs::Calls::calls_free_garbage))]
pub fn calls_free_garbage()
    ensures { CallsFreeGarbage }
{}
