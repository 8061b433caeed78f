//! A world whose mutators share all objects.
ghost use Rattle.std.specs.Prelude.{IfErr, IfNone, IfSome, OnOk};
ghost use Rattle.managed_heap_c.specs.Sharing.{Counts, GoesBack, LacksMutator, LendsSteps, Refuses, StaysOut, TakesBack};

use crate::sizes::CNumbers;
use seat_steps::Stepper;
use shared_heap::{SharedMutator, SharedWorld};

/// A mutator that nobody has, in steps.
pub fn lend_shared(world: &mut SharedWorld) -> Option<Stepper>
    ensures some { IfSome result (λ s. LendsSteps s world.old world.new) }
    ensures none { IfNone result (LacksMutator world.old world.new) }
{
    match world.mutator() {
        None => None,
        Some(mutator) => Some(mutator.into_steps()),
    }
}

fn give_shared(world: &mut SharedWorld, mutator: SharedMutator) -> Result<(), Stepper>
    ensures back { OnOk result (GoesBack mutator world.old world.new) }
    ensures refused { IfErr result (λ t. StaysOut mutator t world.old world.new) }
{
    match world.take_mutator(mutator) {
        Ok(()) => Ok(()),
        Err(mutator) => Err(mutator.into_steps()),
    }
}

/// Takes a mutator back. It is handed back also if it is of a world that shares no objects.
pub fn take_shared(world: &mut SharedWorld, stepper: Stepper) -> Result<(), Stepper>
    ensures back { OnOk result (TakesBack stepper world.old world.new) }
    ensures refused { IfErr result (λ t. Refuses stepper t world.old world.new) }
{
    match SharedMutator::of_steps(stepper) {
        Err(stepper) => Err(stepper),
        Ok(mutator) => give_shared(world, mutator),
    }
}

pub fn count_shared(world: &mut SharedWorld) -> CNumbers
    ensures counts { Counts world.old world.new result }
{
    let numbers = world.statistics();
    CNumbers {
        cells: numbers.cells,
        free: numbers.free,
        marked: numbers.marked,
    }
}
