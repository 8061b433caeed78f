//! The rule of the table, and what a step tells its seat.
ghost use Rattle.std.specs.Prelude.{◌≡◌, []};
ghost use Rattle.gc_table.specs.Notes.{look};
ghost use Rattle.gc_table.specs.Rule.{IsPossible};
ghost use Rattle.gc_table.specs.Seen.{OneHistory, Learns, newcomer_token, Recalls, Saw, sees, StepsOn};
ghost use Rattle.gc_table.specs.Taking.{after};

use crate::plan::PlanTag;
use crate::view::TokenState;
use atomic_table::{Play, TableRule};
use mark_core::Shape;
use std::marker::{Brand, PhantomData};

#[derive(Drop)]
pub struct Key {
    pub shape: Shape,
    pub plan: PlanTag,
}

/// What holds of the table between any two operations.
pub struct Rule;

impl TableRule<(), TokenState, Key> for Rule {
    ghost holds = { λ k. OneHistory k.shape k.plan.parts };

    ghost first = { λ k. newcomer_token k.shape k.plan.parts 0 };
}

/// Tells the rule which step an operation of the table is; the program needs no such value.
///
/// Each call of an operation is made at [`Brand`], whose step is picked anew there. It is the value that is handed to
/// the operation as `_step`: `ghosts-take_told a = record { step = a._step }`, in
/// `proofs/seat/Heap/take_step/Invariants.antt`, and so at each caller.
pub trait PicksStep {
    ghost use Rattle.mark_core.specs.declared.kinds.Step.{Step};

    ghost step: { Step };
}

/// An impl has to name a step. This one is never taken, as each call names its own.
impl PicksStep for Brand {
    ghost use Rattle.mark_core.specs.declared.kinds.Step.TheVariants.{ReadCount};

    ghost step = { ReadCount };
}

/// The word is as it was noted.
pub struct AtFound<T> {
    of: PhantomData<T>,
}

impl<T: PicksStep> Play<(), TokenState> for AtFound<T> {
    ghost then = { λ st m found n. (n ≡ (sees m.0 (after T.step found m.0.view) n.0.seen, [])) × IsPossible n.0.view × Recalls n.0 × Saw T.step found m.0 n.0 };
}

/// The word was written and not read.
pub struct AtStored<T> {
    of: PhantomData<T>,
}

impl<T: PicksStep> Play<(), TokenState> for AtStored<T> {
    ghost then = { λ st m new n. (n ≡ (sees m.0 (after T.step new m.0.view) n.0.seen, [])) × IsPossible n.0.view × Recalls n.0 × StepsOn T.step m.0 n.0 };
}

/// No step of the core: what the seat has seen then goes on from what it had seen, and from what it was told.
pub struct Learning;

impl Play<(), TokenState> for Learning {
    ghost then = { λ st m found n. (n ≡ (sees m.0 m.0.view n.0.seen, [])) × Recalls n.0 × Learns m.0 n.0 };
}
