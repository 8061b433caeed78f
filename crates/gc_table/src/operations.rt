//! The operations of the table, each as one step. The step is handed down for the rule only; nothing reads it as the
//! program runs (see `PicksStep`).
//!
//! Both calls ask that their seat may take the step at this word (`MayTake`), and promise that it has taken it
//! (`HasTaken`).
ghost use Rattle.std.specs.Prelude.{◌≡◌, IsFalse, IsTrue};
ghost use Rattle.gc_table.specs.Entries.{is_store};
ghost use Rattle.gc_table.specs.Operations.{HasTaken, left_by, MayTake, Writes};
ghost use Rattle.gc_table.specs.Seen.{Saw, StepsOn};
ghost use Rattle.gc_table.specs.Taking.{Finds, IsBlind};

use crate::rule::{AtFound, AtStored, PicksStep};
use crate::seat::Heap;
use crate::view::TokenState;
use atomic_table::Seat;
use mark_core::Step;

/// What an operation that tells the word it finds makes of this word.
#[derive(Clone, Copy)]
pub enum Operation {
    Load,
    Swap(u64),
    Add(u64),
    Sub(u64),
    /// It keeps these bits, and clears all others.
    Keep(u64),
    Set(u64),
    /// It stores `new` if it finds `old`.
    Exchange { old: u64, new: u64 },
}

impl Heap {
    /// Each caller names the operation, so none is chosen as the program runs.
    #[inline(always)]
    pub(crate) fn take_told<T: PicksStep>(
        &self,
        token: &mut Seat<(), TokenState>,
        word: usize,
        operation: Operation,
        _step: Step,
    ) -> u64
        requires step { _step ≡ T.step }
        requires take { MayTake self.now token.old word T.step }
        requires kind { Writes T.step (left_by operation) token.old.me.0.view }
        requires told { IsFalse (is_store T.step) }
        ensures taken { HasTaken T.step result token.old token.new }
        ensures finds { Finds T.step result token.old.me.0.view }
        ensures saw { Saw T.step result token.old.me.0 token.new.me.0 }
    {
        let table = &self.table.shared;
        match operation {
            Operation::Load => table.load::<AtFound<T>>(token, word),
            Operation::Swap(new) => table.swap::<AtFound<T>>(token, word, new),
            Operation::Add(by) => table.fetch_add::<AtFound<T>>(token, word, by),
            Operation::Sub(by) => table.fetch_sub::<AtFound<T>>(token, word, by),
            Operation::Keep(bits) => table.fetch_and::<AtFound<T>>(token, word, bits),
            Operation::Set(bits) => table.fetch_or::<AtFound<T>>(token, word, bits),
            Operation::Exchange { old, new } => {
                table.compare_exchange::<AtFound<T>>(token, word, old, new)
            }
        }
    }

    /// A store isn't told what it overwrites, so the step has to be blind to that.
    pub(crate) fn store_told<T: PicksStep>(
        &self,
        token: &mut Seat<(), TokenState>,
        word: usize,
        new: u64,
        _step: Step,
    )
        requires step { _step ≡ T.step }
        requires take { MayTake self.now token.old word T.step }
        requires kind { Writes T.step (λ _. new) token.old.me.0.view }
        requires blind { IsBlind T.step token.old.me.0.view }
        requires told { IsTrue (is_store T.step) }
        ensures taken { HasTaken T.step new token.old token.new }
        ensures goes { StepsOn T.step token.old.me.0 token.new.me.0 }
    {
        self.table.shared.store::<AtStored<T>>(token, word, new)
    }
}
