//! An event of a run, by its words: a seat, the name of a step, and its parameters, as in a schedule, with the steps of
//! shared objects and of slots.
use mark_core::{Cell, CoreState, Event, Rule, Step, phase_of};
use std::str::SplitWhitespace;

/// The parameters of a step. One that is no number or left out is as great as may be: no allowed step has it.
#[derive(Clone, Copy)]
struct Parameters {
    words: [u64; 4],
}

impl Parameters {
    fn read(told: SplitWhitespace<'_>) -> Parameters {
        let mut words = [u64::MAX; 4];
        for (word, number) in words.iter_mut().zip(told) {
            *word = number.parse::<u64>().unwrap_or(u64::MAX);
        }
        Parameters { words }
    }

    fn long(&self, i: usize) -> u64 {
        self.words.get(i).copied().unwrap_or(u64::MAX)
    }

    fn number(&self, i: usize) -> u32 {
        u32::try_from(self.long(i)).unwrap_or(u32::MAX)
    }

    fn slot(&self, i: usize) -> u16 {
        u16::try_from(self.long(i)).unwrap_or(u16::MAX)
    }

    fn byte(&self, i: usize) -> u8 {
        u8::try_from(self.long(i)).unwrap_or(u8::MAX)
    }

    fn cell(&self, i: usize) -> Cell {
        Cell::make(self.number(i))
    }

    /// A variable, or none.
    fn variable(&self, i: usize) -> Option<u8> {
        u8::try_from(self.long(i)).ok()
    }
}

fn of_packets(name: &str, told: Parameters) -> Option<Step> {
    Some(match name {
        "reserve" => Step::Reserve,
        "take" => Step::Take {
            q: told.byte(0),
            p: told.number(1),
        },
        "give" => Step::Give {
            p: told.number(0),
            deferred: told.number(1) == 1,
        },
        "credit" => Step::Credit,
        "push" => Step::Push {
            p: told.number(0),
            cell: told.cell(1),
        },
        "pop" => Step::Pop { p: told.number(0) },
        "read_count" => Step::ReadCount,
        "store_length" => Step::StoreLength { p: told.number(0) },
        "read_length" => Step::ReadLength { p: told.number(0) },
        _ => return None,
    })
}

fn of_marking(name: &str, told: Parameters) -> Option<Step> {
    Some(match name {
        "read_alloc" => Step::ReadAlloc { b: told.number(0) },
        "read_field" => Step::ReadField {
            c: told.cell(0),
            i: told.byte(1),
        },
        "read_root" => Step::ReadRoot {
            section: told.number(0),
            v: told.byte(1),
        },
        "load_slot" => Step::LoadSlot {
            section: told.number(0),
            k: told.slot(1),
        },
        "set_mark" => Step::SetMark { c: told.cell(0) },
        "dirty_card" => Step::DirtyCard {
            card: told.number(0),
        },
        "check_card" => Step::CheckCard {
            card: told.number(0),
        },
        "clear_card" => Step::ClearCard {
            card: told.number(0),
        },
        "read_marks" => Step::ReadMarks { b: told.number(0) },
        "read_phase" => Step::ReadPhase,
        _ => return None,
    })
}

fn of_mutators(name: &str, told: Parameters) -> Option<Step> {
    Some(match name {
        "read_own" => Step::ReadOwn {
            c: told.cell(0),
            i: told.byte(1),
        },
        "read_value" => Step::ReadValue { c: told.cell(0) },
        "read_ident" => Step::ReadIdent { c: told.cell(0) },
        "read_cat" => Step::ReadCat { v: told.byte(0) },
        "store_field" => Step::StoreField {
            v: told.byte(0),
            i: told.byte(1),
            w: told.variable(2),
        },
        "store_value" => Step::StoreValue {
            v: told.byte(0),
            n: told.number(1),
        },
        "store_root" => Step::StoreRoot {
            v: told.byte(0),
            r: told.long(1),
        },
        "store_new" => Step::StoreNew {
            c: told.cell(0),
            part: told.byte(1),
            word: told.long(2),
        },
        _ => return None,
    })
}

fn of_sharers(name: &str, told: Parameters) -> Option<Step> {
    Some(match name {
        "exchange_field" => Step::ExchangeField {
            v: told.byte(0),
            i: told.byte(1),
            expected: told.variable(2),
            new: told.variable(3),
        },
        "exchange_value" => Step::ExchangeValue {
            v: told.byte(0),
            expected: told.number(1),
            new: told.number(2),
        },
        "store_slot" => Step::StoreSlot {
            k: told.slot(0),
            r: told.long(1),
        },
        "read_slot" => Step::ReadSlot { k: told.slot(0) },
        "read_weak" => Step::ReadWeak { c: told.cell(0) },
        "hold_root" => Step::HoldRoot {
            v: told.byte(0),
            r: told.long(1),
        },
        "flush_root" => Step::FlushRoot { v: told.byte(0) },
        _ => return None,
    })
}

fn of_the_world(name: &str, told: Parameters) -> Option<Step> {
    Some(match name {
        "enter_step" => Step::EnterStep,
        "leave_step" => Step::LeaveStep,
        "raise_step" => Step::RaiseStep,
        "observe" => Step::Observe,
        "drop_step" => Step::DropStep,
        "store_phase" => Step::StorePhase {
            to: phase_of(told.long(0)),
        },
        "open_step" => Step::OpenStep,
        "join_help_step" => Step::JoinHelpStep,
        "leave_help_step" => Step::LeaveHelpStep,
        "close_step" => Step::CloseStep,
        "see_help" => Step::SeeHelp,
        "read_season" => Step::ReadSeason,
        "next_season" => Step::NextSeason,
        _ => return None,
    })
}

fn of_blocks(name: &str, told: Parameters) -> Option<Step> {
    Some(match name {
        "claim_block" => Step::ClaimBlock { b: told.number(0) },
        "release_block" => Step::ReleaseBlock,
        "read_free" => Step::ReadFree,
        "publish_cells" => Step::PublishCells,
        "next_block" => Step::NextBlock,
        "read_block_marks" => Step::ReadBlockMarks,
        "store_alloc" => Step::StoreAlloc,
        "clear_marks" => Step::ClearMarks,
        "store_named" => Step::StoreNamed,
        "reset" => Step::Reset {
            which: told.byte(0),
        },
        "read_stat" => Step::ReadStat {
            which: told.byte(0),
        },
        _ => return None,
    })
}

fn step_of(name: &str, told: Parameters) -> Option<Step> {
    of_packets(name, told)
        .or(of_marking(name, told))
        .or(of_mutators(name, told))
        .or(of_sharers(name, told))
        .or(of_the_world(name, told))
        .or(of_blocks(name, told))
}

/// Applies the event of these words: the rule by which it is refused, if it is. None if there is no such event.
pub fn applied(core: &mut CoreState, told: &str) -> Option<Result<(), Rule>> {
    let mut words = told.split_whitespace();
    let seat = words.next()?.parse::<u32>().ok()?;
    let name = words.next()?;
    let step = step_of(name, Parameters::read(words))?;
    match core.apply(Event { seat, step }) {
        Ok(()) => Some(Ok(())),
        Err(refusal) => Some(Err(refusal.rule)),
    }
}
