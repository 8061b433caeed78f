//! The passes into which the kinds of step fall.
ghost use Rattle.std.specs.Prelude.{◌≡◌};
ghost use Rattle.mark_core.specs.Passes.{pass_of as pass_of_step};
ghost use Rattle.mark_core.specs.Kinds.{kind_of as kind_of_step};

use crate::kinds::Step;

#[derive(Clone, Copy)]
pub enum Pass {
    Packets,
    Colour,
    Mutator,
    Making,
    World,
    Sweep,
    Counters,
    Help,
}

#[inline(always)]
pub fn pass_of(step: &Step) -> Pass
    ensures { result ≡ pass_of_step step.now }
{
    match *step {
        Step::Reserve
        | Step::Take { q: _, p: _ }
        | Step::Give { p: _, deferred: _ }
        | Step::Credit
        | Step::Push { p: _, cell: _ }
        | Step::Pop { p: _ }
        | Step::Look { q: _, g: _ }
        | Step::ReadCount
        | Step::StoreLength { p: _ }
        | Step::ReadLength { p: _ } => Pass::Packets,
        Step::ReadAlloc { b: _ }
        | Step::ReadField { c: _, i: _ }
        | Step::ReadRoot { section: _, v: _ }
        | Step::LoadSlot { section: _, k: _ }
        | Step::SetMark { c: _ }
        | Step::DirtyCard { card: _ }
        | Step::CheckCard { card: _ }
        | Step::ClearCard { card: _ }
        | Step::ReadMarks { b: _ }
        | Step::ReadCard { card: _ }
        | Step::ReadPhase => Pass::Colour,
        Step::ReadOwn { c: _, i: _ }
        | Step::ReadValue { c: _ }
        | Step::ReadIdent { c: _ }
        | Step::ReadCat { v: _ }
        | Step::StoreField { v: _, i: _, w: _ }
        | Step::StoreValue { v: _, n: _ }
        | Step::StoreRoot { v: _, r: _ }
        | Step::StoreSlot { k: _, r: _ }
        | Step::ReadSlot { k: _ }
        | Step::ReadWeak { c: _ }
        | Step::HoldRoot { v: _, r: _ }
        | Step::FlushRoot { v: _ }
        | Step::ExchangeField {
            v: _,
            i: _,
            expected: _,
            new: _,
        }
        | Step::ExchangeValue {
            v: _,
            expected: _,
            new: _,
        } => Pass::Mutator,
        Step::ClaimBlock { b: _ }
        | Step::ReleaseBlock
        | Step::ReadFree
        | Step::StoreNew {
            c: _,
            part: _,
            word: _,
        }
        | Step::PublishCells => Pass::Making,
        Step::EnterStep
        | Step::LeaveStep
        | Step::RaiseStep
        | Step::Observe
        | Step::DropStep
        | Step::StorePhase { to: _ }
        | Step::Split
        | Step::Join { other: _ } => Pass::World,
        Step::NextBlock
        | Step::NextOfCards
        | Step::ReadBlockMarks
        | Step::StoreAlloc
        | Step::ClearMarks
        | Step::WipeCard { card: _ } => Pass::Sweep,
        Step::StorePosition { done: _ }
        | Step::StoreNamed
        | Step::Reset { which: _ }
        | Step::AddStat {
            which: _,
            by: _,
            down: _,
        }
        | Step::ReadStat { which: _ } => Pass::Counters,
        Step::OpenStep
        | Step::JoinHelpStep
        | Step::LeaveHelpStep
        | Step::CloseStep
        | Step::SeeHelp
        | Step::ReadSeason
        | Step::NextSeason => Pass::Help,
    }
}

pub fn kind_of(step: &Step) -> u8
    ensures { result ≡ kind_of_step step.now }
{
    match pass_of(step) {
        Pass::Packets => of_packets(step),
        Pass::Colour => of_colour(step),
        Pass::Mutator => of_mutator(step),
        Pass::Making => of_making(step),
        Pass::World => of_world(step),
        Pass::Sweep => of_sweep(step),
        Pass::Counters => of_counters(step),
        Pass::Help => of_help(step),
    }
}

fn of_packets(step: &Step) -> u8
    requires { pass_of_step step.now ≡ Pass.Packets }
    ensures { result ≡ kind_of_step step.now }
{
    match *step {
        Step::Reserve => 1,
        Step::Take { q: _, p: _ } => 2,
        Step::Give { p: _, deferred: _ } => 3,
        Step::Credit => 4,
        Step::Push { p: _, cell: _ } => 5,
        Step::Pop { p: _ } => 6,
        Step::Look { q: _, g: _ } => 7,
        Step::ReadCount => 8,
        Step::StoreLength { p: _ } => 41,
        Step::ReadLength { p: _ } => 42,
        _ => unreachable!(),
    }
}

fn of_colour(step: &Step) -> u8
    requires { pass_of_step step.now ≡ Pass.Colour }
    ensures { result ≡ kind_of_step step.now }
{
    match *step {
        Step::ReadAlloc { b: _ } => 9,
        Step::ReadField { c: _, i: _ }
        | Step::ReadRoot { section: _, v: _ }
        | Step::LoadSlot { section: _, k: _ } => 10,
        Step::SetMark { c: _ } => 11,
        Step::DirtyCard { card: _ } => 12,
        Step::ClearCard { card: _ } => 13,
        Step::ReadMarks { b: _ } => 14,
        Step::ReadCard { card: _ } => 15,
        Step::ReadPhase => 16,
        Step::CheckCard { card: _ } => 55,
        _ => unreachable!(),
    }
}

fn of_mutator(step: &Step) -> u8
    requires { pass_of_step step.now ≡ Pass.Mutator }
    ensures { result ≡ kind_of_step step.now }
{
    match *step {
        Step::ReadOwn { c: _, i: _ }
        | Step::ReadValue { c: _ }
        | Step::ReadIdent { c: _ }
        | Step::ReadCat { v: _ } => 17,
        Step::StoreField { v: _, i: _, w: _ } | Step::StoreValue { v: _, n: _ } => 18,
        Step::StoreRoot { v: _, r: _ } => 19,
        Step::ExchangeField {
            v: _,
            i: _,
            expected: _,
            new: _,
        } => 50,
        Step::ExchangeValue {
            v: _,
            expected: _,
            new: _,
        } => 51,
        Step::StoreSlot { k: _, r: _ } => 52,
        Step::ReadSlot { k: _ } => 53,
        Step::ReadWeak { c: _ } => 54,
        Step::HoldRoot { v: _, r: _ } => 56,
        Step::FlushRoot { v: _ } => 57,
        _ => unreachable!(),
    }
}

fn of_making(step: &Step) -> u8
    requires { pass_of_step step.now ≡ Pass.Making }
    ensures { result ≡ kind_of_step step.now }
{
    match *step {
        Step::ClaimBlock { b: _ } => 20,
        Step::ReleaseBlock => 21,
        Step::ReadFree => 22,
        Step::StoreNew {
            c: _,
            part: _,
            word: _,
        } => 23,
        Step::PublishCells => 24,
        _ => unreachable!(),
    }
}

fn of_world(step: &Step) -> u8
    requires { pass_of_step step.now ≡ Pass.World }
    ensures { result ≡ kind_of_step step.now }
{
    match *step {
        Step::EnterStep => 25,
        Step::LeaveStep => 26,
        Step::RaiseStep => 27,
        Step::Observe => 28,
        Step::DropStep => 29,
        Step::StorePhase { to: _ } => 30,
        Step::Split => 31,
        Step::Join { other: _ } => 32,
        _ => unreachable!(),
    }
}

fn of_sweep(step: &Step) -> u8
    requires { pass_of_step step.now ≡ Pass.Sweep }
    ensures { result ≡ kind_of_step step.now }
{
    match *step {
        Step::NextBlock | Step::NextOfCards => 33,
        Step::ReadBlockMarks => 34,
        Step::StoreAlloc => 35,
        Step::ClearMarks => 36,
        Step::WipeCard { card: _ } => 37,
        _ => unreachable!(),
    }
}

fn of_counters(step: &Step) -> u8
    requires { pass_of_step step.now ≡ Pass.Counters }
    ensures { result ≡ kind_of_step step.now }
{
    match *step {
        Step::StorePosition { done: _ } | Step::StoreNamed | Step::Reset { which: _ } => 38,
        Step::AddStat {
            which: _,
            by: _,
            down: _,
        } => 39,
        Step::ReadStat { which: _ } => 40,
        _ => unreachable!(),
    }
}

fn of_help(step: &Step) -> u8
    requires { pass_of_step step.now ≡ Pass.Help }
    ensures { result ≡ kind_of_step step.now }
{
    match *step {
        Step::OpenStep => 43,
        Step::JoinHelpStep => 44,
        Step::LeaveHelpStep => 45,
        Step::CloseStep => 46,
        Step::SeeHelp => 47,
        Step::ReadSeason => 48,
        Step::NextSeason => 49,
        _ => unreachable!(),
    }
}
