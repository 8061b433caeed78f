//! The address of the word that each step touches, pass by pass.
ghost use Rattle.std.specs.Prelude.{◌≡◌};
ghost use Rattle.mark_core.specs.Bits.{cell_of};
ghost use Rattle.mark_core.specs.Effects.{place};
ghost use Rattle.mark_core.specs.Layout.{address as address_of};
ghost use Rattle.mark_core.specs.Steps.MutatorSteps.{part_at as part_place, seat_variable as variable_of};
ghost use Rattle.mark_core.specs.Passes.{pass_of as pass_of_step};
ghost use Rattle.mark_core.specs.Shapes.{IsShape};
ghost use Rattle.mark_core.specs.declared.kinds.Shape.{Shape};
ghost use Rattle.mark_core.specs.declared.seat.SeatState.{SeatState};

use crate::bases::Bases;
use crate::cards::BLOCK_CELLS;
use crate::cell::Cell;
use crate::kinds::{Shape, Step};
use crate::numbers::WORD_BITS;
use crate::passes::{Pass, pass_of};
use crate::seat::SeatState;
use crate::slots::length_in_hand;
use crate::steps::making::cached_block;
use crate::steps::mutator::variable;
use crate::steps::packets;
use crate::steps::sweep::own_block;
use crate::{bits, layout};

/// The address of the word of the seat's step.
#[inline(always)]
pub fn address(shape: &Shape, s: &SeatState, step: &Step) -> usize
    requires { IsShape shape.now }
    ensures { result ≡ address_of shape.now (place shape.now s.now step.now) }
{
    address_by(&Bases::of(shape), s, step)
}

/// The same, by the bases of the heap's regions.
#[inline(always)]
pub fn address_by(bases: &Bases, s: &SeatState, step: &Step) -> usize
    ensures { result ≡ address_of bases.now.shape (place bases.now.shape s.now step.now) }
{
    match pass_of(step) {
        Pass::Packets => of_packets(bases, s, step),
        Pass::Colour => of_colour(bases, s, step),
        Pass::Mutator => of_mutator(bases, s, step),
        Pass::Making => of_making(bases, s, step),
        Pass::World => of_world(step),
        Pass::Sweep => of_sweep(bases, s, step),
        Pass::Counters => of_counters(bases, s, step),
        Pass::Help => of_help(bases, step),
    }
}

#[inline(always)]
fn of_packets(bases: &Bases, s: &SeatState, step: &Step) -> usize
    requires { pass_of_step step.now ≡ Pass.Packets }
    ensures { result ≡ address_of bases.now.shape (place bases.now.shape s.now step.now) }
{
    match *step {
        Step::Reserve | Step::Credit | Step::ReadCount => layout::EMPTY,
        Step::Take { q, p } => bases.pool_at(q as usize, p / WORD_BITS),
        Step::Give { p, deferred } => {
            let q = packets::pool_for(&bases.shape, length_in_hand(&s.held, p), deferred);
            bases.pool_at(q, p / WORD_BITS)
        }
        Step::Push { p, cell: _ } => bases.entry_at(p, length_in_hand(&s.held, p)),
        Step::Pop { p } => bases.entry_at(p, length_in_hand(&s.held, p).saturating_sub(1)),
        Step::Look { q, g } => bases.pool_at(q as usize, g),
        Step::StoreLength { p } | Step::ReadLength { p } => bases.head_at(p),
        _ => unreachable!(),
    }
}

#[inline(always)]
fn of_colour(bases: &Bases, s: &SeatState, step: &Step) -> usize
    requires { pass_of_step step.now ≡ Pass.Colour }
    ensures { result ≡ address_of bases.now.shape (place bases.now.shape s.now step.now) }
{
    match *step {
        Step::ReadAlloc { b } => bases.alloc_at(b),
        Step::ReadField { c, i } => bases.field_at(c.number(), i),
        Step::ReadRoot { section, v } => bases.root_at(section, v),
        Step::LoadSlot { section, k } => bases.slot_at(section, k),
        Step::SetMark { c } => bases.mark_at(c.number() / BLOCK_CELLS),
        Step::DirtyCard { card }
        | Step::CheckCard { card }
        | Step::ClearCard { card }
        | Step::ReadCard { card } => bases.card_at(card),
        Step::ReadMarks { b } => bases.mark_at(b),
        Step::ReadPhase => layout::PHASE,
        _ => unreachable!(),
    }
}

fn own_cell(s: &SeatState, v: u8) -> u32
    ensures { result ≡ cell_of (variable_of s.now v) }
{
    bits::cell_of(u64::from(variable(s, v))).number()
}

#[inline(always)]
fn of_mutator(bases: &Bases, s: &SeatState, step: &Step) -> usize
    requires { pass_of_step step.now ≡ Pass.Mutator }
    ensures { result ≡ address_of bases.now.shape (place bases.now.shape s.now step.now) }
{
    match *step {
        Step::ReadOwn { c, i } => bases.field_at(c.number(), i),
        Step::ReadValue { c } => bases.value_at(c.number()),
        Step::ReadIdent { c } => bases.identity_at(c.number()),
        Step::ReadCat { v } => bases.root_at(0, v),
        Step::StoreField { v, i, w: _ } => bases.field_at(own_cell(s, v), i),
        Step::StoreValue { v, n: _ } => bases.value_at(own_cell(s, v)),
        Step::StoreRoot { v, r: _ } | Step::HoldRoot { v, r: _ } | Step::FlushRoot { v } =>
            bases.root_at(s.section.unwrap_or(0), v),
        Step::StoreSlot { k, r: _ } | Step::ReadSlot { k } => bases.slot_at(
            s.section.unwrap_or(0),
            k,
        ),
        Step::ReadWeak { c } => bases.alloc_at(c.number() / BLOCK_CELLS),
        Step::ExchangeField {
            v,
            i,
            expected: _,
            new: _,
        } => bases.field_at(own_cell(s, v), i),
        Step::ExchangeValue {
            v,
            expected: _,
            new: _,
        } => bases.value_at(own_cell(s, v)),
        _ => unreachable!(),
    }
}

fn part_at(bases: &Bases, c: Cell, part: u8) -> usize
    ensures { result ≡ address_of bases.now.shape (part_place bases.now.shape c part) }
{
    if u32::from(part) < bases.shape.fields {
        bases.field_at(c.number(), part)
    } else if u32::from(part) == bases.shape.fields {
        bases.value_at(c.number())
    } else {
        bases.identity_at(c.number())
    }
}

#[inline(always)]
fn of_making(bases: &Bases, s: &SeatState, step: &Step) -> usize
    requires { pass_of_step step.now ≡ Pass.Making }
    ensures { result ≡ address_of bases.now.shape (place bases.now.shape s.now step.now) }
{
    match *step {
        Step::ClaimBlock { b } => bases.owner_at(b),
        Step::ReleaseBlock => bases.owner_at(cached_block(s)),
        Step::ReadFree | Step::PublishCells => bases.alloc_at(cached_block(s)),
        Step::StoreNew { c, part, word: _ } => part_at(bases, c, part),
        _ => unreachable!(),
    }
}

#[inline(always)]
fn of_world(step: &Step) -> usize
    requires { pass_of_step step.now ≡ Pass.World }
    ensures { (sh : Shape) (s : SeatState) → result ≡ address_of sh (place sh s step.now) }
{
    match *step {
        Step::StorePhase { to: _ } => layout::PHASE,
        _ => layout::WORLD,
    }
}

#[inline(always)]
fn of_sweep(bases: &Bases, s: &SeatState, step: &Step) -> usize
    requires { pass_of_step step.now ≡ Pass.Sweep }
    ensures { result ≡ address_of bases.now.shape (place bases.now.shape s.now step.now) }
{
    match *step {
        Step::NextBlock => layout::NEXT_BLOCK,
        Step::NextOfCards => layout::NEXT_CARD,
        Step::ReadBlockMarks | Step::ClearMarks => bases.mark_at(own_block(s)),
        Step::StoreAlloc => bases.alloc_at(own_block(s)),
        Step::WipeCard { card } => bases.card_at(card),
        _ => unreachable!(),
    }
}

#[inline(always)]
fn of_counters(bases: &Bases, s: &SeatState, step: &Step) -> usize
    requires { pass_of_step step.now ≡ Pass.Counters }
    ensures { result ≡ address_of bases.now.shape (place bases.now.shape s.now step.now) }
{
    match *step {
        Step::StorePosition { done: _ } => bases.position_at(s.section.unwrap_or(0)),
        Step::StoreNamed => layout::NAMED,
        Step::Reset { which }
        | Step::AddStat {
            which,
            by: _,
            down: _,
        }
        | Step::ReadStat { which } => bases.counter_at(which),
        _ => unreachable!(),
    }
}

#[inline(always)]
fn of_help(bases: &Bases, step: &Step) -> usize
    requires { pass_of_step step.now ≡ Pass.Help }
    ensures { (s : SeatState) → result ≡ address_of bases.now.shape (place bases.now.shape s step.now) }
{
    match *step {
        Step::ReadSeason | Step::NextSeason => bases.help() + 1,
        _ => bases.help(),
    }
}
