//! The effect of each step on its word and on its seat's record, pass by pass.
ghost use Rattle.std.specs.Prelude.{◌≡◌};
ghost use Rattle.mark_core.specs.Effects.{written, seat_after};
ghost use Rattle.mark_core.specs.Passes.{pass_of as pass_of_step};
ghost use Rattle.mark_core.specs.Room.{HasNumber, HasRoom, HasValue};
ghost use Rattle.mark_core.specs.declared.kinds.Shape.{Shape};

use crate::kinds::{Shape, Step};
use crate::passes::{Pass, pass_of};
use crate::seat::SeatState;
use crate::steps::{colour, help, making, mutator, packets, phase, season, sweep, world};

/// Changes the seat's record, and answers what its word becomes after `old`.
#[inline(always)]
pub fn act(shape: &Shape, s: &mut SeatState, step: &Step, old: u64) -> u64
    requires room { HasRoom s.old step.now }
    requires number { HasNumber shape.now s.old step.now }
    ensures word { result ≡ written shape.now s.old step.now old }
    ensures seat { s.new ≡ seat_after shape.now s.old step.now old }
{
    match pass_of(step) {
        Pass::Packets => of_packets(s, step, old),
        Pass::Colour => of_colour(s, step, old),
        Pass::Mutator => of_mutator(s, step, old),
        Pass::Making => of_making(shape, s, step, old),
        Pass::World => of_world(s, step, old),
        Pass::Sweep => of_sweep(shape, s, step, old),
        Pass::Counters => of_counters(shape, s, step, old),
        Pass::Help => of_help(s, step, old),
    }
}

/// A value has the thirty-two bits of its type.
#[inline(always)]
pub fn has_value(step: &Step)
    ensures { HasValue step.now }
{
    match *step {
        Step::StoreValue { v: _, n } => {
            prove!(n <= 4_294_967_295);
        }
        _ => {}
    }
}

#[inline(always)]
fn of_packets(s: &mut SeatState, step: &Step, old: u64) -> u64
    requires pass { pass_of_step step.now ≡ Pass.Packets }
    requires room { HasRoom s.old step.now }
    ensures word { (sh : Shape) → result ≡ written sh s.old step.now old }
    ensures seat { (sh : Shape) → s.new ≡ seat_after sh s.old step.now old }
{
    match *step {
        Step::Reserve => packets::reserve(s, old),
        Step::Take { q, p } => packets::take(s, q, p, old),
        Step::Give { p, deferred: _ } => packets::give(s, p, old),
        Step::Credit => packets::credit(s, old),
        Step::Push { p, cell } => packets::push(s, p, cell),
        Step::Pop { p } => packets::pop(s, p, old),
        Step::Look { q: _, g: _ } | Step::ReadCount => old,
        Step::StoreLength { p } => packets::store_length(s, p),
        Step::ReadLength { p } => packets::read_length(s, p, old),
        _ => unreachable!(),
    }
}

#[inline(always)]
fn of_colour(s: &mut SeatState, step: &Step, old: u64) -> u64
    requires pass { pass_of_step step.now ≡ Pass.Colour }
    requires room { HasRoom s.old step.now }
    ensures word { (sh : Shape) → result ≡ written sh s.old step.now old }
    ensures seat { (sh : Shape) → s.new ≡ seat_after sh s.old step.now old }
{
    match *step {
        Step::ReadAlloc { b } => colour::read_alloc(s, b, old),
        Step::ReadField { c, i } => colour::read_field(s, c, i, old),
        Step::ReadRoot { section: _, v: _ } | Step::LoadSlot { section: _, k: _ } =>
            colour::read_root(s, old),
        Step::SetMark { c } => colour::set_mark(s, c, old),
        Step::DirtyCard { card } => colour::dirty_card(s, card),
        Step::CheckCard { card } => colour::check_card(s, card, old),
        Step::ClearCard { card } => colour::clear_card(s, card, old),
        Step::ReadMarks { b } => colour::read_marks(s, b, old),
        Step::ReadCard { card: _ } => old,
        Step::ReadPhase => colour::read_phase(s, old),
        _ => unreachable!(),
    }
}

#[inline(always)]
fn of_mutator(s: &mut SeatState, step: &Step, old: u64) -> u64
    requires pass { pass_of_step step.now ≡ Pass.Mutator }
    requires room { HasRoom s.old step.now }
    ensures word { (sh : Shape) → result ≡ written sh s.old step.now old }
    ensures seat { (sh : Shape) → s.new ≡ seat_after sh s.old step.now old }
{
    match *step {
        Step::ReadOwn { c: _, i: _ } | Step::ReadCat { v: _ } | Step::ReadSlot { k: _ } =>
            mutator::read_reference(s, old),
        Step::ReadValue { c: _ } | Step::ReadIdent { c: _ } => old,
        Step::ReadWeak { c } => mutator::read_weak(s, c, old),
        Step::StoreField { v, i: _, w } => mutator::store_field(s, v, w),
        Step::StoreValue { v: _, n } => u64::from(n),
        Step::StoreRoot { v, r } => mutator::store_root(s, v, r),
        Step::StoreSlot { k: _, r } => mutator::store_slot(s, r),
        Step::HoldRoot { v, r } => mutator::hold_root(s, v, r, old),
        Step::FlushRoot { v } => mutator::flush_root(s, v),
        Step::ExchangeField {
            v,
            i: _,
            expected,
            new,
        } => mutator::exchange_field(s, v, expected, new, old),
        Step::ExchangeValue {
            v: _,
            expected,
            new,
        } => mutator::exchange_value(expected, new, old),
        _ => unreachable!(),
    }
}

#[inline(always)]
fn of_making(shape: &Shape, s: &mut SeatState, step: &Step, old: u64) -> u64
    requires pass { pass_of_step step.now ≡ Pass.Making }
    requires room { HasRoom s.old step.now }
    requires number { HasNumber shape.now s.old step.now }
    ensures word { result ≡ written shape.now s.old step.now old }
    ensures seat { s.new ≡ seat_after shape.now s.old step.now old }
{
    match *step {
        Step::ClaimBlock { b } => making::claim_block(s, b, old),
        Step::ReleaseBlock => making::release_block(s),
        Step::ReadFree => making::read_free(s, old),
        Step::StoreNew { c, part, word } => making::store_new(shape, s, c, part, word),
        Step::PublishCells => making::publish_cells(s, old),
        _ => unreachable!(),
    }
}

#[inline(always)]
fn of_world(s: &mut SeatState, step: &Step, old: u64) -> u64
    requires { pass_of_step step.now ≡ Pass.World }
    ensures word { (sh : Shape) → result ≡ written sh s.old step.now old }
    ensures seat { (sh : Shape) → s.new ≡ seat_after sh s.old step.now old }
{
    match *step {
        Step::EnterStep => world::enter(s, old),
        Step::LeaveStep => world::leave(s, old),
        Step::RaiseStep => world::raise(s, old),
        Step::Observe => world::observe(s, old),
        Step::DropStep => world::drop_flag(s, old),
        Step::StorePhase { to } => phase::store_phase(s, to, old),
        Step::Split | Step::Join { other: _ } => old,
        _ => unreachable!(),
    }
}

#[inline(always)]
fn of_sweep(shape: &Shape, s: &mut SeatState, step: &Step, old: u64) -> u64
    requires { pass_of_step step.now ≡ Pass.Sweep }
    ensures word { result ≡ written shape.now s.old step.now old }
    ensures seat { s.new ≡ seat_after shape.now s.old step.now old }
{
    match *step {
        Step::NextBlock => sweep::next_block(shape, s, old),
        Step::NextOfCards => sweep::next_of_cards(s, old),
        Step::ReadBlockMarks => sweep::read_block_marks(s, old),
        Step::StoreAlloc => sweep::store_alloc(s),
        Step::ClearMarks => sweep::clear_marks(s),
        Step::WipeCard { card: _ } => 0,
        _ => unreachable!(),
    }
}

#[inline(always)]
fn of_counters(shape: &Shape, s: &mut SeatState, step: &Step, old: u64) -> u64
    requires { pass_of_step step.now ≡ Pass.Counters }
    ensures word { result ≡ written shape.now s.old step.now old }
    ensures seat { s.new ≡ seat_after shape.now s.old step.now old }
{
    match *step {
        Step::StorePosition { done } => u64::from(done),
        Step::StoreNamed => u64::from(s.section.unwrap_or(0)),
        Step::Reset { which: _ } => 0,
        Step::AddStat { which: _, by, down } => sweep::add_stat(by, down, old),
        Step::ReadStat { which } => sweep::read_stat(shape, s, which, old),
        _ => unreachable!(),
    }
}

#[inline(always)]
fn of_help(s: &mut SeatState, step: &Step, old: u64) -> u64
    requires { pass_of_step step.now ≡ Pass.Help }
    ensures word { (sh : Shape) → result ≡ written sh s.old step.now old }
    ensures seat { (sh : Shape) → s.new ≡ seat_after sh s.old step.now old }
{
    match *step {
        Step::OpenStep => help::open_help(s, old),
        Step::JoinHelpStep => help::join_help(s, old),
        Step::LeaveHelpStep => help::leave_help(s, old),
        Step::CloseStep => help::close_help(s, old),
        Step::SeeHelp => help::see_help(s, old),
        Step::ReadSeason => season::read_season(s, old),
        Step::NextSeason => season::next_season(old),
        _ => unreachable!(),
    }
}
