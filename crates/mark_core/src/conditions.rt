//! The condition of each step, pass by pass.
ghost use Rattle.std.specs.Prelude.{◌≡◌, List, length};
ghost use Rattle.mark_core.specs.Layout.{region_sizes, total_words as total_words_of, Words, words_of};
ghost use Rattle.mark_core.specs.Parts.{parts};
ghost use Rattle.mark_core.specs.Passes.{pass_of as pass_of_step};
ghost use Rattle.mark_core.specs.Shapes.{IsShape};
ghost use Rattle.mark_core.specs.Steps.{first_false as first_false_of};
ghost use Rattle.mark_core.specs.declared.seat.SeatState.{SeatState};

use crate::kinds::{Shape, Step};
use crate::layout;
use crate::passes::{Pass, pass_of};
use crate::seat::SeatState;
use crate::steps::{colour, help, making, mutator, packets, phase, season, sweep, world};
use crate::words::{identity_of, read, season_of};

pub fn failing_part(
    shape: &Shape,
    words: &[u64],
    seats: &[SeatState],
    s: &SeatState,
    step: &Step,
) -> Option<u8>
    requires shaped { IsShape shape.now }
    requires whole { length words.now ≡ total_words_of (region_sizes shape.now) }
    ensures { result ≡ first_false_of 1 (parts shape.now (words_of shape.now words.now) seats.now s.now step.now) }
{
    let phase = read(words, layout::PHASE);
    match pass_of(step) {
        Pass::Packets => of_packets(shape, phase, s, step),
        Pass::Colour => of_colour(shape, phase, s, step),
        Pass::Mutator => of_mutator(shape, words, s, step),
        Pass::Making => of_making(shape, phase, s, step),
        Pass::World => of_world(shape, words, seats, s, step),
        Pass::Sweep => of_sweep(shape, phase, s, step),
        Pass::Counters => of_counters(shape, phase, s, step),
        Pass::Help => of_help(shape, phase, season_of(shape, words), s, step),
    }
}

fn of_packets(shape: &Shape, phase: u64, s: &SeatState, step: &Step) -> Option<u8>
    requires pass { pass_of_step step.now ≡ Pass.Packets }
    requires shaped { IsShape shape.now }
    ensures { (w : Words) (seats : List SeatState) → w.phase ≡ phase → result ≡ first_false_of 1 (parts shape.now w seats s.now step.now) }
{
    match *step {
        Step::Reserve => packets::check_reserve(phase, s),
        Step::Take { q, p } => packets::check_take(shape, phase, s, q, p),
        Step::Give { p, deferred } => packets::check_give(shape, s, p, deferred),
        Step::Credit => packets::check_credit(s),
        Step::Push { p, cell } => packets::check_push(shape, s, p, cell),
        Step::Pop { p } => packets::check_pop(shape, phase, s, p),
        Step::Look { q, g } => packets::check_look(shape, q, g),
        Step::ReadCount => None,
        Step::StoreLength { p } => packets::check_store_length(shape, s, p),
        Step::ReadLength { p } => packets::check_read_length(shape, s, p),
        _ => unreachable!(),
    }
}

fn of_colour(shape: &Shape, phase: u64, s: &SeatState, step: &Step) -> Option<u8>
    requires pass { pass_of_step step.now ≡ Pass.Colour }
    requires shaped { IsShape shape.now }
    ensures { (w : Words) (seats : List SeatState) → w.phase ≡ phase → result ≡ first_false_of 1 (parts shape.now w seats s.now step.now) }
{
    match *step {
        Step::ReadAlloc { b } => colour::check_read_alloc(shape, s, b),
        Step::ReadField { c, i } => colour::check_read_field(shape, s, c, i),
        Step::ReadRoot { section, v } => colour::check_read_root(shape, phase, s, section, v),
        Step::LoadSlot { section, k } => colour::check_load_slot(shape, phase, s, section, k),
        Step::SetMark { c } => colour::check_set_mark(shape, phase, s, c),
        Step::DirtyCard { card } | Step::CheckCard { card } => colour::check_dirty_card(
            shape, s, card,
        ),
        Step::ClearCard { card } => colour::check_clear_card(shape, phase, s, card),
        Step::ReadMarks { b } => colour::check_read_marks(shape, s, b),
        Step::ReadCard { card } => colour::check_read_card(shape, card),
        Step::ReadPhase => None,
        _ => unreachable!(),
    }
}

fn of_mutator(shape: &Shape, words: &[u64], s: &SeatState, step: &Step) -> Option<u8>
    requires pass { pass_of_step step.now ≡ Pass.Mutator }
    requires shaped { IsShape shape.now }
    requires whole { length words.now ≡ total_words_of (region_sizes shape.now) }
    ensures { (seats : List SeatState) → result ≡ first_false_of 1 (parts shape.now (words_of shape.now words.now) seats s.now step.now) }
{
    match *step {
        Step::ReadOwn { c, i } => mutator::check_read_own(shape, s, c, i),
        Step::ReadValue { c } => mutator::check_read_object(shape, s, c),
        Step::ReadIdent { c } => mutator::check_read_object(shape, s, c),
        Step::ReadCat { v } => mutator::check_read_cat(s, v),
        Step::StoreField { v, i, w } => {
            let identity = identity_of(shape, words, mutator::variable_cell(s, v));
            mutator::check_store_field(shape, identity, s, v, i, w)
        }
        Step::StoreValue { v, n: _ } => {
            let identity = identity_of(shape, words, mutator::variable_cell(s, v));
            mutator::check_store_value(shape, identity, s, v)
        }
        Step::StoreRoot { v, r } => mutator::check_store_root(s, v, r),
        Step::StoreSlot { k, r } => mutator::check_store_slot(shape, s, k, r),
        Step::ReadSlot { k } => mutator::check_read_slot(shape, s, k),
        Step::ReadWeak { c } => mutator::check_read_weak(shape, s, c),
        Step::HoldRoot { v, r } => mutator::check_store_root(s, v, r),
        Step::FlushRoot { v } => mutator::check_flush_root(s, v),
        Step::ExchangeField {
            v,
            i,
            expected,
            new,
        } => mutator::check_exchange_field(shape, s, v, i, expected, new),
        Step::ExchangeValue {
            v,
            expected: _,
            new,
        } => mutator::check_exchange_value(shape, s, v, new),
        _ => unreachable!(),
    }
}

fn of_making(shape: &Shape, phase: u64, s: &SeatState, step: &Step) -> Option<u8>
    requires pass { pass_of_step step.now ≡ Pass.Making }
    requires shaped { IsShape shape.now }
    ensures { (w : Words) (seats : List SeatState) → w.phase ≡ phase → result ≡ first_false_of 1 (parts shape.now w seats s.now step.now) }
{
    match *step {
        Step::ClaimBlock { b } => making::check_claim_block(shape, phase, s, b),
        Step::ReleaseBlock => making::check_release_block(s),
        Step::ReadFree => making::check_read_free(s),
        Step::StoreNew { c, part, word } => making::check_store_new(shape, s, c, part, word),
        Step::PublishCells => making::check_publish_cells(s),
        _ => unreachable!(),
    }
}

fn of_world(
    shape: &Shape,
    words: &[u64],
    seats: &[SeatState],
    s: &SeatState,
    step: &Step,
) -> Option<u8>
    requires pass { pass_of_step step.now ≡ Pass.World }
    requires shaped { IsShape shape.now }
    requires whole { length words.now ≡ total_words_of (region_sizes shape.now) }
    ensures { result ≡ first_false_of 1 (parts shape.now (words_of shape.now words.now) seats.now s.now step.now) }
{
    match *step {
        Step::EnterStep => world::check_enter(s),
        Step::LeaveStep => world::check_leave(shape, s),
        Step::RaiseStep => world::check_raise(s),
        Step::Observe => None,
        Step::DropStep => world::check_drop(shape, read(words, layout::PHASE), s),
        Step::StorePhase { to } => phase::check_store_phase(shape, words, s, to),
        Step::Split => world::check_split(shape, seats, s),
        Step::Join { other } => world::check_join(shape, seats, s, other),
        _ => unreachable!(),
    }
}

fn of_sweep(shape: &Shape, phase: u64, s: &SeatState, step: &Step) -> Option<u8>
    requires pass { pass_of_step step.now ≡ Pass.Sweep }
    requires shaped { IsShape shape.now }
    ensures { (w : Words) (seats : List SeatState) → w.phase ≡ phase → result ≡ first_false_of 1 (parts shape.now w seats s.now step.now) }
{
    match *step {
        Step::NextBlock => sweep::check_next_block(phase, s),
        Step::NextOfCards => sweep::check_next_of_cards(phase, s),
        Step::ReadBlockMarks => sweep::check_read_block_marks(phase, s),
        Step::StoreAlloc => sweep::check_store_alloc(phase, s),
        Step::ClearMarks => sweep::check_clear_marks(phase, s),
        Step::WipeCard { card } => sweep::check_wipe_card(shape, phase, s, card),
        _ => unreachable!(),
    }
}

fn of_counters(shape: &Shape, phase: u64, s: &SeatState, step: &Step) -> Option<u8>
    requires pass { pass_of_step step.now ≡ Pass.Counters }
    requires shaped { IsShape shape.now }
    ensures { (w : Words) (seats : List SeatState) → w.phase ≡ phase → result ≡ first_false_of 1 (parts shape.now w seats s.now step.now) }
{
    match *step {
        Step::StorePosition { done: _ } => sweep::check_store_position(s),
        Step::StoreNamed => sweep::check_store_named(phase, s),
        Step::Reset { which } => sweep::check_reset(phase, s, which),
        Step::AddStat { which, by, down } => sweep::check_add_stat(s, which, by, down),
        Step::ReadStat { which } => sweep::check_read_stat(shape, which),
        _ => unreachable!(),
    }
}

fn of_help(shape: &Shape, phase: u64, season: u64, s: &SeatState, step: &Step) -> Option<u8>
    requires pass { pass_of_step step.now ≡ Pass.Help }
    requires shaped { IsShape shape.now }
    ensures { (w : Words) (seats : List SeatState) → w.phase ≡ phase → w.season ≡ season → result ≡ first_false_of 1 (parts shape.now w seats s.now step.now) }
{
    match *step {
        Step::OpenStep => help::check_open(phase, s),
        Step::JoinHelpStep => help::check_join_help(s),
        Step::LeaveHelpStep => help::check_leave_help(shape, s),
        Step::CloseStep => help::check_close(s),
        Step::SeeHelp => None,
        Step::ReadSeason => season::check_read_season(s),
        Step::NextSeason => season::check_next_season(phase, season, s),
        _ => unreachable!(),
    }
}
