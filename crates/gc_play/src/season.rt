//! A season: the catalogue's turn, and then the warehouses'.
ghost use Rattle.std.specs.Prelude.{◌≡◌, ◌-◌, ◌*◌, ◌≤◌, All, false};
ghost use Rattle.gc_table.specs.Seats.{Sits, view_of};
ghost use Rattle.gc_cycle.specs.Standing.{IsOut};
ghost use Rattle.warehouse.specs.Ending.{PlaySettles};
ghost use Rattle.warehouse.specs.Turns.{MayTurnSeason, TurnEnds};
ghost use Rattle.gc_play.specs.Crews.{AreTracers, CatalogueAt, CatalogueEnds, CatalogueStarts, CrewEnds, IsAnyTracer, IsCrew, LeavesCatalogue, SeasonTurnEnds, own_of, seat_in};
ghost use Rattle.gc_play.specs.Dealing.{EachOne, SameShares, ShareEnds, StandsAt};
ghost use Rattle.gc_play.specs.Options.{IsPlayable};
ghost use Rattle.gc_play.specs.Traced.{AllTracedUntil, SeasonTraced, parts_by};

use crate::crew::{Catalogue, Crew};
use crate::tracers::run_tracers;
use crate::workers::{Worker, any_full, play_warehouses};
use gc_script::Script;
use gc_table::{Heap, HeapSeat};
use play_end::Played;
use std::sync::Wait;
use std::thread::{Threads, join_mut};
use warehouse::{Gate, end_play, play_absent, play_part, turn_season};

/// How a season ended, or a play.
#[derive(Clone, Copy, PartialEq, Eq, Debug)]
pub(crate) enum Ended {
    /// All was played.
    Done,
    /// The heap was found full before the warehouses' turn.
    First,
    /// It was found full in the warehouses' turn, or in a stop after the catalogue's part.
    Later,
}

/// Runs all workers and tracers side by side until all have ended.
fn run_threads<'a, R: Threads + Wait + Sync, G: Gate + Sync>(
    rt: &R,
    heap: &Heap,
    script: &Script<'a>,
    workers: &mut Vec<Worker<'a>>,
    tracers: &mut Vec<HeapSeat>,
    season: u32,
    until: u32,
    gate: &G,
)
    requires season { 1 ≤ season }
    requires until { until ≡ parts_by script.now.sections season }
    requires before { EachOne (StandsAt heap.now script.now.sections (season - 1)) workers.old.items }
    requires going { All (λ x. x.full ≡ false) workers.old.items }
    requires tracers { All (IsAnyTracer heap.now) tracers.old.items }
    ensures ends { All (λ x. ShareEnds x.full heap.now script.now.sections season x.mutators.items) workers.new.items }
    ensures same { SameShares workers.old.items workers.new.items }
    ensures traced { AllTracedUntil heap.now (parts_by script.now.sections season) tracers.old.items tracers.new.items }
{
    join_mut(
        rt,
        &mut ||
            requires { All (IsAnyTracer heap.now) tracers.now.items }
            ensures { AllTracedUntil heap.entry.now until tracers.entry.now.items tracers.exit.now.items }
        { run_tracers(rt, heap, tracers, until, gate) },
        &mut ||
            requires { (1 ≤ season) × EachOne (StandsAt heap.now script.now.sections (season - 1)) workers.now.items × All (λ x. x.full ≡ false) workers.now.items }
            ensures { All (λ x. ShareEnds x.full heap.entry.now script.entry.now.sections season x.mutators.items) workers.exit.now.items × SameShares workers.entry.now.items workers.exit.now.items }
        { play_warehouses(rt, heap, script, workers, season, gate) },
    );
}

fn play_turn<'a, R: Threads + Wait + Sync, G: Gate + Sync>(
    rt: &R,
    heap: &Heap,
    script: &Script<'a>,
    workers: &mut Vec<Worker<'a>>,
    tracers: &mut Vec<HeapSeat>,
    season: u32,
    until: u32,
    gate: &G,
) -> Played
    requires season { 1 ≤ season }
    requires until { until ≡ parts_by script.now.sections season }
    requires before { EachOne (StandsAt heap.now script.now.sections (season - 1)) workers.old.items }
    requires going { All (λ x. x.full ≡ false) workers.old.items }
    requires tracers { AreTracers heap.now script.now.sections tracers.old.items }
    ensures ends { SeasonTurnEnds result heap.now script.now.sections season workers.new.items }
    ensures same { SameShares workers.old.items workers.new.items }
    ensures tracers { AreTracers heap.now script.now.sections tracers.new.items }
    ensures traced { AllTracedUntil heap.now (parts_by script.now.sections season) tracers.old.items tracers.new.items }
{
    run_threads(rt, heap, script, workers, tracers, season, until, gate);
    if any_full(workers.as_slice()) {
        Played::Full
    } else {
        Played::Done
    }
}

fn play_catalogue<'a, R: Threads + Wait + Sync, G: Gate>(
    rt: &R,
    heap: &Heap,
    script: &Script<'a>,
    catalogue: &mut Catalogue<'a>,
    season: u32,
    gate: &G,
) -> Played
    requires season { 1 ≤ season }
    requires script { IsPlayable script.now.sections }
    requires before { CatalogueAt heap.now script.now.sections (season - 1) (2 * season - 2) catalogue.old }
    ensures { CatalogueEnds result heap.now script.now.sections season (2 * season - 2) catalogue.new }
{
    match catalogue {
        Catalogue::Playing(mutator) => match script.catalogue() {
            Some(section) => play_part(rt, heap, mutator, section, season, gate),
            None => unreachable!(),
        },
        Catalogue::Absent(seat) => {
            play_absent(rt, heap, seat);
            Played::Done
        }
    }
}

/// The catalogue's seat moves the season on.
fn next_turn<'a, R: Threads + Wait + Sync>(
    rt: &R,
    heap: &Heap,
    catalogue: &mut Catalogue<'a>,
) -> Played
    requires seat { Sits heap.now (seat_in catalogue.old) × IsOut (view_of (seat_in catalogue.old)) }
    requires turn { MayTurnSeason (view_of (seat_in catalogue.old)) }
    ensures leaves { LeavesCatalogue heap.now catalogue.old catalogue.new }
    ensures ends { TurnEnds result (view_of (seat_in catalogue.old)) (view_of (seat_in catalogue.new)) }
{
    match catalogue {
        Catalogue::Playing(mutator) => mutator.next_turn(rt, heap),
        Catalogue::Absent(seat) => turn_season(rt, heap, seat),
    }
}

pub(crate) fn settle<'a, R: Threads + Wait + Sync>(
    rt: &R,
    heap: &Heap,
    catalogue: &mut Catalogue<'a>,
) -> Played
    requires seat { Sits heap.now (seat_in catalogue.old) × IsOut (view_of (seat_in catalogue.old)) }
    requires turn { MayTurnSeason (view_of (seat_in catalogue.old)) }
    ensures leaves { LeavesCatalogue heap.now catalogue.old catalogue.new }
    ensures ends { TurnEnds result (view_of (seat_in catalogue.old)) (view_of (seat_in catalogue.new)) }
    ensures settles { PlaySettles result (view_of (seat_in catalogue.old)) (view_of (seat_in catalogue.new)) }
{
    match catalogue {
        Catalogue::Playing(mutator) => mutator.end_play(rt, heap),
        Catalogue::Absent(seat) => end_play(rt, heap, seat),
    }
}

/// Hands the turn back to the catalogue, with which the first season begins.
fn begin_season<'a, R: Threads + Wait + Sync>(
    rt: &R,
    heap: &Heap,
    script: &Script<'a>,
    catalogue: &mut Catalogue<'a>,
    season: u32,
) -> Played
    requires season { (1 ≤ season) × (season ≤ 64) }
    requires before { CatalogueAt heap.now script.now.sections (season - 1) (2 * (season - 1) - 1) catalogue.old }
    ensures { CatalogueStarts result heap.now script.now.sections season catalogue.new }
{
    if season > 1 {
        return next_turn(rt, heap, catalogue);
    }
    Played::Done
}

pub(crate) fn play_season<'a, R: Threads + Wait + Sync, G: Gate + Sync>(
    rt: &R,
    heap: &Heap,
    script: &Script<'a>,
    crew: &mut Crew<'a>,
    season: u32,
    until: u32,
    gate: &G,
) -> Ended
    requires season { (1 ≤ season) × (season ≤ 64) }
    requires until { until ≡ parts_by script.now.sections season }
    requires script { IsPlayable script.now.sections }
    requires before { IsCrew heap.now script.now.sections (season - 1) (2 * (season - 1) - 1) crew.old }
    ensures ends { CrewEnds result heap.now script.now.sections season crew.new }
    ensures traced { SeasonTraced heap.now script.now.sections season (own_of crew.new.catalogue).seasons crew.old.tracers.items crew.new.tracers.items }
{
    if let Played::Full = begin_season(rt, heap, script, &mut crew.catalogue, season) {
        return Ended::First;
    }
    if let Played::Full = play_catalogue(rt, heap, script, &mut crew.catalogue, season, gate) {
        return Ended::First;
    }
    if let Played::Full = next_turn(rt, heap, &mut crew.catalogue) {
        return Ended::Later;
    }
    if let Played::Full = play_turn(
        rt,
        heap,
        script,
        &mut crew.workers,
        &mut crew.tracers,
        season,
        until,
        gate,
    ) {
        return Ended::Later;
    }
    Ended::Done
}
