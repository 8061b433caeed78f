//! A whole play.
ghost use Rattle.std.specs.Prelude.{ℕ, ◌≡◌, ◌+◌, ◌≤◌, [], IfOk, length, vec_len};
ghost use Rattle.plain_heap.specs.Sections.{seasons};
ghost use Rattle.mark_core.specs.Shapes.{IsShape};
ghost use Rattle.play_end.specs.Answers.{AreInRange, PlayAnswers};
ghost use Rattle.gc_play.specs.declared.season.Ended.TheVariants as ends;
ghost use Rattle.gc_play.specs.Crews.{AreLeftBy, IsCrew, IsMadeForScript, IsNewSeatOfPlay, Numbered, PlayEnds, own_of};
ghost use Rattle.gc_play.specs.Answers.{EndsIn, FinalAnswers, FinalEnds};
ghost use Rattle.gc_play.specs.Options.{IsPlayable, shape_for};
ghost use Rattle.gc_play.specs.Traced.{EndTraced, SeasonsTraced, turns_reached};

use crate::crew::{Crew, muster};
use crate::gathering::put_away;
use crate::limits::see_script;
use crate::season::{Ended, play_season, settle};
use gc_script::Script;
use gc_table::{Heap, HeapSeat, Words};
use mark_core::{Shape, usual_stretch};
use plain_heap::OutOfMemory;
use play_end::{Options, PlayError, Played, close_full, close_played};
use play_report::{Part, Report};
use std::alloc::Global;
use std::sync::Wait;
use std::thread::Threads;
use warehouse::Gate;

fn count_sections(script: &Script<'_>) -> u32
    requires { IsPlayable script.now.sections }
    ensures count { result ≡ 1 + length script.now.sections.warehouses }
    ensures few { result ≤ 33 }
{
    script.warehouses().len() as u32 + 1
}

fn shape_of(script: &Script<'_>, options: &Options) -> Shape
    requires range { AreInRange options.now }
    requires script { IsPlayable script.now.sections }
    ensures same { result ≡ shape_for options.now script.now.sections }
    ensures shape { IsShape result }
{
    Shape {
        cells: options.cells,
        packets: options.packets,
        entries: options.entries,
        sections: count_sections(script),
        fields: script.fields(),
        objects: 2_000_000,
        sharing: false,
        slots: 0,
        stretch: usual_stretch(options.cells),
    }
}

fn make_heap(
    alloc: Global,
    script: &Script<'_>,
    options: &Options,
) -> Result<(Heap, Vec<HeapSeat>), OutOfMemory>
    requires range { AreInRange options.now }
    requires script { IsPlayable script.now.sections }
    ensures shape { IfOk result (λ r. r.0.shape ≡ shape_for options.now script.now.sections) }
    ensures count { IfOk result (λ r. vec_len r.1 ≡ 1 + length script.now.sections.warehouses + options.now.tracers) }
    ensures seats { IfOk result (λ r. Numbered (IsNewSeatOfPlay r.0 script.now.sections) 0 r.1.items) }
{
    let shape = shape_of(script, options);
    match Heap::create(alloc, shape, shape.sections + options.tracers, script) {
        Ok(made) => Ok(made),
        Err(e) => Err(e),
    }
}

fn make_parts<'a>(alloc: Global, script: &Script<'a>) -> Result<Vec<Part<'a>>, OutOfMemory>
    ensures { IfOk result (λ v. v.items ≡ []) }
{
    match Vec::with_capacity(alloc, script.warehouses().len() + 1) {
        Ok(parts) => Ok(parts),
        Err(_) => Err(OutOfMemory),
    }
}

/// Plays the seasons up to one that finds the heap full, and says which was the last.
fn play_seasons<'a, R: Threads + Wait + Sync, G: Gate + Sync>(
    rt: &R,
    heap: &Heap,
    script: &Script<'a>,
    crew: &mut Crew<'a>,
    gate: &G,
) -> (Ended, u32)
    requires script { IsPlayable script.now.sections }
    requires crew { IsCrew heap.now script.now.sections 0 0 crew.old }
    ensures ends { PlayEnds result.0 heap.now script.now.sections result.1 crew.new }
    ensures season { 1 ≤ result.1 }
    ensures all { result.0 ≡ ends.Done → result.1 ≡ seasons script.now.sections }
    ensures traced { SeasonsTraced heap.now script.now.sections (turns_reached (own_of crew.new.catalogue).seasons) crew.old.tracers.items crew.new.tracers.items }
{
    let sections = count_sections(script);
    let all = script.seasons();
    for before in 0..all {
        let season = before + 1;
        let until = season * sections;
        match play_season(rt, heap, script, crew, season, until, gate) {
            Ended::Done => {}
            ended => return (ended, season),
        }
    }
    match settle(rt, heap, &mut crew.catalogue) {
        Played::Done => (Ended::Done, all),
        Played::Full => (Ended::Later, all),
    }
}

fn close<'a>(
    alloc: Global,
    script: &Script<'a>,
    heap: Heap,
    seats: Vec<HeapSeat>,
    parts: Vec<Part<'a>>,
    ended: Ended,
) -> Result<(Report<'a>, Words), PlayError>
    requires made { IsMadeForScript script.now.sections heap seats.items }
    requires left { (season : ℕ) × AreLeftBy ended heap script.now.sections season seats.items parts.items }
    ensures answers { FinalAnswers result script.now.sections heap.shape.cells }
    ensures ends { (tracers season : ℕ) → AreLeftBy ended heap script.now.sections season seats.items parts.entry.items
        → EndTraced ended script.now.sections heap.shape tracers season seats.items → FinalEnds result script.now.sections heap.shape tracers }
{
    match ended {
        Ended::Done => match close_played(alloc, script, heap, seats, parts) {
            Ok(end) => Ok(end),
            Err(_) => Err(PlayError::OutOfMemory),
        },
        _ => match close_full(alloc, script, heap, seats) {
            Ok(positions) => Err(PlayError::Full(positions)),
            Err(_) => Err(PlayError::OutOfMemory),
        },
    }
}

fn prepare<'a>(
    alloc: Global,
    script: &Script<'a>,
    options: &Options,
) -> Result<(Heap, Crew<'a>, Vec<Part<'a>>), OutOfMemory>
    requires range { AreInRange options.now }
    requires script { IsPlayable script.now.sections }
    ensures shape { IfOk result (λ r. r.0.shape ≡ shape_for options.now script.now.sections) }
    ensures crew { IfOk result (λ r. IsCrew r.0 script.now.sections 0 0 r.1) }
    ensures workers { IfOk result (λ r. vec_len r.1.workers ≡ options.now.workers) }
    ensures parts { IfOk result (λ r. r.2.items ≡ []) }
    ensures tracers { IfOk result (λ r. (vec_len r.1.tracers ≡ options.now.tracers) × Numbered (IsNewSeatOfPlay r.0 script.now.sections) (1 + length script.now.sections.warehouses) r.1.tracers.items) }
{
    let (heap, seats) = match make_heap(alloc, script, options) {
        Ok(made) => made,
        Err(e) => return Err(e),
    };
    let crew = match muster(alloc, &heap, script, options.workers, seats) {
        Ok(crew) => crew,
        Err(e) => return Err(e),
    };
    match make_parts(alloc, script) {
        Ok(parts) => Ok((heap, crew, parts)),
        Err(e) => Err(e),
    }
}

/// [`play`], with the words of the closed heap.
pub fn play_final<'a, R: Threads + Wait + Sync, G: Gate + Sync>(
    rt: &R,
    alloc: Global,
    script: &Script<'a>,
    options: &Options,
    gate: &G,
) -> Result<(Report<'a>, Words), PlayError>
    requires { AreInRange options.now }
    ensures answers { FinalAnswers result script.now.sections options.now.cells }
    ensures ends { FinalEnds result script.now.sections (shape_for options.now script.now.sections) options.now.tracers }
{
    see_script(script);
    let (heap, mut crew, parts) = match prepare(alloc, script, options) {
        Ok(made) => made,
        Err(_) => return Err(PlayError::OutOfMemory),
    };
    let (ended, season) = play_seasons(rt, &heap, script, &mut crew, gate);
    let (seats, parts) = match put_away(alloc, &heap, script, crew, parts, ended, season) {
        Ok(left) => left,
        Err(_) => return Err(PlayError::OutOfMemory),
    };
    close(alloc, script, heap, seats, parts, ended)
}

/// Plays a script over a heap of `options.cells` cells, on `options.workers` threads with `options.tracers` beside
/// them: each section's transcript and dropped stores, exactly the objects that are reachable at the end, and the cell
/// of each object. Only the cells depend on the threads.
///
/// `Full` says that the reachable objects filled all cells when a section was to make one more. Memory is taken only
/// before the first command and after the last.
pub fn play<'a, R: Threads + Wait + Sync, G: Gate + Sync>(
    rt: &R,
    alloc: Global,
    script: &Script<'a>,
    options: &Options,
    gate: &G,
) -> Result<Report<'a>, PlayError>
    requires { AreInRange options.now }
    ensures answers { PlayAnswers result script.now.sections options.now.cells }
    ensures ends { EndsIn result script.now.sections (shape_for options.now script.now.sections) options.now.tracers }
{
    match play_final(rt, alloc, script, options, gate) {
        Ok((report, _)) => Ok(report),
        Err(e) => Err(e),
    }
}
