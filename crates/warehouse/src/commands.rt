//! One command of a part.
ghost use Rattle.std.specs.Prelude.{◌≡◌, ◌+◌, ◌<◌, ◌≤◌, ◌⊎◌, ◌++◌, [], ◌∷◌, if◌then◌else◌, is_some, length, map, IsTrue, IsFalse, None, vec_capacity};
ghost use Rattle.std.specs.Bool.{OnFalse, OnTrue};
ghost use Rattle.plain_heap.specs.PlainRun.{with_label};
ghost use Rattle.plain_heap.specs.Sections.{makes_object};
ghost use Rattle.plain_heap.specs.declared.operation.Op.TheVariants as ops;
ghost use Rattle.gc_table.specs.Seats.{Sits};
ghost use Rattle.play_report.specs.Report.{printed_of};
ghost use Rattle.gc_script.specs.Shown.{execution_of};
ghost use Rattle.warehouse.specs.Commands.{ComesOrStops, DoesOne, DoesOneWithOwn, IsToCome, MayDo, PlaysOne, StopsBefore, is_other};
ghost use Rattle.warehouse.specs.Playing.{HasFree, HasNoFree, IsPlaying};

use crate::gate::Gate;
use crate::mutator::Mutator;
use crate::turn::{await_cell, await_turn, has_free, is_ready};
use alloc_cache::Cache;
use gc_cycle::{Safe, collect, retire_some, spend_none};
use gc_script::{Command, Section};
use gc_table::Heap;
use mutator_ops::create;
use plain_heap::{Line, Op};
use play_report::Said;
use std::sync::Wait;

fn say<'a>(said: &mut Vec<Said<'a>>, command: &Command<'a>, line: Option<Line>)
    requires room { IsTrue (is_some line) → length said.old.items < vec_capacity said.old }
    ensures said { map printed_of said.new.items ≡ map printed_of said.old.items ++ with_label command.now.label.now line [] }
    ensures room { vec_capacity said.old ≤ vec_capacity said.new }
    ensures count { length said.new.items ≡ length said.old.items + (if is_some line then 1 else 0) }
{
    if let Some(line) = line {
        let Ok(()) = said.push(Said {
            label: command.label,
            line,
        }) else {
            unreachable!()
        };
    }
}

fn place(places: &mut Vec<u32>, cell: u32)
    requires room { length places.old.items < vec_capacity places.old }
    ensures places { places.new.items ≡ places.old.items ++ cell ∷ [] }
    ensures room { vec_capacity places.old ≤ vec_capacity places.new }
    ensures count { length places.new.items ≡ length places.old.items + 1 }
{
    let Ok(()) = places.push(cell) else {
        unreachable!()
    };
}

fn make_object<'a>(
    heap: &Heap,
    mutator: &mut Mutator<'a>,
    section: &Section<'a>,
    command: &Command<'a>,
    cache: &mut Option<Cache>,
    v: u8,
    n: u32,
)
    requires op { (execution_of command.now).op ≡ ops.New v n }
    requires playing { IsPlaying heap.now section.now cache.old mutator.old }
    requires free { HasFree cache.old }
    requires may { MayDo section.now (execution_of command.now) mutator.old }
    ensures { DoesOne heap.now section.now cache.new (execution_of command.now) mutator.old mutator.new }
{
    let Some(cache) = cache else { unreachable!() };
    match create(heap, &mut mutator.seat, cache, v, n) {
        Some(cell) => place(&mut mutator.places, cell.number()),
        None => unreachable!(),
    }
    mutator.count += 1;
}

fn one_if(so: bool) -> u32
    ensures { result ≡ (if so then 1 else 0) }
{
    if so { 1 } else { 0 }
}

fn do_other<'a>(
    heap: &Heap,
    mutator: &mut Mutator<'a>,
    section: &Section<'a>,
    command: &Command<'a>,
)
    requires op { IsTrue (is_other (execution_of command.now).op) }
    requires sits { Sits heap.now mutator.old.seat }
    requires may { MayDo section.now (execution_of command.now) mutator.old }
    ensures { DoesOneWithOwn heap.now section.now (execution_of command.now) mutator.old mutator.new }
{
    let done = mutator_ops::command(heap, &mut mutator.seat, command.op);
    say(&mut mutator.said, command, done.line);
    mutator.dropped += one_if(done.dropped);
    mutator.count += 1;
}

/// False if the heap is full.
fn collect_now<'a, R: Wait>(
    rt: &R,
    heap: &Heap,
    mutator: &mut Mutator<'a>,
    section: &Section<'a>,
    command: &Command<'a>,
    cache: &mut Option<Cache>,
) -> bool
    requires op { (execution_of command.now).op ≡ ops.Collect }
    requires playing { IsPlaying heap.now section.now cache.old mutator.old }
    requires may { MayDo section.now (execution_of command.now) mutator.old }
    ensures does { OnTrue result (DoesOne heap.now section.now cache.new (execution_of command.now) mutator.old mutator.new) }
    ensures stops { OnFalse result (StopsBefore heap.now section.now (execution_of command.now) mutator.old mutator.new × (cache.new ≡ None)) }
{
    retire_some(heap, &mut mutator.seat, cache.take());
    match collect(rt, heap, &mut mutator.seat, mutator.count) {
        Safe::Full => false,
        Safe::Going(kept) => {
            spend_none(kept);
            mutator.count += 1;
            true
        }
    }
}

/// False if the heap is full.
fn do_command<'a, R: Wait>(
    rt: &R,
    heap: &Heap,
    mutator: &mut Mutator<'a>,
    section: &Section<'a>,
    command: &Command<'a>,
    cache: &mut Option<Cache>,
) -> bool
    requires playing { IsPlaying heap.now section.now cache.old mutator.old }
    requires free { IsTrue (makes_object (execution_of command.now).op) → HasFree cache.old }
    requires may { MayDo section.now (execution_of command.now) mutator.old }
    ensures does { OnTrue result (DoesOne heap.now section.now cache.new (execution_of command.now) mutator.old mutator.new) }
    ensures stops { OnFalse result (StopsBefore heap.now section.now (execution_of command.now) mutator.old mutator.new × (cache.new ≡ None)) }
{
    match command.op {
        Op::New { v, n } => {
            make_object(heap, mutator, section, command, cache, v, n);
            true
        }
        Op::Collect => collect_now(rt, heap, mutator, section, command, cache),
        _ => {
            do_other(heap, mutator, section, command);
            true
        }
    }
}

fn makes(op: Op) -> bool
    ensures { result ≡ makes_object op }
{
    match op {
        Op::New { .. } => true,
        _ => false,
    }
}

/// A safe point in the turn, with a cell if the command makes an object. False if the heap is full.
#[cold]
#[inline(never)]
fn come_late<'a, R: Wait>(
    rt: &R,
    heap: &Heap,
    mutator: &mut Mutator<'a>,
    section: &Section<'a>,
    command: &Command<'a>,
    cache: &mut Option<Cache>,
    turn: u64,
) -> bool
    requires { IsToCome heap.now section.now turn cache.old (execution_of command.now) mutator.old }
    ensures { ComesOrStops result heap.now section.now turn cache.new (execution_of command.now) mutator.old mutator.new }
{
    if makes(command.op) {
        await_cell(rt, heap, &mut mutator.seat, cache, turn, mutator.count)
    } else {
        await_turn(rt, heap, &mut mutator.seat, cache, turn, mutator.count)
    }
}

fn may_begin(ready: bool, command: &Command<'_>, cache: &Option<Cache>) -> bool
    ensures ready { IsTrue result → IsTrue ready }
    ensures free { IsTrue result → IsTrue (makes_object (execution_of command.now).op) → HasFree cache.now }
    ensures late { OnFalse result (IsFalse ready ⊎ (IsTrue (makes_object (execution_of command.now).op) × HasNoFree cache.now)) }
{
    ready && (!makes(command.op) || has_free(cache))
}

/// Comes to the command, at once if nothing stands in the way. False if the heap is full.
fn come_to<'a, R: Wait>(
    rt: &R,
    heap: &Heap,
    mutator: &mut Mutator<'a>,
    section: &Section<'a>,
    command: &Command<'a>,
    cache: &mut Option<Cache>,
    turn: u64,
) -> bool
    requires { IsToCome heap.now section.now turn cache.old (execution_of command.now) mutator.old }
    ensures { ComesOrStops result heap.now section.now turn cache.new (execution_of command.now) mutator.old mutator.new }
{
    let ready = is_ready(heap, &mut mutator.seat, turn);
    if may_begin(ready, command, cache) {
        return true;
    }
    come_late(rt, heap, mutator, section, command, cache, turn)
}

/// Comes to a command, tells the gate, and does it. False if the heap is full.
pub(crate) fn play_command<'a, R: Wait, G: Gate>(
    rt: &R,
    heap: &Heap,
    mutator: &mut Mutator<'a>,
    section: &Section<'a>,
    command: &Command<'a>,
    cache: &mut Option<Cache>,
    turn: u64,
    gate: &G,
) -> bool
    requires { IsToCome heap.now section.now turn cache.old (execution_of command.now) mutator.old }
    ensures plays { OnTrue result (PlaysOne heap.now section.now turn cache.new (execution_of command.now) mutator.old mutator.new) }
    ensures stops { OnFalse result (StopsBefore heap.now section.now (execution_of command.now) mutator.old mutator.new × (cache.new ≡ None)) }
{
    if !come_to(rt, heap, mutator, section, command, cache, turn) {
        return false;
    }
    gate.pass(&mutator.seat, section, u64::from(mutator.count));
    do_command(rt, heap, mutator, section, command, cache)
}
