//! Rounds of the four threads, each in a world of its own.
ghost use Rattle.std.specs.Prelude.{◌≡◌, IfSome, IsFalse};
ghost use Rattle.std.specs.Bool.{OnTrue};
ghost use Rattle.std.specs.Thread.{IsSync};
ghost use Rattle.shared_heap.specs.Logs.{Adds};
ghost use Rattle.example_orders.specs.Rounds.{AreAgainst, IsOrdered};
ghost use Rattle.example_orders.specs.Threads.{ReadsFieldFirst, ReadsValueFirst, StoresField, StoresValue};

use crate::laws::orders_open;
use crate::reading::{Reading, read_field_first, read_value_first, store_field, store_value};
use crate::worlds::{SharedFour, close, open};
use heap_laws::{lent_by_log, variables_read};
use shared_heap::{SharedMutator, SharedSizes, Words, threads_run};
use std::io;
use std::rt::Runtime;
use std::sync::Wait;
use std::thread::{Threads, join_mut};

/// How often the four threads play.
const ROUNDS: u32 = 100;

/// What both readers found.
#[derive(Clone, Copy)]
pub struct Readings {
    pub first: Reading,
    pub second: Reading,
}

/// The two threads that store: whether both did.
fn store_both<R: Wait + Threads + Sync>(
    rt: &R,
    value: &mut SharedMutator,
    field: &mut SharedMutator,
) -> bool
    ensures value { OnTrue result (Adds StoresValue value.old value.new) }
    ensures field { OnTrue result (Adds StoresField field.old field.new) }
{
    let (one, two) = join_mut(
        rt,
        &mut || -> bool
            requires { IsSync R.row }
            ensures { OnTrue result (Adds StoresValue value.entry.now value.exit.now) }
        { store_value(rt, value) },
        &mut || -> bool
            requires { IsSync R.row }
            ensures { OnTrue result (Adds StoresField field.entry.now field.exit.now) }
        { store_field(rt, field) },
    );
    one && two
}

/// The two threads that read: what they found.
fn read_both<R: Wait + Threads + Sync>(
    rt: &R,
    first: &mut SharedMutator,
    second: &mut SharedMutator,
) -> Option<Readings>
    ensures first { IfSome result (λ r. Adds (ReadsValueFirst r.first) first.old first.new) }
    ensures second { IfSome result (λ r. Adds (ReadsFieldFirst r.second) second.old second.new) }
{
    let (one, two) = join_mut(
        rt,
        &mut || -> Option<Reading>
            requires { IsSync R.row }
            ensures { IfSome result (λ r. Adds (ReadsValueFirst r) first.entry.now first.exit.now) }
        { read_value_first(rt, first) },
        &mut || -> Option<Reading>
            requires { IsSync R.row }
            ensures { IfSome result (λ r. Adds (ReadsFieldFirst r) second.entry.now second.exit.now) }
        { read_field_first(rt, second) },
    );
    match (one, two) {
        (Some(a), Some(b)) => Some(Readings {
            first: a,
            second: b,
        }),
        _ => None,
    }
}

/// All four threads: what the readers found.
fn play<R: Wait + Threads + Sync>(
    rt: &R,
    value: &mut SharedMutator,
    field: &mut SharedMutator,
    first: &mut SharedMutator,
    second: &mut SharedMutator,
) -> Option<Readings>
    ensures value { IfSome result (λ _. Adds StoresValue value.old value.new) }
    ensures field { IfSome result (λ _. Adds StoresField field.old field.new) }
    ensures first { IfSome result (λ r. Adds (ReadsValueFirst r.first) first.old first.new) }
    ensures second { IfSome result (λ r. Adds (ReadsFieldFirst r.second) second.old second.new) }
{
    let (stored, read) = join_mut(
        rt,
        &mut || -> bool
            requires { IsSync R.row }
            ensures { OnTrue result (Adds StoresValue value.entry.now value.exit.now × Adds StoresField field.entry.now field.exit.now) }
        { store_both(rt, value, field) },
        &mut || -> Option<Readings>
            requires { IsSync R.row }
            ensures { IfSome result (λ r. Adds (ReadsValueFirst r.first) first.entry.now first.exit.now × Adds (ReadsFieldFirst r.second) second.entry.now second.exit.now) }
        { read_both(rt, first, second) },
    );
    if stored { read } else { None }
}

/// What the readers found, and the words of the closed world.
#[derive(Drop)]
pub struct Played {
    pub readings: Readings,
    pub words: Words,
}

/// One round: whatever the schedule, the readers don't contradict each other. None if a call was refused or there is no
/// memory.
fn round<R: Wait + Threads + AllocGlobal + Sync>(rt: &R) -> Option<Played>
    ensures ordered { IfSome result (λ r. IsOrdered r.readings r.words) }
{
    let SharedFour {
        world,
        mut value,
        mut field,
        mut first,
        mut second,
    } = open(rt.alloc(), SharedSizes::of_cells(64).mutators(4))?;
    // While they act this is so of what they have done so far.
    orders_open();
    let readings = play(rt, &mut value, &mut field, &mut first, &mut second)?;
    threads_run();
    lent_by_log();
    variables_read();
    let words = close(rt.alloc(), world, value, field, first, second)?;
    Some(Played { readings, words })
}

/// Whether one reader found that only the value was stored, and the other that only the field was.
fn contradict(readings: Readings) -> bool
    ensures against { OnTrue result (AreAgainst readings) }
{
    let one = readings.first;
    let two = readings.second;
    one.value == 1 && !one.stored && two.stored && two.value == 0
}

/// One round: whether the readers contradicted each other, which they never do.
fn play_once<R: Wait + Threads + AllocGlobal + Sync>(rt: &R) -> Option<bool>
    ensures agree { IfSome result (λ b. IsFalse b) }
{
    let played = round(rt)?;
    Some(contradict(played.readings))
}

/// So many rounds: in how many of them the readers contradicted each other.
fn play_often<R: Wait + Threads + AllocGlobal + Sync>(rt: &R, rounds: u32) -> Option<u32>
    ensures agree { IfSome result (λ n. n ≡ 0) }
{
    let mut done = 0u32;
    let mut against = 0u32;
    for _ in rt.forever() {
        if done >= rounds {
            break;
        }
        let contradicted = play_once(rt)?;
        against = against.saturating_add(u32::from(contradicted));
        done += 1;
    }
    Some(against)
}

/// Plays the rounds, and tells in how many of them the readers contradicted each other.
pub fn tell<R: Runtime + Wait + Threads + AllocGlobal + Sync>(rt: &R) -> io::Result<()> {
    match play_often(rt, ROUNDS) {
        Some(against) => println!(rt; "orders: {ROUNDS} rounds, contradicted in {against}"),
        None => println!(rt; "orders: stopped"),
    }
}
