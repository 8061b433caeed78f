//! Two threads share a queue.
ghost use Rattle.std.specs.Arc.{arc_value};
ghost use Rattle.std.specs.Prelude.{[], ◌∷◌, IfSome};
ghost use Rattle.std.specs.Thread.{IsSync};
ghost use Rattle.example_queues.specs.Logs.{Works};
ghost use Rattle.example_queues.specs.Queueing.{IsQueued};

use crate::laws::queue_open;
use crate::laying::{ROOT, come, lay, let_go};
use crate::lining::{Line, line_up};
use crate::tallying::Tally;
use crate::worlds::{SharedTeam, close, open};
use example_structures::SharedQueue;
use queue_laws::{queue_by_lending, queue_by_name};
use shared_heap::{SharedMutator, SharedSizes, Words, threads_run};
use std::alloc::Global;
use std::io;
use std::rt::Runtime;
use std::sync::Wait;
use std::thread::{Threads, join_mut};

/// The variable of the object beside a number, which is none.
const ITEM: u8 = 1;

/// How many numbers each thread puts in.
const NUMBERS: u32 = 1000;

/// Puts a number in, and takes one out. There is one: who takes has put one in for each that he took.
fn turn<R: Wait>(rt: &R, m: &mut SharedMutator, number: u32) -> Option<u64>
    ensures works { IfSome result (λ n. Works (number ∷ []) (n ∷ []) m.old m.new) }
{
    let queue = SharedQueue::at(ROOT)?;
    if queue.put(rt, m, ITEM, number).is_err() {
        return None;
    }
    match queue.take(rt, m, ITEM) {
        Ok(taken) => taken,
        Err(_) => None,
    }
}

/// A turn for each of these numbers: what it took.
fn turns<R: Wait + AllocGlobal>(rt: &R, m: &mut SharedMutator, numbers: &[u32]) -> Option<Vec<u64>>
    ensures works { IfSome result (λ taken. Works numbers.now taken.items m.old m.new) }
{
    let mut taken = Vec::new(rt.alloc());
    for number in numbers {
        let one = turn(rt, m, *number)?;
        if taken.push(one).is_err() {
            return None;
        }
    }
    Some(taken)
}

/// One thread.
fn act<R: Wait + AllocGlobal>(rt: &R, m: &mut SharedMutator, numbers: &[u32]) -> Option<Vec<u64>>
    ensures works { IfSome result (λ taken. Works numbers.now taken.items m.old m.new) }
{
    if m.enter(rt).is_err() {
        return None;
    }
    let taken = turns(rt, m, numbers)?;
    m.leave();
    Some(taken)
}

/// Both threads, each with its numbers: what each took.
fn play<R: Wait + Threads + AllocGlobal + Sync>(
    rt: &R,
    first: &mut SharedMutator,
    second: &mut SharedMutator,
    firsts: &[u32],
    seconds: &[u32],
) -> Option<(Vec<u64>, Vec<u64>)>
    ensures first { IfSome result (λ taken. Works firsts.now taken.0.items first.old first.new) }
    ensures second { IfSome result (λ taken. Works seconds.now taken.1.items second.old second.new) }
{
    let (one, two) = join_mut(
        rt,
        &mut || -> Option<Vec<u64>>
            requires { IsSync R.row }
            ensures { IfSome result (λ taken. Works firsts.entry.now taken.items first.entry.now first.exit.now) }
        { act(rt, first, firsts) },
        &mut || -> Option<Vec<u64>>
            requires { IsSync R.row }
            ensures { IfSome result (λ taken. Works seconds.entry.now taken.items second.entry.now second.exit.now) }
        { act(rt, second, seconds) },
    );
    match (one, two) {
        (Some(a), Some(b)) => Some((a, b)),
        _ => None,
    }
}

/// What both took, and the words of the closed world.
#[derive(Drop)]
pub struct Played {
    pub first: Vec<u64>,
    pub second: Vec<u64>,
    pub words: Words,
}

/// Two threads put these numbers in, and each takes one out for each. Whatever the schedule, what they took went in, and
/// comes in the order in which it went in. None if a call was refused or there is no memory.
fn run_queue<R: Wait + Threads + AllocGlobal + Sync>(
    rt: &R,
    firsts: &[u32],
    seconds: &[u32],
) -> Option<Played>
    ensures queued { IfSome result (λ p. IsQueued firsts.now seconds.now p.first.items p.second.items p.words) }
{
    let SharedTeam {
        world,
        mut first,
        mut second,
        mut maker,
    } = open(rt.alloc(), SharedSizes::of_cells(256).mutators(3))?;
    if !come(rt, &mut first) || !come(rt, &mut second) || !lay(rt, &mut maker) {
        return None;
    }
    let Line {
        first: mut one,
        second: mut two,
    } = line_up(&mut first, &mut second, &mut maker)?;
    if !let_go(rt, &mut maker) {
        return None;
    }
    // While they act this is so of what they have done so far.
    queue_open();
    let (taken_first, taken_second) = play(rt, &mut first, &mut second, firsts, seconds)?;
    if !maker.after(&mut one) || !maker.after(&mut two) {
        return None;
    }
    threads_run();
    queue_by_lending();
    queue_by_name();
    let words = close(rt.alloc(), world, first, second, maker)?;
    Some(Played {
        first: taken_first,
        second: taken_second,
        words,
    })
}

/// The numbers from this one on.
fn numbers_from(alloc: Global, from: u32) -> Option<Vec<u32>> {
    let mut numbers = Vec::new(alloc);
    for k in 0..NUMBERS {
        if numbers.push(from.saturating_add(k)).is_err() {
            return None;
        }
    }
    Some(numbers)
}

/// Two threads share a queue: one puts in the numbers from 0 on, and the other those behind.
fn run<R: Wait + Threads + AllocGlobal + Sync>(rt: &R) -> Option<Played> {
    let firsts = numbers_from(rt.alloc(), 0)?;
    let seconds = numbers_from(rt.alloc(), NUMBERS)?;
    run_queue(rt, firsts.as_slice(), seconds.as_slice())
}

/// Lets two threads share a queue, and tells what they took.
pub fn tell<R: Runtime + Wait + Threads + AllocGlobal + Sync>(rt: &R) -> io::Result<()> {
    match run(rt) {
        Some(played) => {
            let border = u64::from(NUMBERS);
            let first = Tally::of(played.first.as_slice(), border);
            let second = Tally::of(played.second.as_slice(), border);
            println!(rt;
                "queue: {} numbers put in and taken, sum {}, each thread's in order {}",
                border.saturating_mul(2),
                first.sum.saturating_add(second.sum),
                first.in_order && second.in_order
            )
        }
        None => println!(rt; "queue: stopped"),
    }
}
