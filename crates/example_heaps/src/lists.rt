//! Two threads make lists, all garbage but the last of each.
ghost use Rattle.std.specs.Prelude.{◌≡◌, IfSome};
ghost use Rattle.std.specs.Arc.{arc_value};
ghost use Rattle.std.specs.Thread.{IsSync};
ghost use Rattle.example_heaps.specs.Ending.{EndsWhole};

use crate::worlds::{Pair, close, open};
use managed_heap::{Mutator, Refused, Sizes, Words, threads_run};
use std::io;
use std::rt::Runtime;
use std::sync::Wait;
use std::thread::{Threads, join_mut};

/// The variables: the list, and one to work with.
const LIST: u8 = 0;

const MADE: u8 = 1;

/// How many objects a list has.
const LENGTH: u32 = 20;

/// How many lists each thread makes.
const LISTS: u32 = 500;

fn push<R: Wait>(rt: &R, m: &mut Mutator, value: u32) -> Result<(), Refused>
    ensures world { arc_value m.new.heap ≡ arc_value m.old.heap }
{
    m.make(rt, MADE, value)?;
    m.set(MADE, 0, LIST)?;
    m.copy(LIST, MADE)?;
    m.forget(MADE)
}

fn make_list<R: Wait>(rt: &R, m: &mut Mutator) -> Result<(), Refused>
    ensures world { arc_value m.new.heap ≡ arc_value m.old.heap }
{
    m.forget(LIST)?;
    for value in 0..LENGTH {
        push(rt, m, value)?;
    }
    Ok(())
}

/// One thread.
fn act<R: Wait>(rt: &R, m: &mut Mutator, lists: u32) -> Result<(), Refused>
    ensures world { arc_value m.new.heap ≡ arc_value m.old.heap }
{
    m.enter(rt)?;
    for _ in 0..lists {
        make_list(rt, m)?;
    }
    m.collect(rt)?;
    m.leave();
    Ok(())
}

fn act_both<R: Wait + Threads + Sync>(
    rt: &R,
    first: &mut Mutator,
    second: &mut Mutator,
    lists: u32,
) -> bool
    ensures first { arc_value first.new.heap ≡ arc_value first.old.heap }
    ensures second { arc_value second.new.heap ≡ arc_value second.old.heap }
{
    let (one, two) = join_mut(
        rt,
        &mut || -> bool
            requires { IsSync R.row }
            ensures { arc_value first.exit.now.heap ≡ arc_value first.entry.now.heap }
        { act(rt, first, lists).is_ok() },
        &mut || -> bool
            requires { IsSync R.row }
            ensures { arc_value second.exit.now.heap ≡ arc_value second.entry.now.heap }
        { act(rt, second, lists).is_ok() },
    );
    one && two
}

/// Whatever the schedule, the closed world's words are the end of one run of the two threads, no event of which freed a
/// reachable cell. None if a call was refused or there is no memory.
fn play<R: Wait + Threads + AllocGlobal + Sync>(rt: &R, lists: u32) -> Option<Words>
    ensures ended { IfSome result (λ w. EndsWhole w) }
{
    let Pair {
        world,
        mut first,
        mut second,
    } = open(rt.alloc(), Sizes::of_cells(128).mutators(2))?;
    if !act_both(rt, &mut first, &mut second, lists) {
        return None;
    }
    threads_run();
    close(rt.alloc(), world, first, second)
}

/// How many objects lie in the cells.
fn count(words: &Words) -> u32 {
    let mut all = 0u32;
    for word in words.alloc.iter() {
        all = all.saturating_add(word.count_ones());
    }
    all
}

/// Lets two threads make lists, and tells how many objects are left.
pub fn tell<R: Runtime + Wait + Threads + AllocGlobal + Sync>(rt: &R) -> io::Result<()> {
    match play(rt, LISTS) {
        Some(words) => println!(rt; "lists: objects {}", count(&words)),
        None => println!(rt; "lists: stopped"),
    }
}
