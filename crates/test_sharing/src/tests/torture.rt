//! Threads link, unlink, hand over and drop random graphs through the fields of objects that they share.
//!
//! In each round they make fewer objects than the heap has cells, and drop all at its end; so the heap is never full,
//! and is collected again and again while they change it. An object's value and number say who made it, and when in the
//! round. Once the threads are joined, each logged read is one of the stores, and what a walk finds in each reachable
//! field is what was stored there last.

use super::agreeing::wrongs;
use super::crew::trace;
use super::players::{PLACES, Player, THREADS};
use shared_heap::{SharedSizes, SharedWorld};
use std::alloc::Global;
use std::sync::Wait;
use std::thread::{Threads, for_each_mut, join_mut};

const ROUNDS: u32 = 4_000;

fn hire(alloc: Global, world: &mut SharedWorld) -> Option<Vec<Player>> {
    let mut players = Vec::new(alloc);
    for thread in 0..THREADS {
        let player = Player::new(alloc, world.mutator()?, thread)?;
        players.push(player).ok()?;
    }
    Some(players)
}

fn made_after(players: &[Player], before: [u64; 3]) -> [u64; 3] {
    let mut after = before;
    for (made, player) in after.iter_mut().zip(players) {
        *made = made.wrapping_add(u64::from(player.made));
    }
    after
}

/// How many answers and fields were wrong in a round.
fn round<R: Threads + Wait + Sync>(
    rt: &R,
    alloc: Global,
    players: &mut Vec<Player>,
    before: [u64; 3],
) -> Option<u64> {
    for player in players.iter_mut() {
        player.begin(before);
    }
    let threads = players.len();
    if threads == 0 {
        return None;
    }
    for_each_mut(
        rt,
        players.as_mut_slice(),
        threads,
        &|_, player: &mut Player| player.play(rt),
    );
    for player in players.iter_mut() {
        player.walk(rt)?;
    }
    let wrong = wrongs(alloc, players.as_slice())?;
    for player in players.iter_mut() {
        player.let_go(rt)?;
    }
    Some(wrong)
}

fn rounds<R: Threads + Wait + Sync>(
    rt: &R,
    alloc: Global,
    players: &mut Vec<Player>,
) -> Option<(u64, u64)> {
    let mut before = [0; 3];
    let mut wrong = 0u64;
    for _ in 0..ROUNDS {
        wrong = wrong.wrapping_add(round(rt, alloc, players, before)?);
        before = made_after(players.as_slice(), before);
    }
    for player in players {
        if !player.ended {
            return None;
        }
    }
    let [first, second, third] = before;
    Some((first.wrapping_add(second).wrapping_add(third), wrong))
}

/// How many objects three threads make, and how many answers were wrong.
fn tortures<R: Threads + Wait + Sync>(rt: &R, alloc: Global, cells: u32) -> Option<(u64, u64)> {
    let sizes = SharedSizes::of_cells(cells)
        .fields(3)
        .mutators(THREADS)
        .tracers(1)
        .slots(PLACES);
    let mut world = SharedWorld::open(alloc, sizes).ok()?;
    let mut players = hire(alloc, &mut world)?;
    let mut tracer = world.tracer()?;
    let (_, came) = join_mut(
        rt,
        &mut || trace(rt, &mut tracer),
        &mut || {
            let came = rounds(rt, alloc, &mut players);
            world.dismiss_tracers(rt);
            came
        },
    );
    came
}

#[test]
fn random_graphs_are_what_was_stored(rt: HostRuntime) {
    let Some((objects, wrong)) = tortures(&rt, rt.alloc(), 256) else {
        panic!(&rt; "refused")
    };
    assert!(&rt; wrong == 0);
    // The draws say how many objects are made, so there were at least 826,678 / 256 - 1 = 3,228 collections.
    assert!(&rt; objects == 826_678);
}
