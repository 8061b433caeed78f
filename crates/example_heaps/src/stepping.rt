//! A mutator takes steps that don't wait, with a tracer beside it.

use shared_heap::{Came, SharedMutator, SharedSizes, SharedWorld, Stepper, Tracer, TryTurn};
use std::alloc::AllocGlobal;
use std::io;
use std::rt::Runtime;

/// The variables: the root, an object, and nothing.
const ROOT: u8 = 0;

const MADE: u8 = 1;

const NONE: u8 = 2;

/// How many steps a collection of 64 cells has at most.
const STEPS: u32 = 1_000;

fn reads_back(s: &mut Stepper) -> bool {
    let mut value = 0;
    s.enter() == Came::Done
        && s.root(ROOT) == Came::Done
        && s.make(MADE, 7) == Came::Done
        && s.exchange(ROOT, 0, NONE, MADE) == Ok(true)
        && s.forget(MADE) == Came::Done
        && s.get(MADE, ROOT, 0) == Came::Done
        && s.value(MADE, &mut value) == Came::Done
        && value == 7
}

fn collects(s: &mut Stepper) -> bool {
    for _ in 0..STEPS {
        match s.collect_step() {
            Came::NotYet => {}
            came => return came == Came::Done,
        }
    }
    false
}

fn turns(world: &mut SharedWorld, t: &mut Tracer) -> bool {
    t.try_turn() == TryTurn::Idle
        && world.try_dismiss_tracers()
        && t.try_turn() == TryTurn::Dismissed
}

fn frees(world: SharedWorld, s: Stepper, t: Tracer) -> bool {
    let mut world = world;
    match SharedMutator::of_steps(s) {
        Err(_) => false,
        Ok(m) => {
            world.take_mutator(m).is_ok() && world.take_tracer(t).is_ok() && world.free().is_ok()
        }
    }
}

fn step_and_free<R: AllocGlobal>(rt: &R) -> bool {
    let sizes = SharedSizes::of_cells(64).tracers(1).packets(8, 16);
    let Ok(mut world) = SharedWorld::open(rt.alloc(), sizes) else {
        return false;
    };
    let (Some(m), Some(mut t)) = (world.mutator(), world.tracer()) else {
        return false;
    };
    let mut s = m.into_steps();
    let stepped = reads_back(&mut s) && collects(&mut s);
    let turned = turns(&mut world, &mut t);
    frees(world, s, t) && stepped && turned
}

/// Takes the steps, and tells whether all went well.
pub fn tell<R: Runtime + AllocGlobal>(rt: &R) -> io::Result<()> {
    println!(rt; "stepping: {}", step_and_free(rt))
}
