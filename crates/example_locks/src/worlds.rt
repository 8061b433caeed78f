//! A world of two threads that share objects.
ghost use Rattle.std.specs.Prelude.{◌≡◌, [], ◌∷◌, IfSome};
ghost use Rattle.std.specs.Arc.{arc_value};
ghost use Rattle.shared_heap.specs.Closing.{IsSharedEnd};
ghost use Rattle.example_locks.specs.Pairs.{AreNew};

use shared_heap::{SharedMutator, SharedSizes, SharedWorld, Words};
use std::alloc::Global;

/// A world, and its two mutators, which have done nothing.
#[derive(Drop)]
pub struct SharedPair {
    pub world: SharedWorld,
    pub first: SharedMutator,
    pub second: SharedMutator,
}

/// Opens a world for two threads.
pub fn open(alloc: Global, sizes: SharedSizes) -> Option<SharedPair>
    ensures new { IfSome result (λ p. AreNew p.world p.first p.second) }
{
    let Ok(mut world) = SharedWorld::open(alloc, sizes) else {
        return None;
    };
    let Some(first) = world.mutator() else {
        return None;
    };
    let Some(second) = world.mutator() else {
        return None;
    };
    Some(SharedPair {
        world,
        first,
        second,
    })
}

/// Closes a world with its two mutators.
pub fn close(
    alloc: Global,
    world: SharedWorld,
    first: SharedMutator,
    second: SharedMutator,
) -> Option<Words>
    requires first { arc_value first.heap ≡ arc_value world.heap }
    requires second { arc_value second.heap ≡ arc_value world.heap }
    ensures ended { IfSome result (λ w. IsSharedEnd world (first ∷ second ∷ []) [] w) }
{
    let Ok(mut all) = Vec::with_capacity(alloc, 2) else {
        return None;
    };
    all.push_reserved(first);
    all.push_reserved(second);
    match world.close(alloc, all, Vec::new(alloc)) {
        Ok(words) => Some(words),
        Err(_) => None,
    }
}
