//! Worlds of two threads, which keep to their own objects or share them.
ghost use Rattle.std.specs.Prelude.{◌≡◌, [], ◌∷◌, IfSome};
ghost use Rattle.std.specs.Arc.{arc_value};
ghost use Rattle.managed_heap.specs.Closing.{IsWorldEnd};
ghost use Rattle.shared_heap.specs.Closing.{IsSharedEnd};
ghost use Rattle.example_heaps.specs.Pairs.{AreNew, AreOwn};

use managed_heap::{Mutator, Sizes, Words, World};
use shared_heap::{SharedMutator, SharedSizes, SharedWorld};
use std::alloc::Global;

/// A world and its two mutators.
#[derive(Drop)]
pub struct Pair {
    pub world: World,
    pub first: Mutator,
    pub second: Mutator,
}

/// Opens a world for two threads.
pub fn open(alloc: Global, sizes: Sizes) -> Option<Pair>
    ensures own { IfSome result (λ p. AreOwn p.world p.first p.second) }
{
    let Ok(mut world) = World::open(alloc, sizes) else {
        return None;
    };
    let Some(second) = world.mutator() else {
        return None;
    };
    let Some(first) = world.mutator() else {
        return None;
    };
    Some(Pair {
        world,
        first,
        second,
    })
}

/// Closes a world with its two mutators.
pub fn close(alloc: Global, world: World, first: Mutator, second: Mutator) -> Option<Words>
    requires first { arc_value first.heap ≡ arc_value world.heap }
    requires second { arc_value second.heap ≡ arc_value world.heap }
    ensures ended { IfSome result (λ w. IsWorldEnd world (first ∷ second ∷ []) [] w) }
{
    let Ok(mut all) = Vec::with_capacity(alloc, 2) else {
        return None;
    };
    all.push_reserved(first);
    all.push_reserved(second);
    match world.into_words(alloc, all, Vec::new(alloc)) {
        Ok(words) => Some(words),
        Err(_) => None,
    }
}

/// A world whose mutators share objects, and these, which have done nothing.
#[derive(Drop)]
pub struct SharedPair {
    pub world: SharedWorld,
    pub first: SharedMutator,
    pub second: SharedMutator,
}

/// Opens a world for two threads that share objects.
pub fn open_shared(alloc: Global, sizes: SharedSizes) -> Option<SharedPair>
    ensures new { IfSome result (λ p. AreNew p.world p.first p.second) }
{
    let Ok(mut world) = SharedWorld::open(alloc, sizes) else {
        return None;
    };
    let Some(first) = world.mutator() else {
        return None;
    };
    let Some(second) = world.mutator() else {
        return None;
    };
    Some(SharedPair {
        world,
        first,
        second,
    })
}

/// Closes a world whose mutators shared objects.
pub fn close_shared(
    alloc: Global,
    world: SharedWorld,
    first: SharedMutator,
    second: SharedMutator,
) -> Option<Words>
    requires first { arc_value first.heap ≡ arc_value world.heap }
    requires second { arc_value second.heap ≡ arc_value world.heap }
    ensures ended { IfSome result (λ w. IsSharedEnd world (first ∷ second ∷ []) [] w) }
{
    let Ok(mut all) = Vec::with_capacity(alloc, 2) else {
        return None;
    };
    all.push_reserved(first);
    all.push_reserved(second);
    match world.close(alloc, all, Vec::new(alloc)) {
        Ok(words) => Some(words),
        Err(_) => None,
    }
}
