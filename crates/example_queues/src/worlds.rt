//! A world of two threads, and of a mutator that lays the queue out before they begin.
ghost use Rattle.std.specs.Prelude.{◌≡◌, [], ◌∷◌, IfSome};
ghost use Rattle.std.specs.Arc.{arc_value};
ghost use Rattle.shared_heap.specs.Closing.{IsSharedEnd};
ghost use Rattle.example_queues.specs.Teams.{AreNew};

use shared_heap::{SharedMutator, SharedSizes, SharedWorld, Words};
use std::alloc::Global;

/// A world, and its three mutators, which have done nothing.
#[derive(Drop)]
pub struct SharedTeam {
    pub world: SharedWorld,
    pub first: SharedMutator,
    pub second: SharedMutator,
    pub maker: SharedMutator,
}

/// Opens a world for them.
pub fn open(alloc: Global, sizes: SharedSizes) -> Option<SharedTeam>
    ensures new { IfSome result (λ t. AreNew t.world t.first t.second t.maker) }
{
    let Ok(mut world) = SharedWorld::open(alloc, sizes) else {
        return None;
    };
    let Some(first) = world.mutator() else {
        return None;
    };
    let Some(second) = world.mutator() else {
        return None;
    };
    let Some(maker) = world.mutator() else {
        return None;
    };
    Some(SharedTeam {
        world,
        first,
        second,
        maker,
    })
}

/// Closes a world with its three mutators.
pub fn close(
    alloc: Global,
    world: SharedWorld,
    first: SharedMutator,
    second: SharedMutator,
    maker: SharedMutator,
) -> Option<Words>
    requires first { arc_value first.heap ≡ arc_value world.heap }
    requires second { arc_value second.heap ≡ arc_value world.heap }
    requires maker { arc_value maker.heap ≡ arc_value world.heap }
    ensures ended { IfSome result (λ w. IsSharedEnd world (first ∷ second ∷ maker ∷ []) [] w) }
{
    let Ok(mut all) = Vec::with_capacity(alloc, 3) else {
        return None;
    };
    all.push_reserved(first);
    all.push_reserved(second);
    all.push_reserved(maker);
    match world.close(alloc, all, Vec::new(alloc)) {
        Ok(words) => Some(words),
        Err(_) => None,
    }
}
