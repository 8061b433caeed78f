//! A world of four threads that share objects.
ghost use Rattle.std.specs.Prelude.{◌≡◌, [], ◌∷◌, IfSome};
ghost use Rattle.std.specs.Arc.{arc_value};
ghost use Rattle.shared_heap.specs.Closing.{IsSharedEnd};
ghost use Rattle.example_orders.specs.Fours.{AreNew};

use shared_heap::{SharedMutator, SharedSizes, SharedWorld, Words};
use std::alloc::Global;

/// A world, and its four mutators, which have done nothing: of the two threads that store, and of the two that read.
#[derive(Drop)]
pub struct SharedFour {
    pub world: SharedWorld,
    pub value: SharedMutator,
    pub field: SharedMutator,
    pub first: SharedMutator,
    pub second: SharedMutator,
}

/// Opens a world for four threads.
pub fn open(alloc: Global, sizes: SharedSizes) -> Option<SharedFour>
    ensures new { IfSome result (λ f. AreNew f.world f.value f.field f.first f.second) }
{
    let Ok(mut world) = SharedWorld::open(alloc, sizes) else {
        return None;
    };
    let Some(value) = world.mutator() else {
        return None;
    };
    let Some(field) = world.mutator() else {
        return None;
    };
    let Some(first) = world.mutator() else {
        return None;
    };
    let Some(second) = world.mutator() else {
        return None;
    };
    Some(SharedFour {
        world,
        value,
        field,
        first,
        second,
    })
}

/// Closes a world with its four mutators.
pub fn close(
    alloc: Global,
    world: SharedWorld,
    value: SharedMutator,
    field: SharedMutator,
    first: SharedMutator,
    second: SharedMutator,
) -> Option<Words>
    requires value { arc_value value.heap ≡ arc_value world.heap }
    requires field { arc_value field.heap ≡ arc_value world.heap }
    requires first { arc_value first.heap ≡ arc_value world.heap }
    requires second { arc_value second.heap ≡ arc_value world.heap }
    ensures ended { IfSome result (λ w. IsSharedEnd world (value ∷ field ∷ first ∷ second ∷ []) [] w) }
{
    let Ok(mut all) = Vec::with_capacity(alloc, 4) else {
        return None;
    };
    all.push_reserved(value);
    all.push_reserved(field);
    all.push_reserved(first);
    all.push_reserved(second);
    match world.close(alloc, all, Vec::new(alloc)) {
        Ok(words) => Some(words),
        Err(_) => None,
    }
}
