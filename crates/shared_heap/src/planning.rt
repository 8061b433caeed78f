//! What section 0 of a shared world does: it makes the root.

use plain_heap::Plan;

/// The plan of section 0.
#[derive(Clone, Copy, Debug)]
pub struct RootPlan;

impl Plan for RootPlan {
    ghost use Rattle.shared_heap.specs.Planning.{root_plan};

    ghost plan = { λ root. root_plan };
}
