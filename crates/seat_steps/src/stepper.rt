//! A mutator for one thread that doesn't wait.
ghost use Rattle.std.specs.Arc.{arc_value};
ghost use Rattle.std.specs.Prelude.{◌≡◌, ◌≤◌};
ghost use Rattle.mark_core.specs.Layout.{block_count};
ghost use Rattle.mark_core.specs.declared.kinds.Phase.TheVariants.{Drain, Sweep};
ghost use Rattle.gc_cycle.specs.Pieces.{CountsFrom, HasCounted, IsAtClear, LooksFrom, SeesRootsFrom};
ghost use Rattle.gc_cycle.specs.SharedSteps.{HasSweptShared, IsClosing, IsShared};
ghost use Rattle.gc_cycle.specs.Stepping.{AwaitsStop, Drains};
ghost use Rattle.seat_steps.specs.Asked.{CountsSinceAsked, MarksSinceAsked, SweepsSinceAsked, WaitsSinceAsked};
ghost use Rattle.seat_steps.specs.Collecting.{Collects};
ghost use Rattle.seat_turns.specs.Standing.{HoldsTurn, IsMutatorOutside};
ghost use Rattle.seat_steps.specs.declared.stepper.Stage.TheVariants as stages;

use gc_table::{Heap, HeapSeat};
use std::alloc::Global;
use std::sync::Arc;

/// Where a stepper stands: from `Stopping` on it collects.
#[derive(Clone, Copy, Debug, PartialEq, Eq, Drop)]
pub enum Stage {
    /// Outside the world.
    Outside,
    /// In the world, at its turn.
    Inside,
    /// It asked for a stop.
    Stopping,
    /// It sees to the roots.
    Rooting,
    /// It traces objects.
    Draining,
    /// It looks for a dirty card, since no object was left to trace.
    Looking,
    /// It cleans cards, since it found a dirty one.
    Cleaning,
    /// It clears all marks, to mark once more.
    Clearing,
    /// It sweeps, while helpers may.
    Sweeping,
    /// It counts the cells in use, since all blocks are swept.
    Counting,
    /// It has counted all cells in use.
    Ending,
    /// It traces objects, while helpers may.
    Sharing,
    /// It passes all cards and cleans the dirty ones, while helpers may trace.
    Passing,
    /// It traces objects, while helpers may, until all packets are empty.
    Emptying,
    /// It lets no more helpers trace, and waits until those that do have left.
    Closing,
    /// It lets no more helpers sweep, and waits until those that do have left.
    Parting,
}

/// A mutator for a thread that may not wait: what may take long is done in steps. Before it is dropped it has to leave:
/// a stop waits for each that is inside, and while it collects the world stands still.
#[derive(Drop)]
pub struct Stepper {
    pub(crate) heap: Arc<Heap, Global>,
    pub(crate) seat: HeapSeat,
    pub(crate) stage: Stage,
    pub(crate) name: u32,
    /// Whether the mutator that it was collects only in stops.
    pub(crate) in_stops: bool,
    /// Whether its collection is to be precise: if a cycle was marking, all is marked anew.
    pub(crate) precise: bool,
    /// Whether its collection leaves no garbage: it is precise, or no cycle was marking as the world stopped.
    pub(crate) exact: bool,
    /// Whether its collection is to mark once more, since it is precise and a cycle was marking.
    pub(crate) again: bool,
    /// Whether helpers were let into its drain.
    pub(crate) shared: bool,
    /// How many cells it has freed by its own sweep, as far as 32 bits hold, like the next three.
    pub(crate) freed: u32,
    pub(crate) traced: u32,
    pub(crate) cleaned: u32,
    /// How many objects it has scanned again, since their cards were dirty.
    pub(crate) rescanned: u32,
    /// How many objects it has traced to pay for its caches, as far as 64 bits hold.
    pub(crate) paid: u64,
    /// The root, card or block from which the pass of its stage goes on.
    pub(crate) next: u32,
    pub(crate) counted: u32,
    /// The block from which its search for a free cell goes on.
    pub(crate) block: u32,
    /// How many blocks that search has seen, one after another.
    pub(crate) seen: u32,
    ghost within: { block ≤ block_count (arc_value heap).shape },
    ghost outside: { stage ≡ stages.Outside → IsMutatorOutside (arc_value heap) seat },
    ghost inside: { stage ≡ stages.Inside → HoldsTurn (arc_value heap) seat },
    ghost stopping: { stage ≡ stages.Stopping → Collects AwaitsStop WaitsSinceAsked (arc_value heap) seat },
    ghost rooting: { stage ≡ stages.Rooting → Collects (SeesRootsFrom next) (MarksSinceAsked exact again) (arc_value heap) seat },
    ghost draining: { stage ≡ stages.Draining → Collects Drains (MarksSinceAsked exact again) (arc_value heap) seat },
    ghost looking: { stage ≡ stages.Looking → Collects (LooksFrom next) (MarksSinceAsked exact again) (arc_value heap) seat },
    ghost cleaning: { stage ≡ stages.Cleaning → Collects Drains (MarksSinceAsked exact again) (arc_value heap) seat },
    ghost clearing: { stage ≡ stages.Clearing → Collects IsAtClear WaitsSinceAsked (arc_value heap) seat },
    ghost sharing: { stage ≡ stages.Sharing → Collects (IsShared Drain) (MarksSinceAsked exact again) (arc_value heap) seat },
    ghost passing: { stage ≡ stages.Passing → Collects (IsShared Drain) (MarksSinceAsked exact again) (arc_value heap) seat },
    ghost emptying: { stage ≡ stages.Emptying → Collects (IsShared Drain) (MarksSinceAsked exact again) (arc_value heap) seat },
    ghost closing: { stage ≡ stages.Closing → Collects (IsClosing Drain) (MarksSinceAsked exact again) (arc_value heap) seat },
    ghost sweeping: { stage ≡ stages.Sweeping → Collects (IsShared Sweep) (SweepsSinceAsked exact) (arc_value heap) seat },
    ghost parting: { stage ≡ stages.Parting → Collects HasSweptShared (SweepsSinceAsked exact) (arc_value heap) seat },
    ghost counting: { stage ≡ stages.Counting → Collects (CountsFrom next counted) (CountsSinceAsked exact) (arc_value heap) seat },
    ghost ending: { stage ≡ stages.Ending → Collects (HasCounted counted) (CountsSinceAsked exact) (arc_value heap) seat },
}
