//! A shared world is closed, and hands out the run of its threads.
ghost use Rattle.std.specs.Prelude.{◌≡◌, All, IfErr, IfOk};
ghost use Rattle.std.specs.Arc.{arc_value};
ghost use Rattle.shared_heap.specs.Closing.{AreAllThere, HasLeft, IsSharedEnd};
ghost use Rattle.managed_heap.specs.WorldClosing.{AreGathered, IsUnclosed};

use crate::mutator::SharedMutator;
use crate::world::SharedWorld;
use gc_table::{Heap, HeapSeat, Room, Words};
use managed_heap::{Lent, NotClosed, Opened, close_world};
use plain_heap::OutOfMemory;
use seat_turns::Tracer;
use std::alloc::Global;
use std::sync::Arc;

impl Lent for SharedMutator {
    ghost heap_in = { λ m. arc_value m.heap };

    ghost seat_in = { λ m. m.seat };

    ghost leaves = { HasLeft };

    fn seat_number(&self) -> u32 {
        self.seat.number()
    }

    #[tactic(auto, using(managed_heap::proofs::Runs::runs))]
    fn hand_in(self) -> HeapSeat {
        let mut mutator = self;
        mutator.leave();
        let SharedMutator {
            heap: _,
            seat,
            place: _,
            name: _,
        } = mutator;
        seat
    }
}

impl Opened for SharedWorld {
    ghost heap_of = { λ w. arc_value w.heap };

    ghost zero_of = { λ w. w.zero };

    ghost tracers_of = { λ w. w.sizes.tracers };

    fn sections(&self) -> u32 {
        self.heap.shape().sections
    }

    fn tracer_count(&self) -> u32 {
        self.sizes.tracers
    }

    fn room(&self, alloc: Global) -> Result<Room, OutOfMemory> {
        self.heap.room(alloc)
    }

    fn into_heap(self) -> (Arc<Heap, Global>, HeapSeat) {
        let SharedWorld {
            heap,
            zero,
            mutators: untaken,
            tracers: idle,
            sizes: _,
        } = self;
        drop(untaken);
        drop(idle);
        (heap, zero)
    }
}

impl SharedWorld {
    /// Closes the world with all its mutators and tracers, each in the order of their numbers, and hands out its
    /// words: the end of one run, in which nobody else took part ([`threads_run`](crate::threads_run)). If one is
    /// missing, or there is no memory, all is handed back as it was; if somebody else has the heap still, the
    /// heap with the seats, to be tried again.
    pub fn close(
        self,
        alloc: Global,
        mutators: Vec<SharedMutator>,
        tracers: Vec<Tracer>,
    ) -> Result<Words, NotClosed<SharedWorld, SharedMutator>>
        requires same { All (λ m. arc_value m.heap ≡ arc_value self.heap) mutators.items }
        requires same_tracers { All (λ t. arc_value t.heap ≡ arc_value self.heap) tracers.items }
        ensures closed { IfOk result (λ w. IsSharedEnd self mutators.items tracers.items w) }
        ensures unclosed { IfErr result (λ e. IsUnclosed (AreAllThere self mutators.items tracers.items) (AreGathered HasLeft (arc_value self.heap) self.zero mutators.items tracers.items) e self mutators.items tracers.items) }
    {
        close_world(self, alloc, mutators, tracers)
    }
}
