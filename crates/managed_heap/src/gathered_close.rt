//! A world is closed with all that it lent.
ghost use Rattle.std.specs.Arc.{arc_value};
ghost use Rattle.std.specs.Bool.{OnFalse, OnTrue};
ghost use Rattle.std.specs.Prelude.{[], ◌≡◌, ◌≤◌, ◌+◌, All, IfErr, IfOk, IfSome, length, vec_capacity, vec_len};
ghost use Rattle.gc_table.specs.Ends.{HasRoom};
ghost use Rattle.managed_heap.specs.WorldClosing.{AreGathered, IsUnclosed};
ghost use Rattle.managed_heap.specs.Gathering.{AreOf, AreThere, IsEndOf};

use crate::gathered::Gathered;
use crate::gathering::{are_all, gather};
use crate::lent::{Lent, Opened};
use gc_table::{HeapSeat, Room, Words};
use seat_turns::Tracer;
use std::alloc::Global;

/// A world that wasn't closed, with the mutators and tracers that were handed in, all as they were.
#[derive(Drop)]
pub struct Unclosed<W, M> {
    /// The world.
    pub world: W,
    /// The mutators.
    pub mutators: Vec<M>,
    /// The tracers.
    pub tracers: Vec<Tracer>,
}

/// Why a world gave no words when it was closed.
#[derive(Drop)]
pub enum NotClosed<W, M> {
    /// A mutator or a tracer wasn't handed in, or they stand in another order than that of their numbers.
    Missing(Unclosed<W, M>),
    /// There is no memory for the words, or to gather the seats in.
    NoRoom(Unclosed<W, M>),
    /// All have left, and somebody else has the heap still.
    Held(Gathered),
}

fn are_there<W: Opened, M: Lent>(world: &W, mutators: &[M], tracers: &[Tracer]) -> bool
    ensures there { OnTrue result (AreThere M.seat_in (W.heap_of world.now) (W.tracers_of world.now) mutators.now tracers.now) }
    ensures missing { OnFalse result (AreThere M.seat_in (W.heap_of world.now) (W.tracers_of world.now) mutators.now tracers.now → ⊥) }
    ensures few { OnTrue result (length mutators.now + length tracers.now ≤ 8589934592) }
{
    let sections = world.sections();
    if sections == 0 {
        return false;
    }
    are_all(1, sections - 1, mutators) && are_all(sections, world.tracer_count(), tracers)
}

fn close_all<W: Opened, M: Lent>(
    world: W,
    mutators: Vec<M>,
    tracers: Vec<Tracer>,
    room: Vec<HeapSeat>,
    words: Room,
) -> Result<Words, Gathered>
    requires same { AreOf M.heap_in (W.heap_of world) mutators.items }
    requires same_tracers { All (λ t. arc_value t.heap ≡ W.heap_of world) tracers.items }
    requires there { AreThere M.seat_in (W.heap_of world) (W.tracers_of world) mutators.items tracers.items }
    requires room { (room.items ≡ []) × (vec_len mutators + 1 + vec_len tracers ≤ vec_capacity room) }
    requires words { HasRoom (W.heap_of world).shape words }
    ensures closed { IfOk result (λ w. IsEndOf M.leaves (W.heap_of world) (W.zero_of world) mutators.items tracers.items w) }
    ensures held { IfErr result (λ g. AreGathered M.leaves (W.heap_of world) (W.zero_of world) mutators.items tracers.items g) }
{
    let (heap, zero) = world.into_heap();
    let mut first = room;
    first.push_reserved(zero);
    let workers = gather(mutators, first);
    let seats = gather(tracers, workers);
    let gathered = Gathered { heap, seats, words };
    gathered.close()
}

/// Room for the seats of all that was handed in and of section 0, and for the words.
fn room_for<W: Opened>(world: &W, alloc: Global, lent: usize) -> Option<(Vec<HeapSeat>, Room)>
    requires few { lent ≤ 8589934592 }
    ensures seats { IfSome result (λ r. (r.0.items ≡ []) × (lent + 1 ≤ vec_capacity r.0)) }
    ensures words { IfSome result (λ r. HasRoom (W.heap_of world.now).shape r.1) }
{
    match (Vec::with_capacity(alloc, lent + 1), world.room(alloc)) {
        (Ok(seats), Ok(words)) => Some((seats, words)),
        _ => None,
    }
}

/// Closes a world of either kind with all that it lent, each in the order of their numbers, and hands out its words.
pub fn close_world<W: Opened, M: Lent>(
    world: W,
    alloc: Global,
    mutators: Vec<M>,
    tracers: Vec<Tracer>,
) -> Result<Words, NotClosed<W, M>>
    requires same { AreOf M.heap_in (W.heap_of world) mutators.items }
    requires same_tracers { All (λ t. arc_value t.heap ≡ W.heap_of world) tracers.items }
    ensures closed { IfOk result (λ w. IsEndOf M.leaves (W.heap_of world) (W.zero_of world) mutators.items tracers.items w) }
    ensures unclosed { IfErr result (λ e. IsUnclosed (AreThere M.seat_in (W.heap_of world) (W.tracers_of world) mutators.items tracers.items) (AreGathered M.leaves (W.heap_of world) (W.zero_of world) mutators.items tracers.items) e world mutators.items tracers.items) }
{
    if !are_there(&world, mutators.as_slice(), tracers.as_slice()) {
        return Err(NotClosed::Missing(Unclosed {
            world,
            mutators,
            tracers,
        }));
    }
    match room_for(&world, alloc, mutators.len() + tracers.len()) {
        Some((room, words)) => match close_all(world, mutators, tracers, room, words) {
            Ok(words) => Ok(words),
            Err(gathered) => Err(NotClosed::Held(gathered)),
        },
        None => Err(NotClosed::NoRoom(Unclosed {
            world,
            mutators,
            tracers,
        })),
    }
}
