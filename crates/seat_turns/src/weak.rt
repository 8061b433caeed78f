//! Weak references to objects of a heap whose mutators share them: how one is taken, and how its object is had again.
ghost use Rattle.std.specs.Prelude.{◌≡◌, ◌<◌, IfNone, IfSome, IsTrue};
ghost use Rattle.mark_core.specs.Numbers.{section_variables};
ghost use Rattle.mark_core.specs.Steps.MutatorSteps.{seat_variable as word_in};
ghost use Rattle.gc_table.specs.Seats.{Across, state_of};
ghost use Rattle.mutator_ops.specs.Few.{AtMost};
ghost use Rattle.mutator_ops.specs.Upgrading.{Upgrades};
ghost use Rattle.mutator_ops.specs.Weak.{FindsUnpublished};
ghost use Rattle.seat_turns.specs.Standing.{HoldsTurn};
ghost use Rattle.seat_turns.specs.Weak.{TakesWeakIn, identity_of};

use crate::sharing::word_of;
use gc_table::{Heap, HeapSeat};
use mark_core::Cell;
use mutator_ops::{share_upgrade, share_weak};

/// The objects that a mutator may number.
const SPAN: u64 = 4_294_967_296;

/// A weak reference: plain numbers, which any thread may copy and keep. It keeps no object, and tells its object's death.
#[derive(Clone, Copy, Debug, PartialEq, Eq, Drop)]
#[repr(C)]
pub struct Weak {
    /// The name of the world.
    pub world: u32,
    /// The object's cell, below the world's number of cells.
    pub place: u32,
    /// The number of the mutator that made the object, counted from 1. The world itself is 0, and made the root.
    pub section: u32,
    /// How many objects that one had made before.
    pub number: u32,
}

/// What an upgrade of a weak reference came to.
#[derive(Clone, Copy, Debug, PartialEq, Eq, Drop)]
pub enum Upgraded {
    /// The variable refers to the object.
    Alive,
    /// The variable refers to nothing. No path leads to the object from any mutator's variables or slots, nor ever will.
    Dead,
    /// The weak reference is another world's, and nothing was done.
    OtherWorld,
}

fn identity_in(weak: Weak) -> u64
    ensures identity { result ≡ identity_of weak }
{
    u64::from(weak.section) * SPAN + u64::from(weak.number)
}

/// A weak reference to variable v's object, which isn't nil. What the mutator made itself it publishes first. None if
/// another mutator made the object and hasn't published it yet.
pub fn weak_shared(heap: &Heap, seat: &mut HeapSeat, world: u32, v: u8) -> Option<Weak>
    requires turn { HoldsTurn heap.now seat.old }
    requires shared { IsTrue heap.now.shape.sharing }
    requires range { v < section_variables }
    requires some { 0 < word_in (state_of seat.old) v }
    ensures turn { HoldsTurn heap.now seat.new }
    ensures takes { IfSome result (λ weak. Across (TakesWeakIn world v weak) seat.old seat.new) }
    ensures none { IfNone result (Across (FindsUnpublished v) seat.old seat.new) }
    ensures few { Across (AtMost 4) seat.old seat.new }
{
    let place = word_of(seat, v) - 1;
    let identity = share_weak(heap, seat, v)?;
    Some(Weak {
        world,
        place,
        section: (identity / SPAN) as u32,
        number: (identity % SPAN) as u32,
    })
}

/// Variable v becomes the weak reference's object if that is still in its cell: true. Else v is nil.
pub fn upgrade_shared(heap: &Heap, seat: &mut HeapSeat, weak: Weak, v: u8) -> bool
    requires turn { HoldsTurn heap.now seat.old }
    requires shared { IsTrue heap.now.shape.sharing }
    requires range { (v < section_variables) × (weak.place < heap.now.shape.cells) }
    ensures turn { HoldsTurn heap.now seat.new }
    ensures upgrades { Across (Upgrades v weak.place (identity_of weak) result) seat.old seat.new }
    ensures few { Across (AtMost 3) seat.old seat.new }
{
    share_upgrade(heap, seat, v, Cell::make(weak.place), identity_in(weak))
}
