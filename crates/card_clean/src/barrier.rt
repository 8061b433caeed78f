//! A mutator's stores in objects.
ghost use Rattle.std.specs.Prelude.{◌≡◌, ◌<◌, None, Some, IsFalse, IsTrue};
ghost use Rattle.mark_core.specs.Seats.{may_mutate};
ghost use Rattle.mark_core.specs.declared.kinds.Step.TheVariants.{StoreField, StoreValue};
ghost use Rattle.gc_table.specs.Seats.{Across, did, Sits, state_of, Stored, view_of};
ghost use Rattle.gc_table.specs.Sections.{section_after};
ghost use Rattle.card_clean.specs.Barrier.{HasOwn, IsStorable, MayStore, Paid, barrier_steps, field_stored, record_stored, value_stored, was_dirty};
ghost use Rattle.gc_table.specs.Log.{steps_of};
ghost use Rattle.gc_table.specs.Running.{Ran};

use gc_table::{Heap, HeapSeat};

/// Sees to the card that the seat owes: it is dirtied, unless it is dirty already. A store costs more than a load, and
/// most cards that are stored in once are stored in often.
#[inline(always)]
pub(crate) fn pay_card(heap: &Heap, seat: &mut HeapSeat, card: u32)
    requires seat { Sits heap.now seat.old }
    requires turn { IsTrue (may_mutate (state_of seat.old)) }
    requires owes { (state_of seat.old).owes ≡ Some card }
    ensures seat { Sits heap.now seat.new }
    ensures paid { Across (Paid card) seat.old seat.new }
{
    if !heap.check_card(seat, card) {
        heap.dirty_card(seat, card);
    }
}

/// The barrier: field `field` of variable v's object becomes what variable w is, or nil if `w` is None, and then the
/// object's card is dirtied, unless it is found dirty. The seat owes no card when the call returns.
///
/// Variables are numbered from 0 to 31. The object is of the seat's own section; the seat is in its section's turn, has
/// read a phase other than Full, and owes no card. None is for a heap in which some variable is nil.
///
/// The field comes first. In the other order a white cell x that is stored in a scanned object c can be lost:
///
/// ```text
/// mutator                         tracer
/// dirties the card of c,
/// or finds it dirty
///                                 clears the card of c
///                                 reads the old field of c
/// stores x in the field of c
/// ```
///
/// Now the card is clean, and no tracer looks at c again. With the field first, the card is dirty at a moment after the
/// store: a card that was cleared before is dirtied again, and one that is found dirty is cleared later. Whoever clears
/// it then reads x.
///
/// An object that isn't published yet needs no card: nobody scans it before, and then all its fields are read.
pub fn store_ref(heap: &Heap, seat: &mut HeapSeat, v: u8, field: u8, w: Option<u8>)
    requires seat { Sits heap.now seat.old × MayStore (view_of seat.old) }
    requires alone { IsFalse (view_of seat.old).shape.sharing }
    requires own { HasOwn (view_of seat.old) v }
    requires field { field < heap.now.shape.fields }
    requires stored { IsStorable (view_of seat.old) w }
    ensures seat { Sits heap.now seat.new × MayStore (view_of seat.new) }
    ensures ran { Across Ran seat.old seat.new }
    ensures steps { steps_of (did seat.old seat.new) ≡ barrier_steps (state_of seat.old) v field w (was_dirty (did seat.old seat.new)) }
    ensures state { state_of seat.new ≡ record_stored (state_of seat.old) v (was_dirty (did seat.old seat.new)) }
    ensures own { (view_of seat.new).own ≡ section_after (view_of seat.old).shape (view_of seat.old).plan (state_of seat.old) (StoreField v field w) (view_of seat.old).own }
    ensures plain { (view_of seat.new).own.meaning.heap ≡ field_stored (view_of seat.old).own.meaning.heap v field w }
{
    heap.store_field(seat, v, field, w);
    if let Some(card) = seat.state().owes {
        pay_card(heap, seat, card);
    }
}

/// Sets the value of variable v's object, and dirties no card. It asks what [`store_ref`] asks.
pub fn store_value(heap: &Heap, seat: &mut HeapSeat, v: u8, value: u32)
    requires seat { Sits heap.now seat.old × MayStore (view_of seat.old) }
    requires alone { IsFalse (view_of seat.old).shape.sharing }
    requires own { HasOwn (view_of seat.old) v }
    ensures seat { Sits heap.now seat.new × MayStore (view_of seat.new) }
    ensures ran { Across Ran seat.old seat.new }
    ensures view { Across (Stored (StoreValue v value)) seat.old seat.new }
    ensures plain { (view_of seat.new).own.meaning.heap ≡ value_stored (view_of seat.old).own.meaning.heap v value }
{
    heap.store_value(seat, v, value);
}
