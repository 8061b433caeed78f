//! A mutator's stores and exchanges if objects are shared.
ghost use Rattle.std.specs.Prelude.{◌≡◌, ◌<◌, IsTrue};
ghost use Rattle.mark_core.specs.Numbers.{section_variables};
ghost use Rattle.mark_core.specs.Steps.MutatorSteps.{in_variables, seat_variable as word_in};
ghost use Rattle.mark_core.specs.declared.kinds.Step.TheVariants.{StoreField, StoreValue, ExchangeValue};
ghost use Rattle.gc_table.specs.Log.{steps_of};
ghost use Rattle.gc_table.specs.Running.{Ran};
ghost use Rattle.gc_table.specs.Seats.{Across, Answered, did, Sits, state_of, Stored, view_of};
ghost use Rattle.gc_table.specs.Sections.{section_after};
ghost use Rattle.gc_table.specs.Taking.{won};
ghost use Rattle.card_clean.specs.Barrier.{Exchanged, MayStore, barrier_steps, record_stored, was_dirty};

use crate::barrier::pay_card;
use gc_table::{Heap, HeapSeat};
use mark_core::variable_or_nil;

/// The barrier if objects are shared: [`store_ref`](crate::store_ref), but whoever made the object. Variable v isn't
/// nil.
///
/// The store is done at the first step. Others may read and store in the object also before its card is seen to; no
/// collection ends between the two, since the seat is inside.
#[tactic(auto, using(crate::proofs::Owned::sharing))]
pub fn share_ref(heap: &Heap, seat: &mut HeapSeat, v: u8, field: u8, w: Option<u8>)
    requires seat { Sits heap.now seat.old × MayStore (view_of seat.old) }
    requires shared { IsTrue (view_of seat.old).shape.sharing }
    requires some { (v < section_variables) × (0 < word_in (state_of seat.old) v) }
    requires field { field < heap.now.shape.fields }
    requires stored { IsTrue (in_variables w) }
    ensures seat { Sits heap.now seat.new × MayStore (view_of seat.new) }
    ensures ran { Across Ran seat.old seat.new }
    ensures steps { steps_of (did seat.old seat.new) ≡ barrier_steps (state_of seat.old) v field w (was_dirty (did seat.old seat.new)) }
    ensures state { state_of seat.new ≡ record_stored (state_of seat.old) v (was_dirty (did seat.old seat.new)) }
    ensures own { (view_of seat.new).own ≡ section_after (view_of seat.old).shape (view_of seat.old).plan (state_of seat.old) (StoreField v field w) (view_of seat.old).own }
{
    heap.store_field(seat, v, field, w);
    if let Some(card) = seat.state().owes {
        pay_card(heap, seat, card);
    }
}

/// Sets the value of variable v's object, whoever made it. It asks what [`share_ref`] asks.
pub fn share_value(heap: &Heap, seat: &mut HeapSeat, v: u8, value: u32)
    requires seat { Sits heap.now seat.old × MayStore (view_of seat.old) }
    requires shared { IsTrue (view_of seat.old).shape.sharing }
    requires some { (v < section_variables) × (0 < word_in (state_of seat.old) v) }
    ensures seat { Sits heap.now seat.new × MayStore (view_of seat.new) }
    ensures ran { Across Ran seat.old seat.new }
    ensures view { Across (Stored (StoreValue v value)) seat.old seat.new }
{
    heap.store_value(seat, v, value);
}

/// The barrier of an exchange, if objects are shared. If field `field` of variable v's object is what variable
/// `expected` is, or nil, it becomes what variable `new` is, or nil, and then the object's card is dirtied, unless it is
/// found dirty: true. Otherwise nothing is done.
///
/// The exchange is one step: of several mutators that expect the same only one gets true.
pub fn exchange_ref(
    heap: &Heap,
    seat: &mut HeapSeat,
    v: u8,
    field: u8,
    expected: Option<u8>,
    new: Option<u8>,
) -> bool
    requires seat { Sits heap.now seat.old × MayStore (view_of seat.old) }
    requires shared { IsTrue (view_of seat.old).shape.sharing }
    requires some { (v < section_variables) × (0 < word_in (state_of seat.old) v) }
    requires field { field < heap.now.shape.fields }
    requires expected { IsTrue (in_variables expected) }
    requires stored { IsTrue (in_variables new) }
    ensures seat { Sits heap.now seat.new × MayStore (view_of seat.new) }
    ensures ran { Across Ran seat.old seat.new }
    ensures exchanged { Across (Exchanged v field expected new result) seat.old seat.new }
{
    let word = u64::from(variable_or_nil(seat.state(), expected));
    let found = heap.exchange_field(seat, v, field, expected, new);
    if let Some(card) = seat.state().owes {
        pay_card(heap, seat, card);
    }
    found == word
}

/// Sets the value of variable v's object, if it is the expected one: true if it was. It asks what [`share_ref`]
/// asks.
pub fn exchange_value(heap: &Heap, seat: &mut HeapSeat, v: u8, expected: u32, new: u32) -> bool
    requires seat { Sits heap.now seat.old × MayStore (view_of seat.old) }
    requires shared { IsTrue (view_of seat.old).shape.sharing }
    requires some { (v < section_variables) × (0 < word_in (state_of seat.old) v) }
    ensures seat { Sits heap.now seat.new × MayStore (view_of seat.new) }
    ensures ran { Across Ran seat.old seat.new }
    ensures view { Across (Answered (ExchangeValue v expected new) (λ n. result ≡ won (ExchangeValue v expected new) n)) seat.old seat.new }
{
    heap.exchange_value(seat, v, expected, new)
}
