//! Calls of a mutator whose heap shares its objects. The objects may be anybody's, and each call takes effect at one of
//! the steps that it lists.
ghost use Rattle.std.specs.Prelude.{◌≡◌, ◌≢◌, ◌<◌, ◌-◌, ◌∷◌, [], IfNone, IfSome, IsTrue, Some};
ghost use Rattle.std.specs.Int.Count.{ones};
ghost use Rattle.mark_core.specs.Numbers.{section_variables};
ghost use Rattle.mark_core.specs.Steps.MutatorSteps.{in_variables, seat_variable as word_in};
ghost use Rattle.mark_core.specs.declared.kinds.Step.TheVariants.{ExchangeValue, ReadValue, StoreSlot};
ghost use Rattle.alloc_cache.specs.Caching.{IsCached};
ghost use Rattle.card_clean.specs.Barrier.{Exchanged};
ghost use Rattle.gc_table.specs.Running.{Ran};
ghost use Rattle.gc_table.specs.Taking.{won};
ghost use Rattle.gc_table.specs.Seats.{Across, Answered, Found, Sits, state_of, view_of};
ghost use Rattle.mutator_ops.specs.Sharing.{FillsFound, FollowsFound, LendsFound, SetsField, ShareCreates, SharesReady, SetsVariable, TakesSteps, putting_steps};

use crate::making::next_identity;
use crate::variables::word_of;
use alloc_cache::{Cache, new_cell};
use card_clean::{exchange_ref, exchange_value, share_ref, share_value};
use gc_table::{Heap, HeapSeat};
use mark_core::Cell;

/// Field i of variable v's object becomes what variable w is, by the barrier. Nothing happens if v is nil.
pub fn share_set(heap: &Heap, seat: &mut HeapSeat, v: u8, i: u8, w: u8)
    requires seat { Sits heap.now seat.old × SharesReady (view_of seat.old) }
    requires range { (v < section_variables) × (i < heap.now.shape.fields) × (w < section_variables) }
    ensures seat { Sits heap.now seat.new × SharesReady (view_of seat.new) }
    ensures takes { Across (SetsField v i w) seat.old seat.new }
{
    if word_of(seat, v) == 0 {
        return;
    }
    share_ref(heap, seat, v, i, Some(w));
}

/// Variable v becomes field i of variable w's object, which isn't nil.
pub fn share_follow(heap: &Heap, seat: &mut HeapSeat, v: u8, w: u8, i: u8)
    requires seat { Sits heap.now seat.old × SharesReady (view_of seat.old) }
    requires range { (v < section_variables) × (w < section_variables) × (i < heap.now.shape.fields) }
    requires some { 0 < word_in (state_of seat.old) w }
    ensures seat { Sits heap.now seat.new × SharesReady (view_of seat.new) }
    ensures follows { Across (FollowsFound v w i) seat.old seat.new }
{
    let word = word_of(seat, w);
    heap.read_own(seat, Cell::make(word - 1), i);
    let field = seat.state().got;
    heap.hold_root(seat, v, u64::from(field));
}

/// If field i of variable v's object, which isn't nil, is what variable `expected` is, or nil, it becomes what variable
/// `new` is, or nil, by the barrier: true if it was. Of several that expect the same one wins.
pub fn share_exchange(
    heap: &Heap,
    seat: &mut HeapSeat,
    v: u8,
    i: u8,
    expected: Option<u8>,
    new: Option<u8>,
) -> bool
    requires seat { Sits heap.now seat.old × SharesReady (view_of seat.old) }
    requires range { (v < section_variables) × (i < heap.now.shape.fields) × IsTrue (in_variables expected) × IsTrue (in_variables new) }
    requires some { 0 < word_in (state_of seat.old) v }
    ensures seat { Sits heap.now seat.new × SharesReady (view_of seat.new) }
    ensures ran { Across Ran seat.old seat.new }
    ensures exchanged { Across (Exchanged v i expected new result) seat.old seat.new }
    ensures state { state_of seat.new ≡ state_of seat.old }
{
    exchange_ref(heap, seat, v, i, expected, new)
}

/// If the value of variable v's object, which isn't nil, is the expected one it becomes the new one: true if it
/// was.
pub fn share_count(heap: &Heap, seat: &mut HeapSeat, v: u8, expected: u32, new: u32) -> bool
    requires seat { Sits heap.now seat.old × SharesReady (view_of seat.old) }
    requires range { v < section_variables }
    requires some { 0 < word_in (state_of seat.old) v }
    ensures seat { Sits heap.now seat.new × SharesReady (view_of seat.new) }
    ensures ran { Across Ran seat.old seat.new }
    ensures view { Across (Answered (ExchangeValue v expected new) (λ n. result ≡ won (ExchangeValue v expected new) n)) seat.old seat.new }
{
    exchange_value(heap, seat, v, expected, new)
}

/// The value of variable v's object, by one read; None if v is nil, without a step. It has 64 bits: no clause says that
/// only values of 32 are stored.
pub fn share_value_of(heap: &Heap, seat: &mut HeapSeat, v: u8) -> Option<u64>
    requires seat { Sits heap.now seat.old × SharesReady (view_of seat.old) }
    requires range { v < section_variables }
    ensures seat { Sits heap.now seat.new × SharesReady (view_of seat.new) }
    ensures some { IfSome result (λ n. (0 < word_in (state_of seat.old) v) × Across (Found (ReadValue (word_in (state_of seat.old) v - 1)) n) seat.old seat.new) }
    ensures none { IfNone result ((word_in (state_of seat.old) v ≡ 0) × (view_of seat.new ≡ view_of seat.old)) }
{
    let word = word_of(seat, v);
    if word == 0 {
        return None;
    }
    Some(heap.read_value(seat, Cell::make(word - 1)))
}

/// The value of variable v's object becomes n. Nothing happens if v is nil.
pub fn share_put(heap: &Heap, seat: &mut HeapSeat, v: u8, n: u32)
    requires seat { Sits heap.now seat.old × SharesReady (view_of seat.old) }
    requires range { v < section_variables }
    ensures seat { Sits heap.now seat.new × SharesReady (view_of seat.new) }
    ensures takes { Across (TakesSteps (putting_steps (state_of seat.old) v n)) seat.old seat.new }
{
    if word_of(seat, v) == 0 {
        return;
    }
    share_value(heap, seat, v, n);
}

/// Variable v becomes what variable w is.
pub fn share_copy(heap: &Heap, seat: &mut HeapSeat, v: u8, w: u8)
    requires seat { Sits heap.now seat.old × SharesReady (view_of seat.old) }
    requires range { (v < section_variables) × (w < section_variables) }
    ensures seat { Sits heap.now seat.new × SharesReady (view_of seat.new) }
    ensures sets { Across (SetsVariable v (word_in (state_of seat.old) w)) seat.old seat.new }
{
    let word = word_of(seat, w);
    heap.hold_root(seat, v, u64::from(word));
}

/// Variable v becomes nil.
pub fn share_forget(heap: &Heap, seat: &mut HeapSeat, v: u8)
    requires seat { Sits heap.now seat.old × SharesReady (view_of seat.old) }
    requires range { v < section_variables }
    ensures seat { Sits heap.now seat.new × SharesReady (view_of seat.new) }
    ensures sets { Across (SetsVariable v 0) seat.old seat.new }
{
    heap.hold_root(seat, v, 0);
}

/// Variable v becomes what one read of variable c of section 0 finds. The seat is of another section.
pub fn share_lend(heap: &Heap, seat: &mut HeapSeat, v: u8, c: u8)
    requires seat { Sits heap.now seat.old × SharesReady (view_of seat.old) }
    requires range { (v < section_variables) × (c < section_variables) }
    requires other { (state_of seat.old).section ≢ Some 0 }
    ensures seat { Sits heap.now seat.new × SharesReady (view_of seat.new) }
    ensures lends { Across (LendsFound v c) seat.old seat.new }
{
    heap.read_cat(seat, c);
    let word = seat.state().got;
    heap.hold_root(seat, v, u64::from(word));
}

/// Makes an object with value n and nil fields in a cell of the cache; variable v refers to it, by the last step. The
/// answer is None exactly if the cache has no free cell, and nothing changes.
pub fn share_create(
    heap: &Heap,
    seat: &mut HeapSeat,
    cache: &mut Cache,
    v: u8,
    n: u32,
) -> Option<Cell>
    requires seat { Sits heap.now seat.old × SharesReady (view_of seat.old) }
    requires cache { IsCached cache.old (view_of seat.old) }
    requires range { v < section_variables }
    requires room { (state_of seat.old).made < heap.now.shape.objects }
    ensures seat { Sits heap.now seat.new × SharesReady (view_of seat.new) }
    ensures cache { IsCached cache.new (view_of seat.new) }
    ensures creates { IfSome result (λ cell. (cell < heap.now.shape.cells) × Across (ShareCreates v n cell) seat.old seat.new) }
    ensures none { IfNone result ((ones cache.old.cells ≡ 0) × (cache.new ≡ cache.old) × (view_of seat.new ≡ view_of seat.old)) }
{
    let id = next_identity(seat);
    let cell = new_cell(heap, seat, cache, id, n)?;
    heap.hold_root(seat, v, u64::from(cell.number()) + 1);
    Some(cell)
}

/// Slot k of the seat's section becomes what variable v is: a spill.
pub fn share_spill(heap: &Heap, seat: &mut HeapSeat, v: u8, k: u16)
    requires seat { Sits heap.now seat.old × SharesReady (view_of seat.old) }
    requires range { (v < section_variables) × (k < heap.now.shape.slots) }
    ensures seat { Sits heap.now seat.new × SharesReady (view_of seat.new) }
    ensures takes { Across (TakesSteps (StoreSlot k (word_in (state_of seat.old) v) ∷ [])) seat.old seat.new }
{
    let word = word_of(seat, v);
    heap.store_slot(seat, k, u64::from(word));
}

/// Variable v becomes what slot k of the seat's section is: a fill.
pub fn share_fill(heap: &Heap, seat: &mut HeapSeat, v: u8, k: u16)
    requires seat { Sits heap.now seat.old × SharesReady (view_of seat.old) }
    requires range { (v < section_variables) × (k < heap.now.shape.slots) }
    ensures seat { Sits heap.now seat.new × SharesReady (view_of seat.new) }
    ensures fills { Across (FillsFound v k) seat.old seat.new }
{
    heap.read_slot(seat, k);
    let reference = seat.state().got;
    heap.hold_root(seat, v, u64::from(reference));
}
