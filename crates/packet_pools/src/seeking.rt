//! A packet is looked for in one pool.
ghost use Rattle.std.specs.Prelude.{ℕ, ◌≡◌, [], ◌∷◌, ◌<◌, ◌+◌, ◌-◌, ◌*◌, ◌/◌, ◌%◌, ◌≤◌, length, Some, true, IsTrue, IsFalse, IfSome, IfNone};
ghost use Rattle.mark_core.specs.Bits.{has_bit as has_bit_of};
ghost use Rattle.mark_core.specs.Held.{holds};
ghost use Rattle.mark_core.specs.Layout.{pool_words};
ghost use Rattle.mark_core.specs.Numbers.{high_pool_number, word_bits};
ghost use Rattle.gc_table.specs.Seats.{Across, did, Sits, state_of, view_of};
ghost use Rattle.packet_pools.specs.OnlyTraced.{OnlyTraced};
ghost use Rattle.packet_pools.specs.Seeking.{only_moves, was_got};
ghost use Rattle.packet_pools.specs.Gains.{FindsNone, Gains, GainsFirst, Seeks, missed};
ghost use Rattle.packet_pools.specs.Outside.{AreNotedOutside, KeepsOutside, LooksInVain};
ghost use Rattle.mark_core.specs.Places.{pool_at};
ghost use Rattle.gc_table.specs.Notes.{look};
ghost use Rattle.gc_table.specs.Log.{steps_of};
ghost use Rattle.mark_core.specs.declared.kinds.Step.TheVariants.{ReadLength, Take};
ghost use Rattle.packet_pools.specs.StepBounds.{TriesPackets, had_steps, pool_steps, try_steps};

use crate::giving::give;
use crate::held::Held;
use crate::lengths::read_length;
use gc_table::{Heap, HeapSeat};
use mark_core::{HIGH_POOL, WORD_BITS, has_bit};

fn take_packet(heap: &Heap, seat: &mut HeapSeat, q: u8, p: u32, not_full: bool) -> Option<Held>
    requires seat { Sits heap.now seat.old × Seeks q (view_of seat.old) }
    requires packet { (p < heap.now.shape.packets) × IsFalse (holds (state_of seat.old).held p) }
    requires high { IsTrue not_full → q ≡ high_pool_number }
    ensures seat { Sits heap.now seat.new }
    ensures only { Across OnlyTraced seat.old seat.new }
    ensures some { IfSome result (λ h. Across (Gains q not_full h) seat.old seat.new) }
    ensures taken { IfSome result (λ h. (h.packet ≡ p) × (steps_of (did seat.old seat.new) ≡ Take q p ∷ ReadLength p ∷ [])) }
    ensures none { IfNone result (Across (FindsNone heap.now.shape q not_full p (p + 1)) seat.old seat.new) }
    ensures outside { IfNone result (Across (KeepsOutside (q ∷ [])) seat.old seat.new) }
    ensures clear { IfNone result (IsFalse not_full → (n : ℕ) → look (pool_at (view_of seat.old).shape q (p / word_bits)) (view_of seat.old).known ≡ Some n → IsFalse (has_bit_of n (p % word_bits))) }
    ensures few { length (did seat.old seat.new) ≤ try_steps not_full + had_steps result }
{
    if !heap.take(seat, q, p) {
        return None;
    }
    let length = read_length(heap, seat, p);
    let held = Held { packet: p, length };
    if not_full && length == heap.shape().entries {
        give(heap, seat, held, false);
        return None;
    }
    Some(held)
}

fn take_shown(
    heap: &Heap,
    seat: &mut HeapSeat,
    q: u8,
    p: u32,
    word: u64,
    not_full: bool,
) -> Option<Held>
    requires seat { Sits heap.now seat.old × Seeks q (view_of seat.old) }
    requires shown { p < heap.now.shape.packets → IsTrue (has_bit_of word (p % word_bits)) → IsFalse (holds (state_of seat.old).held p) }
    requires high { IsTrue not_full → q ≡ high_pool_number }
    ensures seat { Sits heap.now seat.new }
    ensures only { Across OnlyTraced seat.old seat.new }
    ensures some { IfSome result (λ h. Across (Gains q not_full h) seat.old seat.new) }
    ensures taken { IfSome result (λ h. (h.packet ≡ p) × (steps_of (did seat.old seat.new) ≡ Take q p ∷ ReadLength p ∷ [])) }
    ensures none { IfNone result ((state_of seat.new ≡ state_of seat.old) × ((x : ℕ) → IsTrue (was_got x (did seat.old seat.new)) → IsTrue not_full × (x < p + 1)) × (p < heap.now.shape.packets → IsTrue (has_bit_of word (p % word_bits)) → IsTrue (missed heap.now.shape.entries q not_full p (did seat.old seat.new))) × IsTrue (only_moves (q ∷ []) (did seat.old seat.new))) }
    ensures outside { IfNone result (Across (KeepsOutside (q ∷ [])) seat.old seat.new) }
    ensures clear { IfNone result (IsFalse not_full → p < heap.now.shape.packets → look (pool_at (view_of seat.old).shape q (p / word_bits)) (view_of seat.old).known ≡ Some word → IsFalse (has_bit_of word (p % word_bits))) }
    ensures same { (p < heap.now.shape.packets → IsFalse (has_bit_of word (p % word_bits))) → view_of seat.new ≡ view_of seat.old }
    ensures few { (p < heap.now.shape.packets → length (did seat.old seat.new) ≤ try_steps not_full + had_steps result) × (heap.now.shape.packets ≤ p → length (did seat.old seat.new) ≤ 0) }
{
    if p < heap.shape().packets && has_bit(word, p % WORD_BITS) {
        take_packet(heap, seat, q, p, not_full)
    } else {
        None
    }
}

fn take_in_word(heap: &Heap, seat: &mut HeapSeat, q: u8, g: u32, not_full: bool) -> Option<Held>
    requires seat { Sits heap.now seat.old × Seeks q (view_of seat.old) }
    requires word { g < pool_words heap.now.shape }
    requires high { IsTrue not_full → q ≡ high_pool_number }
    ensures seat { Sits heap.now seat.new }
    ensures only { Across OnlyTraced seat.old seat.new }
    ensures some { IfSome result (λ h. Across (Gains q not_full h) seat.old seat.new) }
    ensures none { IfNone result (Across (FindsNone heap.now.shape q not_full (word_bits * g) (word_bits * g + word_bits)) seat.old seat.new) }
    ensures outside { IfNone result (Across (KeepsOutside (q ∷ [])) seat.old seat.new) }
    ensures vain { IfNone result (IsFalse not_full → IsTrue (state_of seat.old).alone → Across (LooksInVain heap.now.shape q g) seat.old seat.new) }
    ensures few { TriesPackets heap.now.shape not_full 1 (word_bits * g) (word_bits * g + word_bits) (had_steps result) (did seat.old seat.new) }
{
    let word = heap.look(seat, q, g);
    for p in WORD_BITS * g + word.trailing_zeros()..WORD_BITS * g + WORD_BITS {
        if let Some(held) = take_shown(heap, seat, q, p, word, not_full) {
            return Some(held);
        }
    }
    None
}

fn take_high_at(heap: &Heap, seat: &mut HeapSeat, p: u32) -> Option<Held>
    requires seat { Sits heap.now seat.old × Seeks high_pool_number (view_of seat.old) }
    requires packet { p < heap.now.shape.packets }
    ensures seat { Sits heap.now seat.new }
    ensures only { Across OnlyTraced seat.old seat.new }
    ensures some { IfSome result (λ h. Across (GainsFirst heap.now.shape high_pool_number p h) seat.old seat.new × (h.packet ≡ p)) }
    ensures none { IfNone result (Across (FindsNone heap.now.shape high_pool_number true p (p + 1)) seat.old seat.new) }
    ensures few { IfSome result (λ h. length (did seat.old seat.new) ≤ 3) × IfNone result (length (did seat.old seat.new) ≤ 5) }
{
    let word = heap.look(seat, HIGH_POOL, p / WORD_BITS);
    take_shown(heap, seat, HIGH_POOL, p, word, true)
}

/// Takes a packet with room from the high pool, the first from this one on.
pub(crate) fn take_high_from(heap: &Heap, seat: &mut HeapSeat, from: u32) -> Option<Held>
    requires seat { Sits heap.now seat.old × Seeks high_pool_number (view_of seat.old) }
    ensures seat { Sits heap.now seat.new }
    ensures only { Across OnlyTraced seat.old seat.new }
    ensures some { IfSome result (λ h. Across (GainsFirst heap.now.shape high_pool_number from h) seat.old seat.new) }
    ensures none { IfNone result (Across (FindsNone heap.now.shape high_pool_number true from heap.now.shape.packets) seat.old seat.new) }
    ensures few { IfSome result (λ h. length (did seat.old seat.new) ≤ 5 * (h.packet - from) + 3) × IfNone result (length (did seat.old seat.new) ≤ 5 * (heap.now.shape.packets - from)) }
{
    for p in from..heap.shape().packets {
        if let Some(held) = take_high_at(heap, seat, p) {
            return Some(held);
        }
    }
    None
}

/// With `not_full` a packet that is found full is given back, and the search goes on.
pub(crate) fn take_any(heap: &Heap, seat: &mut HeapSeat, q: u8, not_full: bool) -> Option<Held>
    requires seat { Sits heap.now seat.old × Seeks q (view_of seat.old) }
    requires high { IsTrue not_full → q ≡ high_pool_number }
    ensures seat { Sits heap.now seat.new }
    ensures only { Across OnlyTraced seat.old seat.new }
    ensures some { IfSome result (λ h. Across (Gains q not_full h) seat.old seat.new) }
    ensures none { IfNone result (Across (FindsNone heap.now.shape q not_full 0 (word_bits * pool_words heap.now.shape)) seat.old seat.new) }
    ensures outside { IfNone result (Across (KeepsOutside (q ∷ [])) seat.old seat.new) }
    ensures noted { IfNone result (IsFalse not_full → IsTrue (state_of seat.old).alone → AreNotedOutside q (view_of seat.new)) }
    ensures few { length (did seat.old seat.new) ≤ pool_steps not_full heap.now.shape + had_steps result }
{
    for g in 0..heap.shape().packets.div_ceil(WORD_BITS) {
        if let Some(held) = take_in_word(heap, seat, q, g, not_full) {
            return Some(held);
        }
    }
    None
}
