//! A tracer gives some of its work to others if they lack it.
ghost use Rattle.std.specs.Prelude.{ℕ, ◌≡◌, ◌<◌, ◌==◌, ◌∷◌, List, Option, None, IsTrue, IsFalse, ◌≤◌, ◌*◌, ◌-◌, ◌%◌, length};
ghost use Rattle.mark_core.specs.Layout.{pool_words};
ghost use Rattle.mark_core.specs.Numbers.{pools_in_all};
ghost use Rattle.mark_core.specs.Seats.{work_in_hand};
ghost use Rattle.mark_core.specs.declared.kinds.Step.TheVariants.{Look};
ghost use Rattle.gc_table.specs.Seats.{Across, Answered, did, state_of, view_of};
ghost use Rattle.packet_pools.specs.OnlyTraced.{OnlyTraced};
ghost use Rattle.packet_pools.specs.Seeking.{input_pools, only_moves};
ghost use Rattle.packet_pools.specs.Tracing.{IsTracer};
ghost use Rattle.tracer.specs.Hands.{Carries, packets_of};
ghost use Rattle.tracer.specs.Parts.{Did};
ghost use Rattle.packet_pools.specs.StepBounds.{output_steps};
ghost use Rattle.tracer.specs.Searched.{Searches};
ghost use Rattle.tracer.specs.StepBounds.{share_each, share_steps};

use crate::packets::{Packets, give_some, go_on};
use gc_table::{Heap, HeapSeat};
use mark_core::{HIGH_POOL, LOW_POOL, WORD_BITS};
use packet_pools::{Search, take_output};
use std::mem;

/// The least number of cells of a packet that is given away.
const SHARE_CELLS: u32 = 4;

/// Objects between two looks whether others lack work.
const SHARE_EACH: u32 = 64;

fn is_bare(heap: &Heap, seat: &mut HeapSeat, q: u8, g: u32) -> bool
    requires seat { IsTracer heap.now seat.old }
    requires word { (q < pools_in_all) × (g < pool_words heap.now.shape) }
    ensures seat { IsTracer heap.now seat.new }
    ensures only { Across OnlyTraced seat.old seat.new }
    ensures state { state_of seat.new ≡ state_of seat.old }
    ensures looks { Across (Answered (Look q g) (λ n. result ≡ (n == 0))) seat.old seat.new }
    ensures moves { (qs : List ℕ) → IsTrue (only_moves qs (did seat.old seat.new)) }
    ensures few { length (did seat.old seat.new) ≤ 1 }
{
    heap.look(seat, q, g) == 0
}

fn are_bare(heap: &Heap, seat: &mut HeapSeat, g: u32) -> bool
    requires seat { IsTracer heap.now seat.old }
    requires word { g < pool_words heap.now.shape }
    ensures seat { IsTracer heap.now seat.new }
    ensures only { Across OnlyTraced seat.old seat.new }
    ensures state { state_of seat.new ≡ state_of seat.old }
    ensures moves { IsTrue (only_moves input_pools (did seat.old seat.new)) }
    ensures few { length (did seat.old seat.new) ≤ 2 }
{
    if !is_bare(heap, seat, HIGH_POOL, g) {
        return false;
    }
    is_bare(heap, seat, LOW_POOL, g)
}

/// Whether no packet with a cell shows in a pool.
pub fn lacks_work(heap: &Heap, seat: &mut HeapSeat) -> bool
    requires seat { IsTracer heap.now seat.old }
    ensures seat { IsTracer heap.now seat.new }
    ensures only { Across OnlyTraced seat.old seat.new }
    ensures state { state_of seat.new ≡ state_of seat.old }
    ensures moves { IsTrue (only_moves input_pools (did seat.old seat.new)) }
    ensures few { length (did seat.old seat.new) ≤ 2 * pool_words heap.now.shape }
{
    for g in 0..heap.shape().packets.div_ceil(WORD_BITS) {
        if !are_bare(heap, seat, g) {
            return false;
        }
    }
    true
}

fn fill_another(heap: &Heap, seat: &mut HeapSeat, packets: &mut Packets)
    requires seat { IsTracer heap.now seat.old }
    requires packets { Carries (packets_of packets.old) (view_of seat.old) × (packets.old.output ≡ None) }
    requires work { IsFalse (work_in_hand heap.now.shape.fields (state_of seat.old)) }
    ensures seat { IsTracer heap.now seat.new }
    ensures only { Across OnlyTraced seat.old seat.new }
    ensures packets { Carries (packets_of packets.new) (view_of seat.new) × (packets.new.deferred ≡ packets.old.deferred) }
    ensures work { IsFalse (work_in_hand heap.now.shape.fields (state_of seat.new)) }
    ensures part { (o : Option ℕ) → Did o o 0 0 0 (view_of seat.old) (did seat.old seat.new) }
    ensures few { length (did seat.old seat.new) ≤ output_steps heap.now.shape }
{
    let fresh = take_output(heap, seat);
    let nothing = mem::replace(&mut packets.output, fresh);
    give_some(heap, seat, nothing, false);
}

fn part_with(heap: &Heap, seat: &mut HeapSeat, packets: &mut Packets)
    requires seat { IsTracer heap.now seat.old }
    requires packets { Carries (packets_of packets.old) (view_of seat.old) × (packets.old.output ≡ None) }
    requires work { IsFalse (work_in_hand heap.now.shape.fields (state_of seat.old)) }
    ensures seat { IsTracer heap.now seat.new }
    ensures only { Across OnlyTraced seat.old seat.new }
    ensures packets { Carries (packets_of packets.new) (view_of seat.new) × (packets.new.deferred ≡ packets.old.deferred) }
    ensures work { IsFalse (work_in_hand heap.now.shape.fields (state_of seat.new)) }
    ensures part { (o : Option ℕ) → Did o o 0 0 0 (view_of seat.old) (did seat.old seat.new) }
    ensures few { length (did seat.old seat.new) ≤ share_steps heap.now.shape }
{
    if packets.input.length() <= SHARE_CELLS {
        return;
    }
    if lacks_work(heap, seat) {
        fill_another(heap, seat, packets);
    }
}

fn share(heap: &Heap, seat: &mut HeapSeat, packets: &mut Packets)
    requires seat { IsTracer heap.now seat.old }
    requires packets { Carries (packets_of packets.old) (view_of seat.old) }
    requires work { IsFalse (work_in_hand heap.now.shape.fields (state_of seat.old)) }
    ensures seat { IsTracer heap.now seat.new }
    ensures only { Across OnlyTraced seat.old seat.new }
    ensures packets { Carries (packets_of packets.new) (view_of seat.new) × (packets.new.deferred ≡ packets.old.deferred) }
    ensures work { IsFalse (work_in_hand heap.now.shape.fields (state_of seat.new)) }
    ensures part { (o : Option ℕ) → Did o o 0 0 0 (view_of seat.old) (did seat.old seat.new) }
    ensures few { length (did seat.old seat.new) ≤ share_steps heap.now.shape }
{
    match mem::replace(&mut packets.output, None) {
        Some(output) => go_on(heap, seat, packets, output),
        None => part_with(heap, seat, packets),
    }
}

/// Once in so many turns the tracer shares, and its search for room begins anew.
pub(crate) fn share_in_turn(
    heap: &Heap,
    seat: &mut HeapSeat,
    packets: &mut Packets,
    search: &mut Search,
    turn: u32,
)
    requires seat { IsTracer heap.now seat.old }
    requires packets { Carries (packets_of packets.old) (view_of seat.old) }
    requires work { IsFalse (work_in_hand heap.now.shape.fields (state_of seat.old)) }
    ensures seat { IsTracer heap.now seat.new }
    ensures only { Across OnlyTraced seat.old seat.new }
    ensures packets { Carries (packets_of packets.new) (view_of seat.new) × (packets.new.deferred ≡ packets.old.deferred) }
    ensures work { IsFalse (work_in_hand heap.now.shape.fields (state_of seat.new)) }
    ensures part { (o : Option ℕ) → Did o o 0 0 0 (view_of seat.old) (did seat.old seat.new) }
    ensures tried { Searches heap.now.shape search.old search.new (did seat.old seat.new) }
    ensures anew { share_each - 1 ≤ turn % share_each → search.new ≡ Search.Open }
    ensures unshared { turn % share_each < share_each - 1 → (length (did seat.old seat.new) ≤ 0) × (packets.new ≡ packets.old) × (search.new ≡ search.old) }
    ensures few { length (did seat.old seat.new) ≤ share_steps heap.now.shape }
{
    if turn % SHARE_EACH == SHARE_EACH - 1 {
        share(heap, seat, packets);
        *search = Search::open();
    }
}
