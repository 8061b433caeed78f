//! The seats of what was handed in are gathered.
ghost use Rattle.std.specs.Bool.{OnFalse, OnTrue};
ghost use Rattle.std.specs.Prelude.{[], ◌≡◌, ◌≤◌, ◌+◌, All, vec_capacity, vec_len};
ghost use Rattle.gc_table.specs.declared.seat.Heap.{Heap};
ghost use Rattle.seat_turns.specs.Standing.{RestsOutside};
ghost use Rattle.managed_heap.specs.Gathering.{AreAll, AreOf, Gathers, handed};

use crate::lent::Lent;
use crate::taking::first_of;
use gc_table::HeapSeat;

/// Puts the seats of these, which leave first, behind those seats.
pub fn gather<M: Lent>(all: Vec<M>, seats: Vec<HeapSeat>) -> Vec<HeapSeat>
    requires room { vec_len seats + vec_len all ≤ vec_capacity seats }
    ensures rest { (h : Heap) → AreOf M.heap_in h all.items → All (RestsOutside h) seats.items → All (RestsOutside h) result.items }
    ensures gathers { Gathers (handed M.seat_in M.leaves) all.items [] seats.items result.items }
    ensures room { (vec_len result ≡ vec_len seats + vec_len all) × (vec_capacity result ≡ vec_capacity seats) }
{
    let mut all = all;
    let mut seats = seats;
    let count = all.len();
    for _at in 0..count {
        let lent = first_of(&mut all);
        seats.push_reserved(lent.hand_in());
    }
    seats
}

/// Whether these are so many, in the order of their numbers from `first` on.
pub fn are_all<M: Lent>(first: u32, count: u32, all: &[M]) -> bool
    ensures all { OnTrue result (AreAll M.seat_in first count all.now) }
    ensures missing { OnFalse result (AreAll M.seat_in first count all.now → ⊥) }
{
    if all.len() != count as usize {
        return false;
    }
    for at in 0..all.len() {
        if all[at].seat_number() as usize != first as usize + at {
            return false;
        }
    }
    true
}
