//! The records of seats, and what a step does to those of other seats.
ghost use Rattle.std.specs.Prelude.{◌≡◌, ◌≤◌, ◌<◌, ◌++◌, ◌∷◌, [], length, slice_get, slice_set, vec_len, vec_capacity};
ghost use Rattle.std.specs.Option.{option_copied};
ghost use Rattle.mark_core.specs.Start.{start_seat as start_seat_of, spent_seat as spent_seat_of};
ghost use Rattle.mark_core.specs.Steps.{others_after};
ghost use Rattle.mark_core.specs.Numbers.{most_seats};

use crate::kinds::{Shape, Step};
use crate::seat::SeatState;
use crate::start::{spent_seat, start_seat};
use std::slice;

pub fn seat_at(seats: &[SeatState], i: u32) -> Option<&SeatState>
    ensures { option_copied result ≡ slice_get seats.now i }
{
    seats.get(i as usize)
}

/// There is room, so this takes no memory and can't fail.
fn push_seat(seats: &mut Vec<SeatState>, s: &SeatState)
    requires { vec_len seats.old < vec_capacity seats.old }
    ensures seats { seats.new.items ≡ seats.old.items ++ s.now ∷ [] }
    ensures room { vec_capacity seats.old ≤ vec_capacity seats.new }
{
    let _ = seats.extend_from_slice(slice::from_ref(s));
}

fn put_seat(seats: &mut Vec<SeatState>, i: usize, s: SeatState)
    ensures seats { seats.new.items ≡ slice_set seats.old.items i s }
    ensures room { vec_capacity seats.new ≡ vec_capacity seats.old }
{
    if i < seats.len() {
        seats[i] = s;
    }
}

fn add_seat(shape: &Shape, seats: &mut Vec<SeatState>)
    requires room { most_seats ≤ vec_capacity seats.old }
    requires few { vec_len seats.old < most_seats }
    ensures seats { seats.new.items ≡ seats.old.items ++ start_seat_of shape.now (length seats.old.items) ∷ [] }
    ensures room { most_seats ≤ vec_capacity seats.new }
{
    let s = start_seat(shape, seats.len() as u32);
    push_seat(seats, &s);
}

fn end_seat(shape: &Shape, seats: &mut Vec<SeatState>, other: u32)
    requires { most_seats ≤ vec_capacity seats.old }
    ensures seats { seats.new.items ≡ slice_set seats.old.items other (spent_seat_of shape.now other) }
    ensures room { most_seats ≤ vec_capacity seats.new }
{
    let s = spent_seat(shape, other);
    put_seat(seats, other as usize, s);
}

pub fn change_others(shape: &Shape, seats: &mut Vec<SeatState>, step: &Step)
    requires room { most_seats ≤ vec_capacity seats.old }
    requires few { step.now ≡ Step.Split → vec_len seats.old < most_seats }
    ensures seats { seats.new.items ≡ others_after shape.now step.now seats.old.items }
    ensures room { most_seats ≤ vec_capacity seats.new }
{
    match *step {
        Step::Split => add_seat(shape, seats),
        Step::Join { other } => end_seat(shape, seats, other),
        _ => {}
    }
}
