//! The state in which nothing has happened yet.
ghost use Rattle.std.specs.Prelude.{◌≡◌, ◌<◌, ◌≤◌, IfOk, vec_capacity};
ghost use Rattle.mark_core.specs.Shapes.{IsShape};
ghost use Rattle.mark_core.specs.Start.{start_seat as start_seat_of, spent_seat as spent_seat_of, packet_bits as packet_bits_of, full_pool as full_pool_of, start_words as start_words_of, start_seats as start_seats_of};
ghost use Rattle.mark_core.specs.Numbers.{most_seats};

use crate::kinds::Shape;
use crate::layout;
use crate::numbers::{EMPTY_OFFSET, WORD_BITS};
use crate::seat::SeatState;
use std::alloc::{AllocError, Global};

/// A seat that has only its number, and its section by its place.
pub fn start_seat(shape: &Shape, number: u32) -> SeatState
    ensures { result ≡ start_seat_of shape.now number }
{
    SeatState {
        number,
        section: if number < shape.sections {
            Some(number)
        } else {
            None
        },
        counted: false,
        active: false,
        raised: false,
        knows: false,
        helping: false,
        admitted: false,
        opened: false,
        alone: false,
        exact: false,
        phase_seen: None,
        season_seen: None,
        held: [None; 4],
        reserved: false,
        credit: false,
        popped: None,
        scan: None,
        value: None,
        fresh: None,
        owes: None,
        cleaning: None,
        env: [0; 32],
        lags: 0,
        got: 0,
        cache: None,
        block: None,
        made: 0,
        below_card: false,
        below_block: false,
        spent: false,
    }
}

pub fn spent_seat(shape: &Shape, number: u32) -> SeatState
    ensures { result ≡ spent_seat_of shape.now number }
{
    SeatState {
        spent: true,
        ..start_seat(shape, number)
    }
}

fn new_seats(alloc: Global, shape: &Shape, count: u32) -> Result<Vec<SeatState>, AllocError>
    ensures { IfOk result (λ v. v.items ≡ start_seats_of shape.now count) }
{
    (0..count).map(|k| start_seat(shape, k)).collect(alloc)
}

pub fn start_seats(alloc: Global, shape: &Shape, count: u32) -> Result<Vec<SeatState>, AllocError>
    ensures seats { IfOk result (λ v. v.items ≡ start_seats_of shape.now count) }
    ensures room { IfOk result (λ v. most_seats ≤ vec_capacity v) }
{
    let mut seats = new_seats(alloc, shape, count)?;
    seats.reserve(41usize.saturating_sub(seats.len()))?;
    Ok(seats)
}

fn packet_bits(count: u32, g: u32) -> u64
    requires { g < 65536 }
    ensures { result ≡ packet_bits_of count g }
{
    let left = count.saturating_sub(WORD_BITS * g);
    if left < WORD_BITS {
        (1 << left) - 1
    } else {
        u64::MAX
    }
}

fn full_pool(alloc: Global, shape: &Shape) -> Result<Vec<u64>, AllocError>
    requires { IsShape shape.now }
    ensures { IfOk result (λ v. v.items ≡ full_pool_of shape.now) }
{
    (0..layout::pool_words(shape) as u32)
        .map(|g| packet_bits(shape.packets, g))
        .collect(alloc)
}

/// The words of a new heap, in Idle: all packets are empty and in their pool, and no cell is made. It is refused
/// only if memory runs out.
pub fn start_words(alloc: Global, shape: &Shape) -> Result<Vec<u64>, AllocError>
    requires { IsShape shape.now }
    ensures { IfOk result (λ v. v.items ≡ start_words_of shape.now) }
{
    let empty = EMPTY_OFFSET + u64::from(shape.packets);
    let total = layout::total_words(shape);
    let mut words = Vec::with_capacity(alloc, total)?;
    words.extend_from_slice(&[0, 0, empty, 0, 0, 0, 0, 0, 0, u64::from(shape.cells), 0])?;
    words.resize(layout::pools(shape), 0)?;
    words.extend_from_slice(full_pool(alloc, shape)?.as_slice())?;
    words.resize(total, 0)?;
    Ok(words)
}
