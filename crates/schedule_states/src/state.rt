//! A state: all words in their order, and the record of each seat.
ghost use Rattle.std.specs.Prelude.{◌≡◌, slice_index};
ghost use Rattle.play_report.specs.Causes.{WritesTo};
ghost use Rattle.schedule_states.specs.States.{all_words_text, words_rest, words_row, seats_text, state_text};

use crate::row::{write_end, write_name, write_number};
use crate::seat::write_seat;
use mark_core::{CoreState, SEATS, total_words};
use play_report::{Failed, Sink};

fn word(state: &CoreState, index: u32) -> u64
    ensures { result ≡ slice_index state.now.words index }
{
    state.word(index).unwrap_or(0)
}

fn write_words<K: Sink>(state: &CoreState, sink: &mut K) -> Result<(), Failed>
    ensures { WritesTo K.written K.faults result sink.old sink.new (all_words_text state.now) }
{
    let end = total_words(state.shape());
    for i in 0..end {
        match write_number(word(state, i as u32), sink) {
            Ok(()) => {}
            Err(e) => return Err(e),
        }
    }
    Ok(())
}

fn write_words_rest<K: Sink>(state: &CoreState, sink: &mut K) -> Result<(), Failed>
    ensures { WritesTo K.written K.faults result sink.old sink.new (words_rest state.now) }
{
    match write_words(state, sink) {
        Ok(()) => write_end(sink),
        Err(e) => Err(e),
    }
}

fn write_words_row<K: Sink>(state: &CoreState, sink: &mut K) -> Result<(), Failed>
    ensures { WritesTo K.written K.faults result sink.old sink.new (words_row state.now) }
{
    match write_name("words", sink) {
        Ok(()) => write_words_rest(state, sink),
        Err(e) => Err(e),
    }
}

fn write_seats<K: Sink>(state: &CoreState, sink: &mut K) -> Result<(), Failed>
    ensures { WritesTo K.written K.faults result sink.old sink.new (seats_text state.now) }
{
    let _shape = state.shape();
    for i in 0..SEATS {
        match state.seat(i) {
            None => return Ok(()),
            Some(seat) => match write_seat(seat, sink) {
                Ok(()) => {}
                Err(e) => return Err(e),
            },
        }
    }
    Ok(())
}

/// Writes the row of the words, and the rows of each seat.
pub fn write_state<K: Sink>(state: &CoreState, sink: &mut K) -> Result<(), Failed>
    ensures { WritesTo K.written K.faults result sink.old sink.new (state_text state.now) }
{
    match write_words_row(state, sink) {
        Ok(()) => write_seats(state, sink),
        Err(e) => Err(e),
    }
}
