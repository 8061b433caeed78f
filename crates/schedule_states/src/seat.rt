//! What a seat knows and has in hand, in eight rows.
ghost use Rattle.play_report.specs.Causes.{WritesTo};
ghost use Rattle.schedule_states.specs.Seats.{packets_text, held_rest, held_text, variables_text, variables_rest, env_text, sweeping_text, making_text, memory_text, cleaning_text, hand_text, work_text, seat_text};

use crate::numbers::{block, cache, cleaning, counters, hand, packet, standing};
use crate::row::{write_end, write_name, write_number, write_numbers, write_row};
use mark_core::SeatState;
use play_report::{Failed, Sink};

fn write_packets<K: Sink>(
    held: &[Option<(u32, Option<u32>, bool)>],
    sink: &mut K,
) -> Result<(), Failed>
    ensures { WritesTo K.written K.faults result sink.old sink.new (packets_text held.now) }
{
    for slot in held {
        match write_numbers(&packet(*slot), sink) {
            Ok(()) => {}
            Err(e) => return Err(e),
        }
    }
    Ok(())
}

fn write_held_rest<K: Sink>(s: &SeatState, sink: &mut K) -> Result<(), Failed>
    ensures { WritesTo K.written K.faults result sink.old sink.new (held_rest s.now.held) }
{
    match write_packets(&s.held, sink) {
        Ok(()) => write_end(sink),
        Err(e) => Err(e),
    }
}

fn write_held<K: Sink>(s: &SeatState, sink: &mut K) -> Result<(), Failed>
    ensures { WritesTo K.written K.faults result sink.old sink.new (held_text s.now.held) }
{
    match write_name("packets", sink) {
        Ok(()) => write_held_rest(s, sink),
        Err(e) => Err(e),
    }
}

fn write_variables<K: Sink>(env: &[u32], sink: &mut K) -> Result<(), Failed>
    ensures { WritesTo K.written K.faults result sink.old sink.new (variables_text env.now) }
{
    for r in env {
        match write_number(u64::from(*r), sink) {
            Ok(()) => {}
            Err(e) => return Err(e),
        }
    }
    Ok(())
}

fn write_variables_rest<K: Sink>(s: &SeatState, sink: &mut K) -> Result<(), Failed>
    ensures { WritesTo K.written K.faults result sink.old sink.new (variables_rest s.now.env) }
{
    match write_variables(&s.env, sink) {
        Ok(()) => write_end(sink),
        Err(e) => Err(e),
    }
}

fn write_env<K: Sink>(s: &SeatState, sink: &mut K) -> Result<(), Failed>
    ensures { WritesTo K.written K.faults result sink.old sink.new (env_text s.now.env) }
{
    match write_name("variables", sink) {
        Ok(()) => write_variables_rest(s, sink),
        Err(e) => Err(e),
    }
}

fn write_sweeping<K: Sink>(s: &SeatState, sink: &mut K) -> Result<(), Failed>
    ensures { WritesTo K.written K.faults result sink.old sink.new (sweeping_text s.now) }
{
    match write_row("block", &block(s.block), sink) {
        Ok(()) => write_row("counters", &counters(s), sink),
        Err(e) => Err(e),
    }
}

fn write_making<K: Sink>(s: &SeatState, sink: &mut K) -> Result<(), Failed>
    ensures { WritesTo K.written K.faults result sink.old sink.new (making_text s.now) }
{
    match write_row("cache", &cache(s.cache), sink) {
        Ok(()) => write_sweeping(s, sink),
        Err(e) => Err(e),
    }
}

fn write_memory<K: Sink>(s: &SeatState, sink: &mut K) -> Result<(), Failed>
    ensures { WritesTo K.written K.faults result sink.old sink.new (memory_text s.now) }
{
    match write_env(s, sink) {
        Ok(()) => write_making(s, sink),
        Err(e) => Err(e),
    }
}

fn write_cleaning<K: Sink>(s: &SeatState, sink: &mut K) -> Result<(), Failed>
    ensures { WritesTo K.written K.faults result sink.old sink.new (cleaning_text s.now) }
{
    match write_row("cleaning", &cleaning(s.cleaning), sink) {
        Ok(()) => write_memory(s, sink),
        Err(e) => Err(e),
    }
}

fn write_hand<K: Sink>(s: &SeatState, sink: &mut K) -> Result<(), Failed>
    ensures { WritesTo K.written K.faults result sink.old sink.new (hand_text s.now) }
{
    match write_row("hand", &hand(s), sink) {
        Ok(()) => write_cleaning(s, sink),
        Err(e) => Err(e),
    }
}

fn write_work<K: Sink>(s: &SeatState, sink: &mut K) -> Result<(), Failed>
    ensures { WritesTo K.written K.faults result sink.old sink.new (work_text s.now) }
{
    match write_held(s, sink) {
        Ok(()) => write_hand(s, sink),
        Err(e) => Err(e),
    }
}

/// Writes the record of a seat.
pub fn write_seat<K: Sink>(s: &SeatState, sink: &mut K) -> Result<(), Failed>
    ensures { WritesTo K.written K.faults result sink.old sink.new (seat_text s.now) }
{
    match write_row("seat", &standing(s), sink) {
        Ok(()) => write_work(s, sink),
        Err(e) => Err(e),
    }
}
