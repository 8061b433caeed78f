//! Plays events on the core, and writes the state after each.
ghost use Rattle.std.specs.Prelude.{◌≡◌, IfOk, is_none, if◌then◌else◌};
ghost use Rattle.mark_core.specs.Steps.{failing_part, after_event};
ghost use Rattle.play_report.specs.Causes.{WritesTo};
ghost use Rattle.schedule_states.specs.Turns.{place_in, event_text, refused_row, turn_text, turn_ends, turns_text, turns_end};

use crate::row::write_row;
use crate::state::write_state;
use mark_core::{CoreState, Event, Rule, address};
use play_report::{Failed, Sink};
use schedule_check::Line;

/// How a run ends.
#[derive(Clone, Copy, Debug, PartialEq, Eq)]
pub enum Ended {
    /// Each event is allowed in its turn.
    Accepted,
    /// An event isn't allowed.
    Refused,
}

/// The index of the word on which the event acts.
fn place(state: &CoreState, event: &Event) -> u64
    ensures { result ≡ place_in state.now event.now }
{
    match state.seat(event.seat) {
        None => 0,
        Some(seat) => address(state.shape(), seat, &event.step) as u64,
    }
}

fn write_refused<K: Sink>(line: u32, rule: &Rule, sink: &mut K) -> Result<(), Failed>
    ensures { WritesTo K.written K.faults result sink.old sink.new (refused_row line rule.now.kind rule.now.part) }
{
    write_row(
        "refused",
        &[u64::from(line), u64::from(rule.kind), u64::from(rule.part)],
        sink,
    )
}

fn write_event<K: Sink>(
    line: u32,
    place: u64,
    state: &CoreState,
    sink: &mut K,
) -> Result<(), Failed>
    ensures { WritesTo K.written K.faults result sink.old sink.new (event_text line place state.now) }
{
    match write_row("event", &[u64::from(line), place], sink) {
        Ok(()) => write_state(state, sink),
        Err(e) => Err(e),
    }
}

/// Takes the event of a line, and writes the state after it, or the rule that it breaks.
fn turn<K: Sink>(state: &mut CoreState, line: &Line, sink: &mut K) -> Result<Ended, Failed>
    ensures writes { WritesTo K.written K.faults result sink.old sink.new (turn_text state.old line.now) }
    ensures told { IfOk result (λ e. e ≡ turn_ends state.old line.now) }
    ensures after { state.new ≡ (if is_none (failing_part state.old line.now.event) then after_event state.old line.now.event else state.old) }
{
    let at = place(state, &line.event);
    match state.apply(line.event) {
        Ok(()) => match write_event(line.line, at, state, sink) {
            Ok(()) => Ok(Ended::Accepted),
            Err(e) => Err(e),
        },
        Err(refusal) => match write_refused(line.line, &refusal.rule, sink) {
            Ok(()) => Ok(Ended::Refused),
            Err(e) => Err(e),
        },
    }
}

/// Takes the events of the lines in order, up to the first that isn't allowed.
pub fn write_turns<K: Sink>(
    state: &mut CoreState,
    lines: &[Line],
    sink: &mut K,
) -> Result<Ended, Failed>
    ensures writes { WritesTo K.written K.faults result sink.old sink.new (turns_text lines.now state.old) }
    ensures told { IfOk result (λ e. e ≡ turns_end lines.now state.old) }
{
    for line in lines {
        match turn(state, line, sink) {
            Ok(Ended::Accepted) => {}
            Ok(Ended::Refused) => return Ok(Ended::Refused),
            Err(e) => return Err(e),
        }
    }
    match write_row("accepted", &[], sink) {
        Ok(()) => Ok(Ended::Accepted),
        Err(e) => Err(e),
    }
}
