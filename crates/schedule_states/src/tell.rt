//! Reads a source, plays it, and writes all its states, or why there are none.
ghost use Rattle.std.specs.Prelude.{◌≡◌, IfOk};
ghost use Rattle.play_report.specs.Causes.{AcrossSink, WritesTo};
ghost use Rattle.schedule_check.specs.Verdicts.{start_of};
ghost use Rattle.schedule_states.specs.Telling.{size_numbers, run_text, states_text, schedule_ends, schedule_text, shown_of_end, shown_of_schedule, ShowsAs, TellsStates, finished_as};
ghost use Rattle.schedule_states.specs.Turns.{turns_end};

use crate::excess::{find_excess, write_excess};
use crate::row::write_row;
use crate::state::write_state;
use crate::turns::{Ended, write_turns};
use mark_core::{CoreState, Shape};
use play_report::{Failed, Sink};
use schedule_check::{Line, Schedule, ScheduleFault, read_schedule, write_schedule_fault};
use std::alloc::Global;

/// What was written of a source.
#[derive(Clone, Copy, Debug, PartialEq, Eq)]
pub enum Shown {
    /// Every state of a schedule whose events are all allowed.
    Accepted,
    /// Every state up to the first event that isn't allowed, and what it breaks.
    Refused,
    /// The fault of a source that is no schedule.
    Faulty,
    /// The size of a schedule that is too large, and its limit. No state was written.
    TooLarge,
}

/// Why nothing was written, or not all.
#[derive(Clone, Copy, Debug, PartialEq, Eq)]
pub enum Unshown {
    /// Memory ran out. Nothing was written.
    OutOfMemory,
    /// The sink failed: its count of faults rose. A prefix of the text was written.
    Failed,
}

fn finished(shown: Shown, written: Result<(), Failed>) -> Result<Shown, Unshown>
    ensures { result ≡ finished_as shown written }
{
    match written {
        Ok(()) => Ok(shown),
        Err(_) => Err(Unshown::Failed),
    }
}

fn sizes(shape: &Shape, seats: u32) -> [u64; 6]
    ensures { result ≡ size_numbers shape.now seats }
{
    [
        u64::from(shape.cells),
        u64::from(shape.packets),
        u64::from(shape.entries),
        u64::from(shape.sections),
        u64::from(shape.fields),
        u64::from(seats),
    ]
}

/// Writes the state, and plays the lines.
fn write_run<K: Sink>(state: &mut CoreState, lines: &[Line], sink: &mut K) -> Result<Ended, Failed>
    ensures writes { WritesTo K.written K.faults result sink.old sink.new (run_text lines.now state.old) }
    ensures told { IfOk result (λ e. e ≡ turns_end lines.now state.old) }
{
    match write_state(state, sink) {
        Ok(()) => write_turns(state, lines, sink),
        Err(e) => Err(e),
    }
}

fn write_all_states<K: Sink>(
    state: &mut CoreState,
    schedule: &Schedule,
    sink: &mut K,
) -> Result<Ended, Failed>
    requires { state.old ≡ start_of schedule.now }
    ensures writes { WritesTo K.written K.faults result sink.old sink.new (states_text schedule.now) }
    ensures told { IfOk result (λ e. e ≡ schedule_ends schedule.now) }
{
    match write_row("shape", &sizes(schedule.shape(), schedule.seats()), sink) {
        Ok(()) => write_run(state, schedule.lines(), sink),
        Err(e) => Err(e),
    }
}

/// Plays a schedule that isn't too large.
fn show<K: Sink>(alloc: Global, schedule: &Schedule, sink: &mut K) -> Result<Shown, Unshown>
    ensures { AcrossSink K.written K.faults (ShowsAs (states_text schedule.now) (shown_of_end (schedule_ends schedule.now)) result) sink.old sink.new }
{
    let mut state = match CoreState::start(alloc, *schedule.shape(), schedule.seats()) {
        Ok(state) => state,
        Err(_) => return Err(Unshown::OutOfMemory),
    };
    match write_all_states(&mut state, schedule, sink) {
        Ok(Ended::Accepted) => Ok(Shown::Accepted),
        Ok(Ended::Refused) => Ok(Shown::Refused),
        Err(_) => Err(Unshown::Failed),
    }
}

fn tell_schedule<K: Sink>(
    alloc: Global,
    schedule: &Schedule,
    sink: &mut K,
) -> Result<Shown, Unshown>
    ensures { AcrossSink K.written K.faults (ShowsAs (schedule_text schedule.now) (shown_of_schedule schedule.now) result) sink.old sink.new }
{
    match find_excess(schedule) {
        Some(excess) => finished(Shown::TooLarge, write_excess(excess, sink)),
        None => show(alloc, schedule, sink),
    }
}

/// Reads the source as a schedule, plays it, and writes the shape, the state at the start, and each event with the
/// state after it, up to the first that isn't allowed. What is written and what is answered are functions of the
/// bytes. If a size is past its limit, that alone is written; if the source is no schedule, its fault.
pub fn tell_states<K: Sink>(alloc: Global, source: &[u8], sink: &mut K) -> Result<Shown, Unshown>
    ensures { AcrossSink K.written K.faults (TellsStates source.now result) sink.old sink.new }
{
    match read_schedule(alloc, source) {
        Err(ScheduleFault::OutOfMemory) => Err(Unshown::OutOfMemory),
        Err(fault) => finished(Shown::Faulty, write_schedule_fault(&fault, sink)),
        Ok(schedule) => tell_schedule(alloc, &schedule, sink),
    }
}
