//! The verdict on a schedule.
ghost use Rattle.std.specs.Prelude.{◌≡◌, IfOk, slice_index};
ghost use Rattle.schedule_check.specs.Verdicts.{at_end as at_end_of, verdict, Says};

use crate::play::{Played, play};
use crate::schedule::Schedule;
use crate::verdict::Verdict;
use mark_core::{CoreState, EMPTY, PHASE, phase_of};
use plain_heap::OutOfMemory;
use std::alloc::Global;

fn word(state: &CoreState, index: u32) -> u64
    ensures { result ≡ slice_index state.now.words index }
{
    state.word(index).unwrap_or(0)
}

fn at_end(events: u32, state: &CoreState) -> Verdict
    ensures { result ≡ at_end_of events state.now }
{
    Verdict::Accepted {
        events,
        phase: phase_of(word(state, PHASE as u32)),
        empty: word(state, EMPTY as u32),
        marked: state.marked_cells(),
        used: state.used_cells(),
        closed: state.is_closed(),
    }
}

/// Plays the schedule from the state in which nothing has happened, and answers its one verdict (`exact`), which
/// says what is so (`meaning`). If accepted, its events are a run, the end is sound, and if it is closed every
/// reachable cell is marked; if refused, the events before the line are a run and the event on it isn't allowed
/// then. It fails only if memory ran out.
pub fn check(alloc: Global, schedule: &Schedule) -> Result<Verdict, OutOfMemory>
    ensures exact { IfOk result (λ v. v ≡ verdict schedule.now) }
    ensures meaning { IfOk result (λ v. Says schedule.now v) }
{
    match play(alloc, schedule) {
        Err(e) => Err(e),
        Ok(Played::Refused { line, rule }) => Ok(Verdict::Refused { line, rule }),
        Ok(Played::Ran(state)) => Ok(at_end(schedule.events.len() as u32, &state)),
    }
}
