//! Plays a schedule on the core.
ghost use Rattle.std.specs.Prelude.{IfOk};
ghost use Rattle.schedule_check.specs.Played.{PlayTells};

use crate::schedule::Schedule;
use mark_core::{CoreState, Rule, closed_marks_all};
use plain_heap::OutOfMemory;
use std::alloc::Global;

/// The state at a schedule's end, or the line of the first event that isn't allowed and what it broke.
#[derive(Drop)]
pub enum Played {
    Ran(CoreState),
    Refused { line: u32, rule: Rule },
}

/// Takes the events in order, up to the first that isn't allowed. Refused only if there is no memory.
pub fn play(alloc: Global, schedule: &Schedule) -> Result<Played, OutOfMemory>
    ensures { IfOk result (λ p. PlayTells schedule.now p) }
{
    let mut state = match CoreState::start(alloc, schedule.shape, schedule.seats) {
        Ok(state) => state,
        Err(_) => return Err(OutOfMemory),
    };
    for line in schedule.events.as_slice() {
        if let Err(refusal) = state.apply(line.event) {
            return Ok(Played::Refused {
                line: line.line,
                rule: refusal.rule,
            });
        }
    }
    let _shape = state.shape();
    closed_marks_all();
    Ok(Played::Ran(state))
}
