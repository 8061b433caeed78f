//! The program `schedule_states`: it plays a schedule on the core and writes every state, as JSON.
//!
//! Standard input is a schedule (`docs/SCHEDULES.md`). Each line of standard output is an array of JSON: a name, and
//! numbers. `tell` decides what is written, `turns` plays the events, `state`, `seat`, `numbers` and `row` write.
//!
//! [`tell_states`] has the promise. `main` has no contract, since std's clauses say nothing of what standard input and
//! standard output hold.
#![tactic(auto)]

mod excess;
mod numbers;
mod row;
mod seat;
mod source;
mod state;
mod tell;
mod turns;

use play_report::{GatheredSink, StdSink, StdSource};
use source::{Unread, read_source};
use std::process::ExitCode;
use tell::{Shown, Unshown, tell_states};

/// The status of what was written: that of `gcplay schedule`, and 3 for a schedule that is too large.
fn status_of(told: Result<Shown, Unshown>) -> u8 {
    match told {
        Ok(Shown::Accepted) => 0,
        Ok(Shown::Faulty) => 2,
        Ok(Shown::TooLarge) => 3,
        Ok(Shown::Refused) => 7,
        Err(Unshown::Failed) => 5,
        Err(Unshown::OutOfMemory) => 6,
    }
}

fn main(rt: HostRuntime) -> ExitCode {
    let alloc = rt.alloc();
    let Ok(mut sink) = GatheredSink::make(alloc, StdSink::make(rt.stdout())) else {
        return ExitCode::from(6);
    };
    let bytes = match read_source(alloc, &mut StdSource::make(rt.stdin())) {
        Ok(bytes) => bytes,
        Err(Unread::Failed) => return ExitCode::from(4),
        Err(Unread::Memory) => return ExitCode::from(6),
    };
    let told = tell_states(alloc, bytes.as_slice(), &mut sink);
    match sink.finish() {
        (Ok(()), _) => ExitCode::from(status_of(told)),
        (Err(_), _) => ExitCode::from(5),
    }
}
