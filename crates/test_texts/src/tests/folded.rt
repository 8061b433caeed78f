//! The verdict on a schedule made from a number is what the core answers event by event.
use mark_core::{CoreState, Event, Phase, Rule, Shape, Step, phase_of};
use schedule_check::{Verdict, check, read_schedule};
use std::alloc::{AllocError, Global};

const SHAPE: Shape = Shape {
    cells: 64,
    packets: 2,
    entries: 2,
    sections: 2,
    fields: 4,
    objects: 2_000_000,
    sharing: false,
    slots: 0,
    stretch: 1,
};

fn step(n: u32) -> (Step, &'static [u8]) {
    match n {
        0 => (Step::EnterStep, b"enter_step"),
        1 => (Step::LeaveStep, b"leave_step"),
        2 => (Step::RaiseStep, b"raise_step"),
        3 => (Step::Observe, b"observe"),
        4 => (Step::DropStep, b"drop_step"),
        5 => (Step::Reserve, b"reserve"),
        6 => (Step::Credit, b"credit"),
        7 => (Step::Take { q: 0, p: 1 }, b"take 0 1"),
        8 => (Step::ReadLength { p: 1 }, b"read_length 1"),
        9 => (Step::StorePhase { to: Phase::Marking }, b"store_phase 1"),
        10 => (Step::StorePhase { to: Phase::Drain }, b"store_phase 2"),
        11 => (Step::JoinHelpStep, b"join_help_step"),
        12 => (Step::LeaveHelpStep, b"leave_help_step"),
        13 => (Step::SeeHelp, b"see_help"),
        14 => (Step::OpenStep, b"open_step"),
        _ => (Step::ReadPhase, b"read_phase"),
    }
}

fn next(n: u32) -> u32 {
    n.wrapping_mul(1_664_525).wrapping_add(1_013_904_223)
}

fn put(source: &mut Vec<u8>, seat: u32, words: &[u8]) -> Result<(), AllocError> {
    source.extend_from_slice(if seat == 0 { b"0 " } else { b"1 " })?;
    source.extend_from_slice(words)?;
    source.extend_from_slice(b"\n")
}

/// The schedule of the events allowed among 200, or of all up to the first refused, and the core's verdict.
fn folded(alloc: Global, number: u32, stops: bool) -> Option<(Vec<u8>, Verdict)> {
    let mut source = Vec::new(alloc);
    source
        .extend_from_slice(b"gcschedule 1\nshape 64 2 2 2 4 2\n")
        .ok()?;
    let mut core = CoreState::start(alloc, SHAPE, 2).ok()?;
    let mut n = number;
    let mut events = 0u32;
    for _ in 0..200 {
        n = next(n);
        let (step, words) = step((n >> 16) % 16);
        let seat = (n >> 24) % 2;
        match core.apply(Event { seat, step }) {
            Ok(()) => {
                put(&mut source, seat, words).ok()?;
                events = events.saturating_add(1);
            }
            Err(refusal) => {
                if stops {
                    put(&mut source, seat, words).ok()?;
                    return Some((source, refused(events.saturating_add(3), refusal.rule)));
                }
            }
        }
    }
    let end = accepted(&core, events);
    Some((source, end))
}

fn refused(line: u32, rule: Rule) -> Verdict {
    Verdict::Refused { line, rule }
}

/// No cell is made by these steps, and so none is marked.
fn accepted(core: &CoreState, events: u32) -> Verdict {
    Verdict::Accepted {
        events,
        phase: phase_of(core.word(1).unwrap_or(0)),
        empty: core.word(2).unwrap_or(0),
        marked: 0,
        used: 0,
        closed: core.is_closed(),
    }
}

fn agrees(alloc: Global, number: u32, stops: bool) -> bool {
    let Some((source, verdict)) = folded(alloc, number, stops) else {
        return false;
    };
    match read_schedule(alloc, source.as_slice()) {
        Err(_) => false,
        Ok(schedule) => check(alloc, &schedule) == Ok(verdict),
    }
}

#[test]
fn verdicts_are_those_of_the_core(rt: HostRuntime) {
    for number in 0..20 {
        assert!(rt; agrees(rt.alloc(), number, false));
        assert!(rt; agrees(rt.alloc(), number, true));
    }
}
