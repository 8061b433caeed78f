//! Writes verdicts and faults.
ghost use Rattle.std.specs.Prelude.{◌≢◌};
ghost use Rattle.play_report.specs.Causes.{WritesTo};
ghost use Rattle.schedule_check.specs.Text.{closed_text, used_text, marking_text, words_text, end_text, accepted_text, refused_text, verdict_text, schedule_error_text};

use crate::fault::ScheduleFault;
use crate::verdict::Verdict;
use mark_core::{Phase, Rule, phase_number};
use play_report::{Failed, Sink, TextLine, write_all, write_named};

fn write_closed<K: Sink>(closed: bool, sink: &mut K) -> Result<(), Failed>
    ensures { WritesTo K.written K.faults result sink.old sink.new (closed_text closed) }
{
    if closed {
        write_all(sink, b"closed yes\n")
    } else {
        write_all(sink, b"closed no\n")
    }
}

fn write_used<K: Sink>(used: u32, closed: bool, sink: &mut K) -> Result<(), Failed>
    ensures { WritesTo K.written K.faults result sink.old sink.new (used_text used closed) }
{
    match write_named("used ", used as u64, sink) {
        Ok(()) => write_closed(closed, sink),
        Err(e) => Err(e),
    }
}

fn write_marking<K: Sink>(marked: u32, used: u32, closed: bool, sink: &mut K) -> Result<(), Failed>
    ensures { WritesTo K.written K.faults result sink.old sink.new (marking_text marked used closed) }
{
    match write_named("marked ", marked as u64, sink) {
        Ok(()) => write_used(used, closed, sink),
        Err(e) => Err(e),
    }
}

fn write_words<K: Sink>(phase: Phase, empty: u64, sink: &mut K) -> Result<(), Failed>
    ensures { WritesTo K.written K.faults result sink.old sink.new (words_text phase empty) }
{
    match write_named("phase ", phase_number(phase), sink) {
        Ok(()) => write_named("empty ", empty, sink),
        Err(e) => Err(e),
    }
}

fn write_end<K: Sink>(
    phase: Phase,
    empty: u64,
    marked: u32,
    used: u32,
    closed: bool,
    sink: &mut K,
) -> Result<(), Failed>
    ensures { WritesTo K.written K.faults result sink.old sink.new (end_text phase empty marked used closed) }
{
    match write_words(phase, empty, sink) {
        Ok(()) => write_marking(marked, used, closed, sink),
        Err(e) => Err(e),
    }
}

fn write_accepted<K: Sink>(
    events: u32,
    phase: Phase,
    empty: u64,
    marked: u32,
    used: u32,
    closed: bool,
    sink: &mut K,
) -> Result<(), Failed>
    ensures { WritesTo K.written K.faults result sink.old sink.new (accepted_text events phase empty marked used closed) }
{
    match write_named("accepted ", events as u64, sink) {
        Ok(()) => write_end(phase, empty, marked, used, closed, sink),
        Err(e) => Err(e),
    }
}

#[tactic(auto, unfolding(crate::specs::Text::refused_text))]
fn write_refused<K: Sink>(at: u32, rule: &Rule, sink: &mut K) -> Result<(), Failed>
    ensures { WritesTo K.written K.faults result sink.old sink.new (refused_text at rule.now.kind rule.now.part) }
{
    let mut line = TextLine::new();
    line.push("refused line ");
    line.push_number(at as u64);
    line.push(" rule ");
    line.push_number(rule.kind as u64);
    line.push(" part ");
    line.push_number(rule.part as u64);
    line.push("\n");
    line.write(sink)
}

/// Writes the text of a verdict: for an accepted schedule the lines `accepted`, `phase`, `empty`, `marked` and
/// `used`, each with a number, and `closed yes` or `closed no`; for a refused one the line `refused line L rule K
/// part P`. It fails only if the sink's count of faults rose in this call; then a prefix of the text was written.
/// Each line is one piece. It takes no memory.
pub fn write_verdict<K: Sink>(verdict: &Verdict, sink: &mut K) -> Result<(), Failed>
    ensures { WritesTo K.written K.faults result sink.old sink.new (verdict_text verdict.now) }
{
    match verdict {
        Verdict::Accepted {
            events,
            phase,
            empty,
            marked,
            used,
            closed,
        } => write_accepted(*events, *phase, *empty, *marked, *used, *closed, sink),
        Verdict::Refused { line, rule } => write_refused(*line, rule, sink),
    }
}

/// Writes the text of a fault: its number and name, and its place. Out of memory is no fault of a schedule and has
/// no text. It fails as [`write_verdict`] does.
pub fn write_schedule_fault<K: Sink>(fault: &ScheduleFault, sink: &mut K) -> Result<(), Failed>
    requires { fault.now ≢ ScheduleFault.OutOfMemory }
    ensures { WritesTo K.written K.faults result sink.old sink.new (schedule_error_text fault.now) }
{
    match fault {
        ScheduleFault::NotAscii { offset } => {
            write_named("21 NotAscii offset ", *offset as u64, sink)
        }
        ScheduleFault::BadHeader => write_all(sink, b"22 BadHeader\n"),
        ScheduleFault::BadShape => write_all(sink, b"23 BadShape\n"),
        ScheduleFault::BadEvent { line } => { write_named("24 BadEvent line ", *line as u64, sink) }
        ScheduleFault::TooManyEvents { line } => {
            write_named("25 TooManyEvents line ", *line as u64, sink)
        }
        ScheduleFault::TooLong => write_all(sink, b"26 TooLong\n"),
        ScheduleFault::OutOfMemory => unreachable!(),
    }
}
