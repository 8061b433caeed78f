//! Reads a source, plays it, and writes its verdict or its fault.
ghost use Rattle.std.specs.Prelude.{◌≡◌, Ok};
ghost use Rattle.schedule_check.specs.Telling.{verdict_status, number_of_told, finished_as, TellsAs, TellsSchedule};
ghost use Rattle.play_report.specs.Causes.{AcrossSink};

use crate::fault::ScheduleFault;
use crate::judge::check;
use crate::reader::read_schedule;
use crate::schedule::Schedule;
use crate::verdict::Verdict;
use crate::writer::{write_schedule_fault, write_verdict};
use play_report::{Failed, Sink};
use std::alloc::Global;

/// What was told of a source.
#[derive(Clone, Copy, Debug, PartialEq, Eq)]
pub enum Told {
    /// It is a schedule, and each of its events is allowed in its turn.
    Accepted,
    /// It is no schedule: its fault.
    Faulty,
    /// It is a schedule, and some event isn't allowed in its turn.
    Refused,
}

/// Why nothing was told, or not all.
#[derive(Clone, Copy, Debug, PartialEq, Eq)]
pub enum Untold {
    /// Memory ran out. Nothing was written.
    OutOfMemory,
    /// The sink failed: its count of faults rose. A prefix of the text was written.
    Failed,
}

fn finished(told: Told, written: Result<(), Failed>) -> Result<Told, Untold>
    ensures { result ≡ finished_as told written }
{
    match written {
        Ok(()) => Ok(told),
        Err(_) => Err(Untold::Failed),
    }
}

fn told_of(verdict: &Verdict) -> Told
    ensures { number_of_told result ≡ verdict_status verdict.now }
{
    match verdict {
        Verdict::Accepted { .. } => Told::Accepted,
        Verdict::Refused { .. } => Told::Refused,
    }
}

fn tell_verdict<K: Sink>(alloc: Global, schedule: &Schedule, sink: &mut K) -> Result<Told, Untold>
    ensures { AcrossSink K.written K.faults (TellsAs (Ok schedule.now) result) sink.old sink.new }
{
    match check(alloc, schedule) {
        Err(_) => Err(Untold::OutOfMemory),
        Ok(verdict) => finished(told_of(&verdict), write_verdict(&verdict, sink)),
    }
}

/// Reads the source as a schedule, plays it, and writes the text of its verdict, or of its fault. The text and the
/// status (0 accepted, 2 faulty, 7 refused) are functions of the bytes.
pub fn tell_schedule<K: Sink>(alloc: Global, source: &[u8], sink: &mut K) -> Result<Told, Untold>
    ensures { AcrossSink K.written K.faults (TellsSchedule source.now result) sink.old sink.new }
{
    match read_schedule(alloc, source) {
        Err(ScheduleFault::OutOfMemory) => Err(Untold::OutOfMemory),
        Err(fault) => finished(Told::Faulty, write_schedule_fault(&fault, sink)),
        Ok(schedule) => tell_verdict(alloc, &schedule, sink),
    }
}
