ghost use Rattle.std.specs.Prelude.{IfSome};
ghost use Rattle.schedule_check.specs.Telling.{IsScheduleAnswer};
ghost use Rattle.gc_play.specs.Ending.{CommandEnds, TextEnds, number_of_status};
ghost use Rattle.gc_play.specs.Promise.{HasItsText, OfSource};
ghost use Rattle.gc_play.specs.Reading.{IsSpent, TakesAtMost};
ghost use Rattle.play_report.specs.Causes.{AcrossSink};

use gc_play::{SCHEDULE, Status, Unread, read_source};
use play_report::{Sink, Source};
use schedule_check::{Told, Untold, tell_schedule};
use std::alloc::Global;

fn check_bytes<K: Sink>(alloc: Global, bytes: &[u8], sink: &mut K) -> Status
    ensures { AcrossSink K.written K.faults (TextEnds (IsScheduleAnswer bytes.now) result) sink.old sink.new }
{
    match tell_schedule(alloc, bytes, sink) {
        Ok(Told::Accepted) => Status::Done,
        Ok(Told::Faulty) => Status::InputFault,
        Ok(Told::Refused) => Status::Refused,
        Err(Untold::OutOfMemory) => Status::Memory,
        Err(Untold::Failed) => Status::WriteFault,
    }
}

/// Checks the schedule of the source.
pub fn check_source<S: Source, K: Sink>(alloc: Global, source: &mut S, sink: &mut K) -> Status
    ensures ends { AcrossSink K.written K.faults (CommandEnds (OfSource IsScheduleAnswer (S.left source.old)) result
        (S.faults source.old) (S.faults source.new)) sink.old sink.new }
    ensures spent { HasItsText (number_of_status result) → IfSome (S.left source.old) (λ bytes. IsSpent SCHEDULE bytes (S.left source.new)) }
    ensures most { TakesAtMost SCHEDULE (S.left source.old) (S.left source.new) }
{
    match read_source(alloc, source, SCHEDULE) {
        Err(Unread::Memory) => Status::Memory,
        Err(Unread::Failed) => Status::ReadFault,
        Ok(bytes) => check_bytes(alloc, bytes.as_slice(), sink),
    }
}
