ghost use Rattle.gc_play.specs.Ending.{IsStopAnswer, TextEnds};
ghost use Rattle.play_report.specs.Causes.{AcrossSink};

use crate::status::Status;
use play_end::PlayError;
use play_report::{Sink, write_full};

/// Writes how far a play came that found too few cells; nothing if memory ran out.
#[tactic(auto, using(crate::proofs::Taking::told, crate::proofs::Plays::stop_answer))]
pub fn tell_stop<K: Sink>(error: PlayError, sink: &mut K) -> Status
    ensures { AcrossSink K.written K.faults (TextEnds (IsStopAnswer error) result) sink.old sink.new }
{
    match error {
        PlayError::OutOfMemory => Status::Memory,
        PlayError::Full(positions) => Status::Full.after(write_full(&positions, sink)),
    }
}
