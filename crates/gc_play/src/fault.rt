ghost use Rattle.std.specs.Prelude.{◌≢◌};
ghost use Rattle.gc_script.specs.Shown.{fault_of};
ghost use Rattle.gc_play.specs.Ending.{IsFaultAnswer, TextEnds};
ghost use Rattle.play_report.specs.Causes.{AcrossSink};

use crate::status::Status;
use gc_script::ScriptError;
use play_report::{Sink, write_fault};

/// Writes a fault; out of memory is none.
#[tactic(auto, using(crate::proofs::Taking::told, crate::proofs::Faulted::fault_told))]
pub fn tell_fault<K: Sink>(fault: &ScriptError, sink: &mut K) -> Status
    requires { fault.now ≢ ScriptError.OutOfMemory }
    ensures { AcrossSink K.written K.faults (TextEnds (IsFaultAnswer (fault_of fault.now)) result) sink.old sink.new }
{
    Status::InputFault.after(write_fault(fault, sink))
}
