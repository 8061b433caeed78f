ghost use Rattle.std.specs.Prelude.{◌≡◌, ◌≢◌, ◌⊎◌, IfSome};
ghost use Rattle.std.specs.Io.{StartsWith};
ghost use Rattle.std.specs.Io.KnownBytes.{Keeps};
ghost use Rattle.play_report.specs.Causes.{Rose};

use crate::status::Status;
use play_report::{GatheredSink, Sink};

/// Hands on what is gathered, and gives the status and the sink behind. If that fails, the status is 5, and it has a
/// prefix; if it failed before, no more is handed on.
pub fn settle<K: Sink + Drop>(status: u8, sink: GatheredSink<K>) -> (u8, K)
    ensures status { (result.0 ≡ status) ⊎ (result.0 ≡ 5) }
    ensures whole { result.0 ≢ 5 → Keeps sink.bytes (K.written result.1) × (K.faults result.1 ≡ sink.faults) }
    ensures fault { status ≢ 5 → result.0 ≡ 5 → Rose sink.faults (K.faults result.1) }
    ensures prefix { IfSome sink.bytes (λ all. IfSome (K.written result.1) (λ handed. StartsWith all handed)) }
    ensures stopped { status ≡ 5 → (K.written result.1 ≡ sink.handed) × (K.faults result.1 ≡ sink.faults) }
{
    let failed = Status::WriteFault.code();
    if status == failed {
        return (status, sink.abandon());
    }
    match sink.finish() {
        (Ok(()), inner) => (status, inner),
        (Err(_), inner) => (failed, inner),
    }
}
