//! Runs through a sink that gathers what is written, over one that fails.
ghost use Rattle.std.specs.Prelude.{◌≡◌, IfSome};

use crate::tests::written::expanded;
use gc_play::OpenGate;
use play_report::{GatheredSink, MemorySink, SureSource, write_all};
use play_words::{play_words, settle};
use std::alloc::Global;
use std::sync::Wait;
use std::test::Fail;
use std::thread::Threads;

/// A gathering sink over one that takes so many bytes a call and fails in this call.
fn gathering(alloc: Global, per_call: usize, failing: u32) -> Option<GatheredSink<MemorySink>>
    ensures { IfSome result (λ sink. sink.faults ≡ 0) }
{
    if per_call == 0 {
        return None;
    }
    let inner = MemorySink::make(alloc, 100_000, per_call, &[failing]).ok()?;
    GatheredSink::make(alloc, inner).ok()
}

/// What is gathered at the end goes on; if that fails the status is 5. After status 5 nothing goes on.
#[test]
fn what_is_left_is_handed_on_at_the_end(rt: HostRuntime) -> Result<(), Fail> {
    for (status, failing, settled, written) in [
        (0, 3, 0, b"abc".as_slice()),
        (0, 2, 5, b"ab"),
        (0, 1, 5, b""),
        (2, 3, 2, b"abc"),
        (3, 1, 5, b""),
        (5, 3, 5, b""),
    ] {
        let mut sink = gathering(rt.alloc(), 2, failing).ok_or("memory")?;
        assert!(rt; write_all(&mut sink, b"abc").is_ok());
        let (end, inner) = settle(status, sink);
        assert!(rt;
            end == settled && inner.bytes() == written,
            "{status} {failing}"
        );
    }
    Ok(())
}

const SCRIPT: &[u8] = b"gcscript 1
warehouse
new x 4294967295
repeat 1820
say aaaaaaaaaaaaaaaaaaaaaaaaaaaaaaaa x
end
";

const TEXT: &str =
    "warehouse 1; {1820*aaaaaaaaaaaaaaaaaaaaaaaaaaaaaaaa 4294967295; }dropped 0; survivors 1
1 0 4294967295
";

/// The status of a run over a sink that takes 30,000 bytes a call and fails in this call.
fn ends<R: AllocGlobal + Threads + Wait + Sync>(rt: &R, failing: u32) -> Option<(u8, MemorySink)> {
    let words = ["run".to_string(rt.alloc()).ok()?];
    let mut source = SureSource::make(rt.alloc(), SCRIPT).ok()?;
    let mut sink = gathering(rt.alloc(), 30_000, failing)?;
    let status = play_words(rt, rt.alloc(), &words, &mut source, &mut sink, &OpenGate);
    Some(settle(status, sink))
}

/// Of 80,129 bytes the first 65,536 or a few more go on in three calls, and the rest at the end.
#[test]
fn a_gathered_text_is_written_up_to_the_fault(rt: HostRuntime) -> Result<(), Fail> {
    let text = expanded(rt.alloc(), TEXT).ok_or("memory")?;
    assert!(rt; text.len() == 80_129);
    for (failing, status, least) in [
        (1, 5, 0),
        (2, 5, 30_000),
        (3, 5, 60_000),
        (4, 5, 65_490),
        (5, 0, 80_129),
    ] {
        let (end, inner) = ends(&rt, failing).ok_or("memory")?;
        let written = inner.bytes();
        assert!(rt;
            end == status && text.as_bytes().starts_with(written),
            "{failing}"
        );
        assert!(rt; least <= written.len() && written.len() < least.saturating_add(30_000));
        assert!(rt; failing > 3 || written.len() == least, "{failing}");
    }
    Ok(())
}
