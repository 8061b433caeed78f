use crate::tests::written::expanded;
use gc_play::{OpenGate, play};
use gc_script::read;
use play_end::{Options, USUAL};
use play_report::{MemorySink, write_report};
use std::test::Fail;

/// Each warehouse keeps its first two objects and the last of fifty more.
const SOURCE: &str =
    "gcscript 1; {8*warehouse; new a 1; new b 2; set a 0 b; repeat 50; new c 3; end; }";

const TEXT: &str = "{1..9*warehouse %; dropped 0; }survivors 24; {1..9*% 0 1; % 1 2; % 51 3
}";

#[test]
fn eight_warehouses_share_64_cells(rt: HostRuntime) -> Result<(), Fail> {
    let alloc = rt.alloc();
    let source = expanded(alloc, SOURCE).ok_or("memory")?;
    let text = expanded(alloc, TEXT).ok_or("memory")?;
    let script = read(alloc, source.as_bytes())?;
    for workers in [1, 2, 4, 8] {
        let options = Options {
            cells: 64,
            workers,
            ..USUAL
        };
        let Ok(report) = play(&rt, alloc, &script, &options, &OpenGate) else {
            panic!(rt; "no report with {workers} workers")
        };
        let mut sink = MemorySink::make(alloc, 2_000, 2_000, &[])
            .ok()
            .ok_or("memory")?;
        assert!(rt; write_report(&report, false, &mut sink).is_ok());
        assert!(rt; sink.bytes() == text.as_bytes(), "{workers} workers");
    }
    Ok(())
}
