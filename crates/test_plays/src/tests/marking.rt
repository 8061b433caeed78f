//! A tracer traces while a warehouse is held.
//!
//! A warehouse makes a chain of 890 objects, which leaves 8 cells of a block of 64 free, and collects. Four caches
//! later a cycle begins, and for the fourth it traces fewer than 128 objects. It is held at the next command until the
//! tracer, held until then, has had twenty turns. So nothing is left to trace when it takes its fifth cache, and the
//! cycle ends there; without a tracer the cycle would go on for some nine caches.
use crate::tests::signal::Signal;
use crate::tests::written::expanded;
use gc_play::{Gate, play};
use gc_script::{Section, read};
use gc_table::HeapSeat;
use mark_core::Phase;
use play_end::{Options, USUAL};
use std::alloc::Global;
use std::sync::Wait;
use std::sync::atomic::AtomicU64;
use std::sync::atomic::Ordering::SeqCst;
use std::test::Fail;

/// A chain whose objects fill seven cells of eight, an object behind it, and a collection.
const CHAIN: &str =
    "gcscript 3; fields 4; warehouse; new a 1; let t a; repeat 127; {7*new n 2; set t 0 n; let t n
}new g 4; end; new w 9; set t 0 w; nil w; nil t; nil n; nil g; collect
";

const MORE: &str = "repeat 96; new g 5; end
";

/// The script of the chain, and these lines.
pub fn behind_chain(alloc: Global, lines: &str) -> Option<String> {
    let whole = format!(in alloc; "{CHAIN}{lines}").ok()?;
    expanded(alloc, whole.as_str())
}

/// Whether the seat has read that a cycle is marking.
pub fn is_marking(seat: &HeapSeat) -> bool {
    matches!(seat.state().phase_seen, Some(Phase::Marking))
}

/// Holds the warehouse in a cycle until the tracer has had its turns, and the tracer until then.
#[derive(Drop)]
struct Tracing<'a, R: Wait + Sync> {
    rt: &'a R,
    held: Signal,
    turns: Signal,
    marking: AtomicU64,
    /// How many came after it.
    after: AtomicU64,
}

impl<R: Wait + Sync> Gate for Tracing<'_, R> {
    fn pass(&self, seat: &HeapSeat, _section: &Section<'_>, _command: u64) {
        if is_marking(seat) && self.after.load(SeqCst) == 0 {
            self.held.tell();
            self.turns.wait(self.rt);
            self.marking.fetch_add(1, SeqCst);
        } else if self.marking.load(SeqCst) > 0 {
            self.after.fetch_add(1, SeqCst);
        }
    }

    fn turn(&self, seat: &HeapSeat) {
        if is_marking(seat) {
            self.held.wait(self.rt);
            self.turns.tell();
        }
    }
}

/// The warehouse passes the eight commands of its fourth cache in the cycle.
#[test]
fn a_tracer_traces_while_a_warehouse_is_held(rt: HostRuntime) -> Result<(), Fail> {
    let options = Options {
        cells: 1_024,
        workers: 1,
        tracers: 1,
        ..USUAL
    };
    let alloc = rt.alloc();
    let source = behind_chain(alloc, MORE).ok_or("memory")?;
    let script = read(alloc, source.as_bytes())?;
    let gate = Tracing {
        rt: &rt,
        held: Signal::of(1),
        turns: Signal::of(20),
        marking: AtomicU64::new(0),
        after: AtomicU64::new(0),
    };
    let is_done = play(&rt, alloc, &script, &options, &gate).is_ok();
    assert!(&rt; is_done && !gate.turns.was_given_up());
    let passed = gate.marking.load(SeqCst);
    assert!(&rt;
        0 < passed && passed <= 24,
        "{passed} commands in the cycle"
    );
    Ok(())
}
