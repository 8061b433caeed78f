//! A store hides an object from a tracer, in a play whose threads are held around that store.
//!
//! The first warehouse has a chain of 890 objects, and behind the last an object that nothing else refers to. It leaves
//! 8 cells of a block free, so it traces fewer than 128 objects for the cache with which a cycle begins. It is held
//! until the tracer, held until then, has had two turns of 64 objects and is held in its third: the head of the chain
//! was scanned, and its end wasn't. Now the warehouse stores the last object in the head, and takes it off the end:
//! only the card that the store dirtied keeps it.
use crate::tests::marking::{behind_chain, is_marking};
use crate::tests::signal::Signal;
use gc_play::{Gate, OpenGate, play};
use gc_script::{Section, read};
use gc_table::HeapSeat;
use play_end::{Options, USUAL};
use play_report::{MemorySink, write_report};
use std::sync::Wait;
use std::sync::atomic::AtomicU64;
use std::sync::atomic::Ordering::SeqCst;
use std::thread::Threads;

const HIDE: &str =
    "season; repeat 28; new g 5; end; let y a; repeat 889; get y y 0; end; get w y 0; set a 1 w; nil w
set y 0 w; nil y; repeat 1200; new g 6; end; get w a 1; say found w; nil g; set a 0 g; warehouse; season; nil h
repeat 300; new h 7; end; say last h; nil h
";

const TEXT: &str =
    "warehouse 1\nfound 9\ndropped 0\nwarehouse 2\nlast 7\ndropped 0\nsurvivors 2\n1 0 1\n1 1017 9\n";

/// The first command of the walk, behind 2,803 that make the chain and collect, and 28 that begin a cycle.
const WALK: (u32, u64) = (1, 2_831);

/// The command behind the stores.
const HIDDEN: (u32, u64) = (1, 3_725);

/// The other warehouse is held until then.
const OTHER: (u32, u64) = (2, 0);

#[derive(Drop)]
struct Hiding<'a, R: Wait + Sync> {
    rt: &'a R,
    walks: Signal,
    /// Turns of the tracer while a cycle marks.
    turns: Signal,
    hidden: Signal,
    /// At how many of the two commands a cycle was marking.
    marking: AtomicU64,
}

fn look(marking: &AtomicU64, seat: &HeapSeat) {
    if is_marking(seat) {
        marking.fetch_add(1, SeqCst);
    }
}

impl<R: Wait + Sync> Gate for Hiding<'_, R> {
    fn pass(&self, seat: &HeapSeat, section: &Section<'_>, command: u64) {
        let place = (section.number(), command);
        if place == WALK {
            self.walks.tell();
            self.turns.wait(self.rt);
            look(&self.marking, seat);
        } else if place == HIDDEN {
            look(&self.marking, seat);
            self.hidden.tell();
        } else if place == OTHER {
            self.hidden.wait(self.rt);
        }
    }

    fn turn(&self, seat: &HeapSeat) {
        if !is_marking(seat) {
            return;
        }
        self.walks.wait(self.rt);
        self.turns.tell();
        if self.turns.has_come() {
            self.hidden.wait(self.rt);
        }
    }
}

fn is_written<R: AllocGlobal + Threads + Wait + Sync, G: Gate + Sync>(
    rt: &R,
    workers: u32,
    tracers: u32,
    gate: &G,
) -> Option<bool> {
    if workers < 1 || 2 < workers || 1 < tracers {
        return None;
    }
    let options = Options {
        cells: 1_024,
        workers,
        tracers,
        ..USUAL
    };
    let alloc = rt.alloc();
    let source = behind_chain(alloc, HIDE)?;
    let script = read(alloc, source.as_bytes()).ok()?;
    let report = play(rt, alloc, &script, &options, gate).ok()?;
    let mut sink = MemorySink::make(alloc, 200, 200, &[]).ok()?;
    let is_done = write_report(&report, false, &mut sink).is_ok();
    Some(is_done && sink.bytes() == TEXT.as_bytes())
}

#[test]
fn what_is_hidden_from_a_tracer_is_kept(rt: HostRuntime) {
    let gate = Hiding {
        rt: &rt,
        walks: Signal::of(1),
        turns: Signal::of(3),
        hidden: Signal::of(1),
        marking: AtomicU64::new(0),
    };
    let is_kept = is_written(&rt, 2, 1, &gate);
    assert!(&rt; !gate.walks.was_given_up() && !gate.turns.was_given_up());
    assert!(&rt; !gate.hidden.was_given_up());
    assert_eq!(&rt; gate.marking.load(SeqCst), 2);
    assert!(&rt; is_kept == Some(true));
}

/// Without a tracer the warehouse itself scans the head.
#[test]
fn what_is_hidden_without_a_tracer_is_kept(rt: HostRuntime) {
    assert!(&rt; is_written(&rt, 1, 0, &OpenGate) == Some(true));
}
