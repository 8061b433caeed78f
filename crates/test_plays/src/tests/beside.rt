//! Threads run side by side: a gate holds sections in their first command until others came so far, and would give up
//! if they were played one after another.
use crate::tests::signal::Signal;
use gc_play::{Gate, play};
use gc_script::{Section, read};
use gc_table::HeapSeat;
use play_end::{Options, USUAL};
use std::sync::Wait;
use std::sync::atomic::AtomicU64;
use std::sync::atomic::Ordering::SeqCst;
use std::thread::Threads;

#[derive(Drop)]
struct Holding<'a, R: Wait + Sync> {
    rt: &'a R,
    held: &'a [u32],
    /// By section and number.
    awaited: &'a [(u32, u64)],
    passed: Signal,
    turned: Signal,
    own: AtomicU64,
}

impl<R: Wait + Sync> Gate for Holding<'_, R> {
    fn pass(&self, seat: &HeapSeat, section: &Section<'_>, command: u64) {
        let number = section.number();
        if seat.state().active && seat.state().section == Some(number) {
            self.own.fetch_add(1, SeqCst);
        }
        if self.awaited.contains(&(number, command)) {
            self.passed.tell();
        }
        if command == 0 && self.held.contains(&number) {
            self.passed.wait(self.rt);
            self.turned.wait(self.rt);
        }
    }

    fn turn(&self, seat: &HeapSeat) {
        if seat.state().active && seat.state().section.is_none() {
            self.turned.tell();
        }
    }
}

const TWO: &[u8] = b"gcscript 1
warehouse
new a 1
new a 2
new a 3
warehouse
new a 1
new a 2
new a 3
";

const THREE: &[u8] = b"gcscript 1
warehouse
new a 1
say a a
warehouse
new a 2
say a a
warehouse
new a 3
say a a
";

/// A script, its commands, the workers, the held sections, and for which commands and how many turns of the tracer they
/// wait.
type Row<'a> = (&'a [u8], u64, u32, &'a [u32], &'a [(u32, u64)], u64);

const ROWS: [Row<'static>; 4] = [
    // Section 1 waits for the last command of section 2, and the other way round.
    (TWO, 6, 2, &[1], &[(2, 2)], 0),
    (TWO, 6, 2, &[2], &[(1, 2)], 0),
    (TWO, 6, 1, &[1], &[], 1),
    (THREE, 6, 3, &[1, 2, 3], &[(1, 0), (2, 0), (3, 0)], 1),
];

/// Whether all was played, and nothing waited for was given up.
fn meets<R: AllocGlobal + Threads + Wait + Sync>(rt: &R, row: &Row<'_>) -> Option<bool> {
    let (script, commands, workers, held, awaited, turns) = *row;
    if workers < 1 || 32 < workers {
        return None;
    }
    let options = Options { workers, ..USUAL };
    let script = read(rt.alloc(), script).ok()?;
    let gate = Holding {
        rt,
        held,
        awaited,
        passed: Signal::of(awaited.len() as u64),
        turned: Signal::of(turns),
        own: AtomicU64::new(0),
    };
    let is_done = play(rt, rt.alloc(), &script, &options, &gate).is_ok();
    let has_met = !gate.passed.was_given_up() && !gate.turned.was_given_up();
    Some(is_done && has_met && gate.own.load(SeqCst) == commands)
}

/// Whether so many warehouses meet, each with a worker of its own, which waits in the first command for all others.
fn all_meet<R: AllocGlobal + Threads + Wait + Sync>(rt: &R, warehouses: u32) -> Option<bool> {
    let mut script = "gcscript 1\n".to_string(rt.alloc()).ok()?;
    let mut held = Vec::new(rt.alloc());
    let mut awaited = Vec::new(rt.alloc());
    for number in 1..=warehouses {
        script.push_str("warehouse\nnew a 1\n").ok()?;
        held.push(number).ok()?;
        awaited.push((number, 0_u64)).ok()?;
    }
    let row = (
        script.as_bytes(),
        u64::from(warehouses),
        warehouses,
        held.as_slice(),
        awaited.as_slice(),
        0,
    );
    meets(rt, &row)
}

#[test]
fn there_are_as_many_workers_as_asked(rt: HostRuntime) {
    for workers in [8, 32] {
        assert!(rt; all_meet(&rt, workers) == Some(true), "{workers}");
    }
}

#[test]
fn side_by_side(rt: HostRuntime) {
    for (i, row) in ROWS.iter().enumerate() {
        assert!(rt; meets(&rt, row) == Some(true), "row {i}");
    }
}
