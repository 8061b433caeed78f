//! What a gate is told.
use gc_play::{Gate, play};
use gc_script::{Section, read};
use gc_table::HeapSeat;
use play_end::{Options, USUAL};
use std::sync::atomic::AtomicUsize;
use std::sync::atomic::Ordering::SeqCst;
use std::test::Fail;

/// Compares each command with the next one expected, by section and number.
#[derive(Drop)]
struct Watch<'a> {
    expected: &'a [(u32, u64)],
    passed: AtomicUsize,
    wrong: AtomicUsize,
}

impl Gate for Watch<'_> {
    fn pass(&self, _seat: &HeapSeat, section: &Section<'_>, command: u64) {
        let place = self.passed.fetch_add(1, SeqCst);
        if self.expected.get(place) != Some(&(section.number(), command)) {
            self.wrong.fetch_add(1, SeqCst);
        }
    }

    fn turn(&self, _seat: &HeapSeat) {}
}

const SCRIPT: &[u8] =
    b"gcscript 3\nfields 4\ncatalogue\nnew a 1\nseason\nnew a 2\nlet b a\nwarehouse\ncat x a\nrepeat 2\nsay p x\nend\nseason\ncat x a\nwarehouse\nnil y\nseason\nsay q y\nnil y\n";

/// One worker plays the catalogue's part of a season, and then the warehouses' in order. A command of `repeat` counts
/// each time.
const COMMANDS: [(u32, u64); 10] = [
    (0, 0),
    (1, 0),
    (1, 1),
    (1, 2),
    (2, 0),
    (0, 1),
    (0, 2),
    (1, 3),
    (2, 1),
    (2, 2),
];

#[test]
fn tells_each_command_once(rt: HostRuntime) -> Result<(), Fail> {
    let options = Options {
        workers: 1,
        ..USUAL
    };
    let script = read(rt.alloc(), SCRIPT)?;
    let watch = Watch {
        expected: &COMMANDS,
        passed: AtomicUsize::new(0),
        wrong: AtomicUsize::new(0),
    };
    let is_done = play(&rt, rt.alloc(), &script, &options, &watch).is_ok();
    assert!(rt; is_done);
    assert_eq!(rt; watch.passed.load(SeqCst), COMMANDS.len());
    assert_eq!(rt; watch.wrong.load(SeqCst), 0);
    Ok(())
}
