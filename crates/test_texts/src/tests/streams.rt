//! Sources and sinks over fakes of a reader and a writer, and in memory.
use play_report::{
    Failed, GatheredSink, MemorySink, MemorySource, Source, StdSink, StdSource, SureSource,
    write_all,
};
use std::alloc::Global;
use std::io;
use std::io::{ErrorKind, Read, Write};
use std::test::Fail;

#[derive(Clone, Copy)]
enum Step {
    Interrupted,
    Broken,
    Gives(u8),
    Takes(usize),
}

fn fault_of(step: Step) -> Option<ErrorKind> {
    match step {
        Step::Interrupted => Some(ErrorKind::Interrupted),
        Step::Broken => Some(ErrorKind::BrokenPipe),
        _ => None,
    }
}

/// Does one step a call, and is then at its end.
#[derive(Drop)]
struct FakeReader<'a> {
    steps: &'a [Step],
    at: usize,
}

impl<'a> FakeReader<'a> {
    fn next_step(&mut self) -> Option<Step> {
        let step = self.steps.get(self.at).copied();
        self.at = self.at.saturating_add(1);
        step
    }
}

impl<'a> Read for FakeReader<'a> {
    fn read(&mut self, buf: &mut [u8]) -> io::Result<usize> {
        let step = self.next_step().unwrap_or(Step::Takes(0));
        match (fault_of(step), step, buf.first_mut()) {
            (Some(kind), _, _) => Err(io::Error::from(kind)),
            (None, Step::Gives(byte), Some(place)) => {
                *place = byte;
                Ok(1)
            }
            _ => Ok(0),
        }
    }
}

/// Does one step a call, and then takes nothing.
#[derive(Drop)]
struct FakeWriter<'a> {
    steps: &'a [Step],
    at: usize,
    taken: Vec<u8>,
}

impl<'a> FakeWriter<'a> {
    fn next_step(&mut self) -> Option<Step> {
        let step = self.steps.get(self.at).copied();
        self.at = self.at.saturating_add(1);
        step
    }
}

impl<'a> Write for FakeWriter<'a> {
    fn write(&mut self, buf: &[u8]) -> io::Result<usize> {
        let step = self.next_step().unwrap_or(Step::Takes(0));
        match (fault_of(step), step) {
            (Some(kind), _) => Err(io::Error::from(kind)),
            (None, Step::Takes(most)) => {
                let n = buf.len().min(most);
                self.taken.extend_from_slice(&buf[..n])?;
                Ok(n)
            }
            _ => Ok(0),
        }
    }

    fn flush(&mut self) -> io::Result<()> {
        Ok(())
    }
}

#[test]
fn a_reader_is_tried_again_where_it_was_interrupted(rt: HostRuntime) {
    let steps = [
        Step::Interrupted,
        Step::Gives(7),
        Step::Broken,
        Step::Gives(9),
    ];
    let mut source = StdSource::make(FakeReader {
        steps: &steps,
        at: 0,
    });
    for (answer, first) in [(Ok(1), 7), (Err(Failed), 0), (Ok(1), 9), (Ok(0), 0)] {
        let mut buf = [0; 4];
        let is_so = source.read(&mut buf) == answer && buf == [first, 0, 0, 0];
        assert!(rt; is_so, "{first}");
    }
    for (steps, answer) in [
        ([Step::Interrupted; 64].as_slice(), Ok(0)),
        ([Step::Interrupted; 65].as_slice(), Err(Failed)),
    ] {
        let mut source = StdSource::make(FakeReader { steps, at: 0 });
        assert!(rt; source.read(&mut [0; 4]) == answer);
    }
}

#[test]
fn a_writer_is_handed_the_rest(rt: HostRuntime) {
    let rows = [
        (
            [Step::Interrupted, Step::Takes(2), Step::Takes(9)],
            Ok(()),
            b"abc".as_slice(),
        ),
        (
            [Step::Takes(2), Step::Takes(0), Step::Takes(9)],
            Err(Failed),
            b"ab".as_slice(),
        ),
        (
            [Step::Takes(1), Step::Broken, Step::Takes(9)],
            Err(Failed),
            b"a".as_slice(),
        ),
    ];
    for (steps, answer, taken) in rows {
        let mut writer = FakeWriter {
            steps: &steps,
            at: 0,
            taken: Vec::new(rt.alloc()),
        };
        let is_so = write_all(&mut StdSink::make(&mut writer), b"abc") == answer;
        assert!(rt; is_so && writer.taken.as_slice() == taken);
    }
}

/// Whether the source reads so many bytes, four at a time, or fails if it tells none.
fn gives<S: Source>(source: &mut S, told: &[(Option<usize>, &[u8; 4])]) -> bool {
    for (answer, bytes) in told {
        let mut buf = [0; 4];
        if source.read(&mut buf).ok() != *answer || buf != **bytes {
            return false;
        }
    }
    true
}

#[test]
fn sources_in_memory_give_their_bytes(rt: HostRuntime) -> Result<(), Fail> {
    let mut slow = MemorySource::make(rt.alloc(), b"abcde", 2, &[2])?;
    let mut sure = SureSource::make(rt.alloc(), b"abcde")?;
    let is_so = gives(
        &mut slow,
        &[
            (Some(2), b"ab\0\0"),
            (None, b"\0\0\0\0"),
            (Some(2), b"cd\0\0"),
            (Some(1), b"e\0\0\0"),
            (Some(0), b"\0\0\0\0"),
        ],
    );
    assert!(rt; is_so, "slow");
    let is_so = gives(
        &mut sure,
        &[
            (Some(4), b"abcd"),
            (Some(1), b"e\0\0\0"),
            (Some(0), b"\0\0\0\0"),
        ],
    );
    assert!(rt; is_so, "sure");
    Ok(())
}

fn thousands(alloc: Global, count: u8) -> Option<Vec<u8>> {
    let mut bytes = Vec::new(alloc);
    for k in 0..count {
        bytes.resize(bytes.len().saturating_add(1_000), k).ok()?;
    }
    Some(bytes)
}

/// The call that fails of a sink behind one that gathers; whether more bytes are taken then, and how many were handed
/// on; whether the end goes well, and how many were handed on by then.
type Gathered = (u32, bool, usize, bool, usize);

/// 60,000 bytes are gathered, and 10,000 more have no room beside them: the first go on in three calls, of 25,000 bytes
/// at most, and the others in a fourth at the end. Nothing is lost if a call fails.
const GATHERED: [Gathered; 5] = [
    (1, false, 0, true, 70_000),
    (2, false, 25_000, true, 70_000),
    (3, false, 50_000, true, 70_000),
    (4, true, 60_000, false, 60_000),
    (5, true, 60_000, true, 70_000),
];

fn gathering(alloc: Global, failing: u32, bytes: &[u8]) -> Option<GatheredSink<MemorySink>> {
    let inner = MemorySink::make(alloc, 70_000, 25_000, &[failing]).ok()?;
    let mut sink = GatheredSink::make(alloc, inner).ok()?;
    write_all(&mut sink, bytes).ok()?;
    Some(sink)
}

fn hands_on(alloc: Global, whole: &[u8], row: &Gathered) -> Option<bool> {
    let (failing, is_taken, handed, _, _) = *row;
    let (first, second) = (whole.get(..60_000)?, whole.get(60_000..)?);
    let mut sink = gathering(alloc, failing, first)?;
    let is_so = write_all(&mut sink, second).is_ok() == is_taken;
    Some(is_so && Some(sink.abandon().bytes()) == whole.get(..handed))
}

/// Whether so much is handed on in the end, if what wasn't taken is written again.
fn ends_with(alloc: Global, whole: &[u8], row: &Gathered) -> Option<bool> {
    let (failing, _, _, ends_well, handed) = *row;
    let (first, second) = (whole.get(..60_000)?, whole.get(60_000..)?);
    let mut sink = gathering(alloc, failing, first)?;
    let mut is_taken = write_all(&mut sink, second).is_ok();
    if !is_taken {
        is_taken = write_all(&mut sink, second).is_ok();
    }
    let (ended, inner) = sink.finish();
    Some(is_taken && ended.is_ok() == ends_well && Some(inner.bytes()) == whole.get(..handed))
}

#[test]
fn what_is_gathered_is_handed_on_once(rt: HostRuntime) {
    let Some(whole) = thousands(rt.alloc(), 70) else {
        panic!(rt; "memory")
    };
    for row in &GATHERED {
        let is_so = hands_on(rt.alloc(), whole.as_slice(), row) == Some(true)
            && ends_with(rt.alloc(), whole.as_slice(), row) == Some(true);
        assert!(rt; is_so, "{}", row.0);
    }
}
