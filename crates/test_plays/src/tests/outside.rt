ghost use Rattle.std.specs.Prelude.{◌≡◌, ◌∷◌, [], Contains, IfSome};

use gc_play::OpenGate;
use play_report::{MemorySink, MemorySource};
use play_words::play_words;
use std::alloc::Global;
use std::sync::Wait;
use std::thread::Threads;

/// A source that gives `per_read` bytes a call, and a sink that takes `per_write` and has this room; the listed reads
/// and writes fail.
#[derive(Drop)]
pub struct Outside<'a> {
    pub bytes: &'a [u8],
    pub per_read: usize,
    pub reads: &'a [u32],
    pub room: usize,
    pub per_write: usize,
    pub writes: &'a [u32],
}

/// A source of these bytes, if nothing fails.
pub fn sure(bytes: &[u8]) -> Outside<'_> {
    Outside {
        bytes,
        per_read: 4_096,
        reads: &[],
        room: 2_000_000,
        per_write: 4_096,
        writes: &[],
    }
}

fn words_of(alloc: Global, words: &str) -> Option<Vec<String>> {
    let mut given = Vec::new(alloc);
    for word in words.split_whitespace() {
        given.push(word.to_string(alloc).ok()?).ok()?;
    }
    Some(given)
}

/// The status of a run, and what it writes. None if there is no memory, or a call gives or takes no byte.
pub fn answer_of<R: AllocGlobal + Threads + Wait + Sync>(
    rt: &R,
    words: &str,
    outside: &Outside<'_>,
) -> Option<(u8, Vec<u8>)>
    ensures statuses { IfSome result (λ r. Contains (0 ∷ 1 ∷ 2 ∷ 3 ∷ 4 ∷ 5 ∷ 6 ∷ 7 ∷ []) r.0) }
{
    if outside.per_read == 0 || outside.per_write == 0 {
        return None;
    }
    let alloc = rt.alloc();
    let given = words_of(alloc, words)?;
    let mut source = MemorySource::make(
        alloc,
        outside.bytes,
        outside.per_read,
        outside.reads,
    ).ok()?;
    let mut sink = MemorySink::make(alloc, outside.room, outside.per_write, outside.writes).ok()?;
    let status = play_words(
        rt,
        alloc,
        given.as_slice(),
        &mut source,
        &mut sink,
        &OpenGate,
    );
    Some((status, sink.bytes().to_vec(alloc).ok()?))
}
