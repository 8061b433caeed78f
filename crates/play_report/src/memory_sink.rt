//! Sinks in memory.
ghost use Rattle.std.specs.Prelude.{◌≡◌, ◌<◌, ◌≤◌, ◌+◌, ◌-◌, ◌^◌, ◌⊎◌, ◌↔◌, ◌++◌, [], Some, None, IfOk, IsErr, MatchResult, IsTrue, Contains, take, min, length};
ghost use Rattle.std.specs.Io.{WritesAtMost};
ghost use Rattle.std.specs.Io.KnownBytes.{WriteAppends};
ghost use Rattle.play_report.specs.Causes.{HasCause};
ghost use Rattle.play_report.specs.Streams.{count_one_more};

use crate::memory_source::{copy_of, is_listed};
use crate::outside::{Failed, Sink};
use plain_heap::OutOfMemory;
use std::alloc::Global;
use std::marker::Model;

fn is_refused(failing: &[u32], call: u64, room: usize, piece: &[u8]) -> bool
    ensures { IsTrue result ↔ (Contains failing.now call ⊎ ((0 < length piece.now) × (room ≡ 0))) }
{
    is_listed(failing, call) || (room == 0 && !piece.is_empty())
}

/// Keeps what is written in memory: a call takes at most `per_call` bytes, and the listed calls fail.
#[derive(Drop)]
pub struct MemorySink {
    bytes: Vec<u8>,
    room: usize,
    per_call: usize,
    failing: Vec<u32>,
    calls: u64,
    faults: u64,
}

impl Model for MemorySink {
    ghost use Rattle.std.specs.Prelude.{◌≤◌, ◌<◌, ◌+◌, vec_len, vec_capacity};
    ghost use Rattle.play_report.specs.Streams.{Store};

    ghost Value = { Store };

    ghost view = { λ s. record {
      written = s.bytes.items;
      room = s.room;
      per_call = s.per_call;
      failing = s.failing.items;
      calls = s.calls;
      faults = s.faults;
    } };

    ghost invariant = { λ s. (vec_len s.bytes + s.room ≤ vec_capacity s.bytes) × (0 < s.per_call) };
}

impl MemorySink {
    /// An empty sink, which takes the memory for `room` bytes. `failing` lists the calls that fail, counted from 1.
    pub fn make(
        alloc: Global,
        room: usize,
        per_call: usize,
        failing: &[u32],
    ) -> Result<MemorySink, OutOfMemory>
        requires { 0 < per_call }
        ensures { IfOk result
            (λ s. s ≡ record { written = []; room = room; per_call = per_call; failing = failing.now; calls = 0; faults = 0 }) }
    {
        let bytes = match Vec::with_capacity(alloc, room) {
            Ok(bytes) => bytes,
            Err(_) => return Err(OutOfMemory),
        };
        Ok(MemorySink {
            bytes,
            room,
            per_call,
            failing: copy_of(alloc, failing)?,
            calls: 0,
            faults: 0,
        })
    }

    /// What was written so far.
    pub fn bytes(&self) -> &[u8]
        ensures { result.now ≡ self.now.written }
    {
        self.bytes.as_slice()
    }
}

impl Sink for MemorySink {
    ghost written = { λ s. Some s.written };

    ghost faults = { λ s. s.faults };

    /// Fails at the listed calls, and if there is no room for a byte of the piece; otherwise takes as many bytes as it
    /// may.
    fn write(&mut self, piece: &[u8]) -> Result<usize, Failed>
        ensures bound { WritesAtMost result piece.now }
        ensures progress { IfOk result (λ n. 0 < length piece.now → 0 < n) }
        ensures bytes { WriteAppends (Some self.old.written) (Some self.new.written) result piece.now }
        ensures cause { HasCause self.old.faults self.new.faults result }

        ensures failed { IsErr result
            ↔ (Contains self.old.failing (count_one_more self.old.calls) ⊎ ((0 < length piece.now) × (self.old.room ≡ 0))) }
        ensures count { IfOk result (λ n. n ≡ min (min (length piece.now) self.old.per_call) self.old.room) }
        ensures after { MatchResult result
            (λ n. self.new ≡ record self.old { written = self.old.written ++ take n piece.now; room = self.old.room - n; calls = count_one_more self.old.calls })
            (λ _. self.new ≡ record self.old { calls = count_one_more self.old.calls; faults = count_one_more self.old.faults }) }
    {
        self.calls = self.calls.saturating_add(1);
        if is_refused(&self.failing, self.calls, self.room, piece) {
            self.faults = self.faults.saturating_add(1);
            return Err(Failed);
        }
        let n = piece.len().min(self.per_call).min(self.room);
        match self.bytes.extend_from_slice(&piece[..n]) {
            Ok(()) => {}
            Err(_) => unreachable!(),
        }
        self.room -= n;
        Ok(n)
    }
}

/// Only counts the bytes that are written.
#[derive(Drop)]
pub struct CountSink {
    count: u64,
}

impl Model for CountSink {
    ghost use Rattle.std.specs.Prelude.{ℕ};

    ghost Value = { ℕ };

    ghost view = { λ s. s.count };
}

impl CountSink {
    /// A sink that has taken nothing.
    pub fn make() -> CountSink
        ensures { result ≡ 0 }
    {
        CountSink { count: 0 }
    }

    /// How many bytes it has taken, at most 2^64 - 1.
    pub fn count(&self) -> u64
        ensures { result ≡ self.now }
    {
        self.count
    }
}

impl Sink for CountSink {
    ghost written = { λ s. None };

    ghost faults = { λ s. 0 };

    fn write(&mut self, piece: &[u8]) -> Result<usize, Failed>
        ensures bound { WritesAtMost result piece.now }
        ensures progress { IfOk result (λ n. 0 < length piece.now → 0 < n) }
        ensures bytes { WriteAppends None None result piece.now }
        ensures cause { HasCause 0 0 result }

        ensures all { result ≡ Ok (length piece.now) }
        ensures count { self.new ≡ min (self.old + length piece.now) (2 ^ 64 - 1) }
    {
        self.count = self.count.saturating_add(piece.len() as u64);
        Ok(piece.len())
    }
}
