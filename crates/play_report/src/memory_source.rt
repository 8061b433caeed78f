//! Sources in memory.
ghost use Rattle.std.specs.Prelude.{◌≡◌, ◌<◌, ◌≤◌, ◌+◌, ◌++◌, [], ◌↔◌, Some, IfOk, IsErr, MatchResult, IsTrue, Contains, drop, take, min, length};
ghost use Rattle.std.specs.Io.{ReadsAtMost};
ghost use Rattle.std.specs.Io.KnownBytes.{ReadConsumes};
ghost use Rattle.play_report.specs.Causes.{HasCause};
ghost use Rattle.play_report.specs.Streams.{count_one_more};

use crate::outside::{Failed, Source};
use plain_heap::OutOfMemory;
use std::alloc::Global;
use std::marker::Model;

/// A copy of a list; refused only if there is no memory.
pub fn copy_of<T: Copy>(alloc: Global, items: &[T]) -> Result<Vec<T>, OutOfMemory>
    ensures { IfOk result (λ v. v.items ≡ items.now) }
{
    match Vec::from_slice(alloc, items) {
        Ok(copy) => Ok(copy),
        Err(_) => Err(OutOfMemory),
    }
}

/// Whether the call of this number is to fail.
pub fn is_listed(failing: &[u32], call: u64) -> bool
    ensures { IsTrue result ↔ Contains failing.now call }
{
    failing.iter().any(|&listed| u64::from(listed) == call)
}

fn take_next(bytes: &[u8], at: usize, buf: &mut [u8], most: usize) -> usize
    requires within { at ≤ length bytes.now }
    requires some { 0 < most }
    ensures count { result ≡ min (min (length (drop at bytes.now)) (length buf.old)) most }
    ensures bytes { drop at bytes.now ≡ take result buf.new ++ drop (at + result) bytes.now }
    ensures end { result ≡ 0 → 0 < length buf.new → drop (at + result) bytes.now ≡ [] }
{
    let (_, rest) = bytes.split_at(at);
    let n = rest.len().min(buf.len()).min(most);
    buf[..n].copy_from_slice(&rest[..n]);
    n
}

/// Some bytes in memory: a call gives at most `per_call` of them, and the listed calls fail.
#[derive(Drop)]
pub struct MemorySource {
    bytes: Vec<u8>,
    at: usize,
    per_call: usize,
    failing: Vec<u32>,
    calls: u64,
    faults: u64,
}

impl Model for MemorySource {
    ghost use Rattle.std.specs.Prelude.{◌≤◌, ◌<◌, length, drop};
    ghost use Rattle.play_report.specs.Streams.{Supply};

    ghost Value = { Supply };

    ghost view = { λ s. record {
      left = drop s.at s.bytes.items;
      per_call = s.per_call;
      failing = s.failing.items;
      calls = s.calls;
      faults = s.faults;
    } };

    ghost invariant = { λ s. (s.at ≤ length s.bytes.items) × (0 < s.per_call) };
}

impl MemorySource {
    /// A source of these bytes. `failing` lists the calls that fail, counted from 1.
    pub fn make(
        alloc: Global,
        bytes: &[u8],
        per_call: usize,
        failing: &[u32],
    ) -> Result<MemorySource, OutOfMemory>
        requires { 0 < per_call }
        ensures { IfOk result
            (λ s. s ≡ record { left = bytes.now; per_call = per_call; failing = failing.now; calls = 0; faults = 0 }) }
    {
        Ok(MemorySource {
            bytes: copy_of(alloc, bytes)?,
            at: 0,
            per_call,
            failing: copy_of(alloc, failing)?,
            calls: 0,
            faults: 0,
        })
    }
}

impl Source for MemorySource {
    ghost left = { λ s. Some s.left };

    ghost faults = { λ s. s.faults };

    /// Fails at the listed calls; otherwise gives as many of the next bytes as it may.
    fn read(&mut self, buf: &mut [u8]) -> Result<usize, Failed>
        ensures bound { ReadsAtMost result buf.new }
        ensures bytes { ReadConsumes (Some self.old.left) (Some self.new.left) result buf.new }
        ensures cause { HasCause self.old.faults self.new.faults result }

        ensures listed { IsErr result ↔ Contains self.old.failing (count_one_more self.old.calls) }
        ensures count { IfOk result (λ n. n ≡ min (min (length self.old.left) (length buf.old)) self.old.per_call) }
        ensures after { MatchResult result
            (λ n. self.new ≡ record self.old { left = drop n self.old.left; calls = count_one_more self.old.calls })
            (λ _. self.new ≡ record self.old { calls = count_one_more self.old.calls; faults = count_one_more self.old.faults }) }
    {
        self.calls = self.calls.saturating_add(1);
        if is_listed(&self.failing, self.calls) {
            self.faults = self.faults.saturating_add(1);
            return Err(Failed);
        }
        let n = take_next(&self.bytes, self.at, buf, self.per_call);
        self.at += n;
        Ok(n)
    }
}

/// Some bytes in memory, of which no read fails.
#[derive(Drop)]
pub struct SureSource {
    bytes: Vec<u8>,
    at: usize,
}

impl Model for SureSource {
    ghost use Rattle.std.specs.Prelude.{List, ℕ, ◌≤◌, length, drop};

    ghost Value = { List ℕ };

    ghost view = { λ s. drop s.at s.bytes.items };

    ghost invariant = { λ s. s.at ≤ length s.bytes.items };
}

impl SureSource {
    /// A source of these bytes; refused only if there is no memory.
    pub fn make(alloc: Global, bytes: &[u8]) -> Result<SureSource, OutOfMemory>
        ensures { IfOk result (λ s. s ≡ bytes.now) }
    {
        Ok(SureSource {
            bytes: copy_of(alloc, bytes)?,
            at: 0,
        })
    }
}

impl Source for SureSource {
    ghost left = { λ s. Some s };

    ghost faults = { λ s. 0 };

    /// Gives as many of the next bytes as have room.
    fn read(&mut self, buf: &mut [u8]) -> Result<usize, Failed>
        ensures bound { ReadsAtMost result buf.new }
        ensures bytes { ReadConsumes (Some self.old) (Some self.new) result buf.new }
        ensures cause { HasCause 0 0 result }

        ensures count { result ≡ Ok (min (length self.old) (length buf.old)) }
        ensures after { self.new ≡ drop (min (length self.old) (length buf.old)) self.old }
    {
        let n = take_next(&self.bytes, self.at, buf, usize::MAX);
        self.at += n;
        Ok(n)
    }
}
