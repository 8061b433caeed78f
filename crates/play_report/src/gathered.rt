//! A sink that gathers pieces in memory, and hands on whole buffers.
ghost use Rattle.std.specs.Prelude.{◌≡◌, ◌<◌, ◌≤◌, [], IfOk, IfSome, MatchResult, drop, length, vec_capacity, vec_len};
ghost use Rattle.std.specs.Io.{StartsWith};
ghost use Rattle.std.specs.Io.KnownBytes.{Keeps, append_known};
ghost use Rattle.play_report.specs.Causes.{HasCause};

use crate::outside::{Failed, Sink};
use plain_heap::OutOfMemory;
use std::alloc::Global;
use std::marker::Model;

/// How many bytes are gathered before they are handed on.
pub const GATHERED: usize = 65_536;

#[tactic(auto, using(crate::proofs::Gathering::handed_turn))]
fn hand_on<K: Sink>(inner: &mut K, bytes: &[u8], at: &mut usize) -> Result<(), Failed>
    requires within { at.old ≤ length bytes.now }
    ensures between { at.new ≤ length bytes.now }
    ensures bytes { Keeps (append_known (K.written inner.old) (drop at.old bytes.now)) (append_known (K.written inner.new) (drop at.new bytes.now)) }
    ensures cause { HasCause (K.faults inner.old) (K.faults inner.new) result }
    ensures all { IfOk result (λ _. at.new ≡ length bytes.now) }
{
    while *at < bytes.len() {
        let (_, rest) = bytes.split_at(*at);
        let n = inner.write(rest)?;
        *at += n;
    }
    Ok(())
}

fn make_room<K: Sink>(
    inner: &mut K,
    gathered: &mut Vec<u8>,
    at: &mut usize,
    count: usize,
) -> Result<(), Failed>
    requires within { at.old ≤ length gathered.old.items }
    requires some { 0 < vec_capacity gathered.old }
    ensures between { at.new ≤ length gathered.new.items }
    ensures bytes { Keeps (append_known (K.written inner.old) (drop at.old gathered.old.items)) (append_known (K.written inner.new) (drop at.new gathered.new.items)) }
    ensures cause { HasCause (K.faults inner.old) (K.faults inner.new) result }
    ensures capacity { vec_capacity gathered.new ≡ vec_capacity gathered.old }
    ensures room { IfOk result (λ _. 0 < count → vec_len gathered.new < vec_capacity gathered.new) }
{
    if count > gathered.capacity() - gathered.len() {
        hand_on(inner, gathered.as_slice(), at)?;
        gathered.clear();
        *at = 0;
    }
    Ok(())
}

/// Gathers what is written, and hands it on when there are [`GATHERED`] bytes or a little more. Only a call that hands
/// on may fail: then it takes no byte of its piece, and what was gathered stays.
#[derive(Drop)]
pub struct GatheredSink<K: Sink + Drop> {
    inner: K,
    gathered: Vec<u8>,
    at: usize,
}

impl<K: Sink + Drop> Model for GatheredSink<K> {
    ghost use Rattle.std.specs.Prelude.{◌<◌, ◌≤◌, drop, length, vec_capacity};
    ghost use Rattle.std.specs.Io.KnownBytes.{append_known};
    ghost use Rattle.play_report.specs.Streams.{Gathering};

    ghost Value = { Gathering };

    ghost view = { λ s. record {
      bytes = append_known (K.written s.inner) (drop s.at s.gathered.items);
      handed = K.written s.inner;
      faults = K.faults s.inner;
    } };

    ghost invariant = { λ s. (s.at ≤ length s.gathered.items) × (0 < vec_capacity s.gathered) };
}

impl<K: Sink + Drop> GatheredSink<K> {
    /// Takes the memory; if there is none, gives the sink back.
    pub fn make(alloc: Global, inner: K) -> Result<GatheredSink<K>, (OutOfMemory, K)>
        ensures { MatchResult result (λ s. s ≡ record { bytes = append_known (K.written inner) []; handed = K.written inner; faults = K.faults inner }) (λ e. e.1 ≡ inner) }
    {
        match Vec::with_capacity(alloc, GATHERED) {
            Ok(gathered) => Ok(GatheredSink {
                inner,
                gathered,
                at: 0,
            }),
            Err(_) => Err((OutOfMemory, inner)),
        }
    }

    /// Hands on all that was gathered, and gives the sink back. If it fails, the sink has a prefix.
    pub fn finish(self) -> (Result<(), Failed>, K)
        ensures whole { IfOk result.0 (λ _. Keeps self.bytes (K.written result.1)) }
        ensures prefix { IfSome self.bytes (λ all. IfSome (K.written result.1) (λ handed. StartsWith all handed)) }
        ensures cause { HasCause self.faults (K.faults result.1) result.0 }
    {
        let GatheredSink {
            mut inner,
            gathered,
            mut at,
        } = self;
        let result = hand_on(&mut inner, gathered.as_slice(), &mut at);
        (result, inner)
    }

    /// Gives the sink back; what was not handed on is lost.
    pub fn abandon(self) -> K
        ensures handed { K.written result ≡ self.handed }
        ensures prefix { IfSome self.bytes (λ all. IfSome (K.written result) (λ handed. StartsWith all handed)) }
        ensures faults { K.faults result ≡ self.faults }
    {
        self.inner
    }
}

impl<K: Sink + Drop> Sink for GatheredSink<K> {
    ghost written = { λ s. s.bytes };

    ghost faults = { λ s. s.faults };

    fn write(&mut self, piece: &[u8]) -> Result<usize, Failed> {
        make_room(
            &mut self.inner,
            &mut self.gathered,
            &mut self.at,
            piece.len(),
        )?;
        let n = piece
            .len()
            .min(self.gathered.capacity() - self.gathered.len());
        match self.gathered.extend_from_slice(&piece[..n]) {
            Ok(()) => Ok(n),
            Err(_) => unreachable!(),
        }
    }
}
