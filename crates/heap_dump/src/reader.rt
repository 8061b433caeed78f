ghost use Rattle.std.specs.Prelude.{◌≡◌, ◌<◌, ◌≤◌, ◌+◌, ◌*◌, ◌++◌, ℕ, List, [], length, slice_index, IfOk, IsOkAnd, MatchOption, SomeIff};
ghost use Rattle.std.specs.Result.{result_err};
ghost use Rattle.heap_dump.specs.Final.{DumpedHeap, HasDump, object};
ghost use Rattle.heap_dump.specs.Spelling.{dump};
ghost use Rattle.heap_dump.specs.Reading.{heap_of_dump, first_dump_fault, object_in, record_bytes, numbers};

use crate::check::check_heap;
use crate::fault::DumpError;
use crate::frame::{Frame, frame_of};
use std::marker::Model;

/// A dump: its bytes, which tell a legal heap.
#[derive(Drop)]
pub struct Dump<'a> {
    frame: Frame<'a>,
}

impl<'a> Model for Dump<'a> {
    ghost use Rattle.std.specs.Prelude.{List, ℕ};
    ghost use Rattle.heap_dump.specs.Final.{HasDump};
    ghost use Rattle.heap_dump.specs.Reading.{heap_of_dump};

    ghost Value = { List ℕ };

    ghost view = { λ d. d.frame.bytes.now };

    ghost invariant = { λ d. HasDump (heap_of_dump d.frame.bytes.now) };
}

/// The part of a dump's bytes that tells one object.
#[derive(Drop)]
pub struct Record<'a> {
    bytes: &'a [u8],
    fields: u32,
}

impl<'a> Model for Record<'a> {
    ghost use Rattle.std.specs.Prelude.{◌≡◌, ◌≤◌, ◌+◌, ◌*◌, List, ℕ, length};

    ghost Value = { List ℕ };

    ghost view = { λ r. r.bytes.now };

    ghost invariant = { λ r. (length r.bytes.now ≡ 12 + 4 * r.fields) × (r.fields ≤ 16) };
}

/// The dump that the bytes are, or their first fault. Nothing is copied, and no memory is taken.
pub fn read_dump<'a>(bytes: &'a [u8]) -> Result<Dump<'a>, DumpError>
    // An error is the first fault of the bytes.
    ensures exact { result_err result ≡ first_dump_fault bytes.now }
    ensures found { IfOk result (λ d. (d ≡ bytes.now) × HasDump (heap_of_dump d) × (d ≡ dump (heap_of_dump d))) }
    ensures only { (h : DumpedHeap) → HasDump h → bytes.now ≡ dump h → IsOkAnd result (λ d. heap_of_dump d ≡ h) }
{
    match frame_of(bytes) {
        Ok(frame) => match check_heap(&frame) {
            Ok(()) => Ok(Dump { frame }),
            Err(e) => Err(e),
        },
        Err(e) => Err(e),
    }
}

impl<'a> Dump<'a> {
    /// How many fields each object has.
    #[tactic(auto, using(crate::proofs::Places::places))]
    pub fn fields(&self) -> u32
        ensures { result ≡ (heap_of_dump self.now).fields }
    {
        self.frame.fields
    }

    /// How many sections there are.
    #[tactic(auto, using(crate::proofs::Places::places))]
    pub fn sections(&self) -> u32
        ensures { result ≡ (heap_of_dump self.now).sections }
    {
        self.frame.sections
    }

    /// How many records there are.
    #[tactic(auto, using(crate::proofs::Places::places))]
    pub fn records(&self) -> u32
        ensures count { result ≡ length (heap_of_dump self.now).records }
        // What a dump tells is a legal heap.
        ensures legal { HasDump (heap_of_dump self.now) }
    {
        self.frame.records
    }

    /// Variable v of a section: 0 for nil, k + 1 for record k. None if there is no such section or variable (v is
    /// below 32).
    pub fn root(&self, section: u32, v: u32) -> Option<u32>
        ensures { SomeIff result ((section < (heap_of_dump self.now).sections) × (v < 32))
            (slice_index (heap_of_dump self.now).roots (32 * section + v)) }
    {
        if section < self.frame.sections && v < 32 {
            Some(self.frame.root(32 * section + v))
        } else {
            None
        }
    }

    /// Record k, if there is one.
    pub fn nth(&self, k: u32) -> Option<Record<'a>>
        ensures { MatchOption result (length (heap_of_dump self.now).records ≤ k) (λ r. (k < length (heap_of_dump self.now).records)
            × (r ≡ record_bytes (heap_of_dump self.now).fields (heap_of_dump self.now).sections self.now k)
            × (object_in r ≡ object (heap_of_dump self.now) k)) }
    {
        if k < self.frame.records {
            Some(Record {
                bytes: self.frame.record_bytes(k),
                fields: self.frame.fields,
            })
        } else {
            None
        }
    }
}

/// Number i of the bytes.
fn number_in(bytes: &[u8], i: usize) -> u32
    requires { 4 * i + 4 ≤ length bytes.now }
    ensures { result ≡ slice_index (numbers bytes.now) i }
{
    let at = 4 * i;
    u32::from_be_bytes([bytes[at], bytes[at + 1], bytes[at + 2], bytes[at + 3]])
}

impl<'a> Record<'a> {
    /// The object's section.
    pub fn section(&self) -> u32
        ensures { result ≡ (object_in self.now).section }
    {
        number_in(self.bytes, 0)
    }

    /// The object's number within its section.
    pub fn number(&self) -> u32
        ensures { result ≡ (object_in self.now).number }
    {
        number_in(self.bytes, 1)
    }

    /// The object's value.
    pub fn value(&self) -> u32
        ensures { result ≡ (object_in self.now).value }
    {
        number_in(self.bytes, 2)
    }

    /// Field i: 0 for nil, k + 1 for record k. None if the object has no such field.
    pub fn reference(&self, i: u32) -> Option<u32>
        ensures { SomeIff result (i < length (object_in self.now).refs) (slice_index (object_in self.now).refs i) }
    {
        if i < self.fields {
            Some(number_in(self.bytes, 3 + i as usize))
        } else {
            None
        }
    }

    /// The bytes of the record.
    pub fn bytes(&self) -> &'a [u8]
        ensures { result.now ≡ self.now }
    {
        self.bytes
    }
}

/// No dump begins another, and two legal heaps have two dumps.
#[tactic(auto, using(crate::proofs::ReadBack::one_dump))]
pub fn one_dump()
    ensures { (g h : DumpedHeap) (rest : List ℕ) → HasDump g → HasDump h → dump g ++ rest ≡ dump h → (rest ≡ []) × (g ≡ h) }
{}
