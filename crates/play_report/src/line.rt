//! One line of text, on the stack.
ghost use Rattle.std.specs.Prelude.{◌≡◌, ◌≤◌, ◌+◌, ◌++◌, [], length, decimal};
ghost use Rattle.play_report.specs.Causes.{WritesTo};
ghost use Rattle.play_report.specs.Text.{named_text, pair_text, triple_text};

use crate::outside::{Failed, Sink, write_all};
use itoa::Buffer;
use std::marker::Model;

// The longest line: a label of 32 bytes, a count and a total, with two spaces and LF.
const LONGEST: usize = 96;

/// A line that is being built, of at most 96 bytes.
#[derive(Drop)]
pub struct TextLine {
    bytes: [u8; LONGEST],
    len: usize,
}

impl Model for TextLine {
    ghost use Rattle.std.specs.Prelude.{List, ℕ, take, ◌≤◌};

    ghost Value = { List ℕ };

    ghost view = { λ l. take l.len l.bytes };

    ghost invariant = { λ l. l.len ≤ 96 };
}

impl TextLine {
    /// An empty line.
    pub fn new() -> TextLine
        ensures { result ≡ [] }
    {
        TextLine {
            bytes: [0; LONGEST],
            len: 0,
        }
    }

    /// Appends a text for which there is room.
    pub fn push(&mut self, text: &str)
        requires { length self.old + length text.now ≤ 96 }
        ensures { self.new ≡ self.old ++ text.now }
    {
        let bytes = text.as_bytes();
        let end = self.len + bytes.len();
        self.bytes[self.len..end].copy_from_slice(bytes);
        self.len = end;
    }

    /// Appends a number in decimal, which takes at most 20 bytes.
    pub fn push_number(&mut self, n: u64)
        requires { length self.old ≤ 76 }
        ensures number { self.new ≡ self.old ++ decimal n }
        ensures short { length self.new ≤ length self.old + 20 }
    {
        let mut buffer = Buffer::new();
        self.push(buffer.format(n));
    }

    /// Hands the line to the sink as one piece.
    pub fn write<K: Sink>(&self, sink: &mut K) -> Result<(), Failed>
        ensures { WritesTo K.written K.faults result sink.old sink.new self.now }
    {
        write_all(sink, &self.bytes[..self.len])
    }
}

/// Writes a line: a word, its space included, and a number.
#[tactic(auto, unfolding(crate::specs::Text::named_text))]
pub fn write_named<K: Sink>(word: &str, n: u64, sink: &mut K) -> Result<(), Failed>
    requires { length word.now ≤ 32 }
    ensures { WritesTo K.written K.faults result sink.old sink.new (named_text word.now n) }
{
    let mut line = TextLine::new();
    line.push(word);
    line.push_number(n);
    line.push("\n");
    line.write(sink)
}

/// Writes a line: a word, its space included, and two numbers.
#[tactic(auto, unfolding(crate::specs::Text::pair_text))]
pub fn write_pair<K: Sink>(word: &str, a: u64, b: u64, sink: &mut K) -> Result<(), Failed>
    requires { length word.now ≤ 32 }
    ensures { WritesTo K.written K.faults result sink.old sink.new (pair_text word.now a b) }
{
    let mut line = TextLine::new();
    line.push(word);
    line.push_number(a);
    line.push(" ");
    line.push_number(b);
    line.push("\n");
    line.write(sink)
}

/// Writes a line of three numbers.
#[tactic(auto, unfolding(crate::specs::Text::triple_text))]
pub fn write_triple<K: Sink>(a: u64, b: u64, c: u64, sink: &mut K) -> Result<(), Failed>
    ensures { WritesTo K.written K.faults result sink.old sink.new (triple_text a b c) }
{
    let mut line = TextLine::new();
    line.push_number(a);
    line.push(" ");
    line.push_number(b);
    line.push(" ");
    line.push_number(c);
    line.push("\n");
    line.write(sink)
}
