ghost use Rattle.std.specs.Prelude.{◌≡◌, ◌≤◌, ◌-◌, [], map, length, slice_index_or};
ghost use Rattle.std.specs.List.{All};
ghost use Rattle.plain_heap.specs.PlainStep.{IsInRange};
ghost use Rattle.plain_heap.specs.Sections.{joined, made_by, printed_by};
ghost use Rattle.gc_script.specs.Blocks.{part_shown};

use crate::block::{Kind, Part, count_in_parts};
use crate::commands::Commands;
use std::marker::Model;

/// A section: its parts, one for each season, and how many commands they execute.
#[derive(Drop)]
pub struct Section<'a> {
    number: u32,
    fields: u32,
    parts: Vec<Part<'a>>,
    executed: u64,
    made: u32,
    printed: u32,
}

impl<'a> Model for Section<'a> {
    ghost use Rattle.plain_heap.specs.Sections.{Parts};

    ghost Value = { Parts };

    ghost use Rattle.std.specs.Prelude.{map};
    ghost use Rattle.gc_script.specs.Blocks.{part_shown};
    ghost use Rattle.gc_script.specs.Sectioned.{IsCounted};

    ghost view = { λ s. record { number = s.number; fields = s.fields; parts = map part_shown s.parts.items } };

    ghost invariant = { λ s. IsCounted s.fields (map part_shown s.parts.items) s.executed s.made s.printed };
}

impl<'a> Section<'a> {
    ghost use Rattle.gc_script.specs.Sectioned.{IsSmall};

    pub(crate) fn make(number: u32, fields: u32, parts: Vec<Part<'a>>) -> Section<'a>
        requires { IsSmall fields (map part_shown parts.items) }
        ensures { result ≡ record { number = number; fields = fields; parts = map part_shown parts.entry.items } }
    {
        let executed = count_in_parts(Kind::All, parts.as_slice());
        let made = count_in_parts(Kind::Making, parts.as_slice());
        let printed = count_in_parts(Kind::Printing, parts.as_slice());
        Section {
            number,
            fields,
            parts,
            executed,
            made: made as u32,
            printed: printed as u32,
        }
    }

    /// 0 for the catalogue, and for a warehouse its place among the warehouses, from 1.
    pub fn number(&self) -> u32
        ensures { result ≡ self.now.number }
    {
        self.number
    }

    /// How many fields an object has.
    pub fn fields(&self) -> u32
        ensures { result ≡ self.now.fields }
    {
        self.fields
    }

    /// How many commands are executed.
    pub fn executed(&self) -> u64
        ensures { result ≡ length (joined self.now.parts) }
    {
        self.executed
    }

    /// How many objects are made.
    pub fn made(&self) -> u32
        ensures { result ≡ made_by (joined self.now.parts) }
    {
        self.made
    }

    /// How many lines are printed.
    pub fn printed(&self) -> u32
        ensures { result ≡ printed_by (joined self.now.parts) }
    {
        self.printed
    }

    /// How many parts there are.
    pub fn seasons(&self) -> u32
        ensures { result ≡ length self.now.parts }
    {
        self.parts.len() as u32
    }

    /// Lends each executed command in order.
    pub fn commands<'s>(&'s self) -> Commands<'s, 'a>
        ensures commands { result ≡ joined self.now.parts }
        ensures range { All (λ e. IsInRange self.now.fields e.op) (joined self.now.parts) }
        ensures few { length (joined self.now.parts) ≤ 2000000 }
    {
        Commands::of_parts(self.parts.as_slice())
    }

    /// Lends each executed command of a part, counted from 1; none past the last part.
    pub fn commands_of<'s>(&'s self, season: u32) -> Commands<'s, 'a>
        requires { 1 ≤ season }
        ensures commands { result ≡ slice_index_or self.now.parts (season - 1) [] }
        ensures range { All (λ e. IsInRange self.now.fields e.op) (slice_index_or self.now.parts (season - 1) []) }
        ensures few { length (slice_index_or self.now.parts (season - 1) []) ≤ 2000000 }
    {
        commands_at(self.parts.as_slice(), season as usize - 1)
    }
}

fn commands_at<'s, 'a>(parts: &'s [Part<'a>], at: usize) -> Commands<'s, 'a>
    ensures { result ≡ slice_index_or (map part_shown parts.now) at [] }
{
    if let Some(part) = parts.get(at) {
        return Commands::of_blocks(part.blocks.as_slice());
    }
    Commands::none()
}
