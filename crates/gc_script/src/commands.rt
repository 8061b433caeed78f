ghost use Rattle.std.specs.Prelude.{◌≡◌, ◌<◌, ◌∷◌, [], map, IsTrue, IsFalse, MatchOption};
ghost use Rattle.std.specs.Iterator.{YieldsFirstBy, item_count};
ghost use Rattle.plain_heap.specs.Sections.{joined};
ghost use Rattle.gc_script.specs.Shown.{execution_of};
ghost use Rattle.gc_script.specs.Blocks.{blocks_shown, part_shown};

use crate::block::{Block, Part};
use crate::command::Command;
use std::marker::Model;

/// What is left: commands, then their block this many times again, then blocks, then parts.
#[derive(Clone, Copy)]
pub struct Cursor<'s, 'a> {
    pub rest: &'s [Command<'a>],
    pub again: u32,
    pub body: &'s [Command<'a>],
    pub blocks: &'s [Block<'a>],
    pub parts: &'s [Part<'a>],
}

impl<'s, 'a> Cursor<'s, 'a> {
    ghost use Rattle.gc_script.specs.Cursor.{commands_left, steps_left};

    /// Goes to the next block. Out of line, so that a step stays short.
    #[inline(never)]
    fn turn(&mut self) -> bool
        requires { self.old.rest.now ≡ [] }
        ensures same { IsTrue result → commands_left self.new ≡ commands_left self.old }
        ensures fewer { IsTrue result → steps_left self.new < steps_left self.old }
        ensures over { IsFalse result → commands_left self.old ≡ [] }
        ensures stays { IsFalse result → self.new ≡ self.old }
    {
        if self.again > 0 {
            self.again -= 1;
            self.rest = self.body;
            return true;
        }
        if let [block, blocks @ ..] = self.blocks {
            self.again = block.times;
            self.body = block.body.as_slice();
            self.blocks = blocks;
            return true;
        }
        if let [part, parts @ ..] = self.parts {
            self.blocks = part.blocks.as_slice();
            self.parts = parts;
            return true;
        }
        false
    }

    fn step(&mut self) -> Option<&'s Command<'a>>
        ensures { MatchOption result ((commands_left self.old ≡ []) × (commands_left self.new ≡ [])) (λ c. commands_left self.old ≡ execution_of c.now ∷ commands_left self.new) }
    {
        loop {
            if let [command, rest @ ..] = self.rest {
                self.rest = rest;
                return Some(command);
            }
            if !self.turn() {
                return None;
            }
        }
    }
}

/// The executed commands that are left, in order. Each step takes the same time, and none takes memory.
#[derive(Drop)]
pub struct Commands<'s, 'a> {
    cursor: Cursor<'s, 'a>,
}

impl<'s, 'a> Model for Commands<'s, 'a> {
    ghost use Rattle.std.specs.Prelude.{List};
    ghost use Rattle.plain_heap.specs.Sections.{Execution};

    ghost Value = { List Execution };

    ghost use Rattle.gc_script.specs.Cursor.{commands_left};

    ghost view = { λ s. commands_left s.cursor };
}

impl<'s, 'a> Commands<'s, 'a> {
    /// The commands, each lent where it stands: none is copied.
    pub fn lent(self) -> Lent<'s, 'a>
        ensures { result ≡ self.entry }
    {
        Lent {
            cursor: self.cursor,
        }
    }

    pub(crate) fn of_parts(parts: &'s [Part<'a>]) -> Commands<'s, 'a>
        ensures { result ≡ joined (map part_shown parts.now) }
    {
        Commands {
            cursor: Cursor {
                rest: &[],
                again: 0,
                body: &[],
                blocks: &[],
                parts,
            },
        }
    }

    pub(crate) fn none() -> Commands<'s, 'a>
        ensures { result ≡ [] }
    {
        Commands {
            cursor: Cursor {
                rest: &[],
                again: 0,
                body: &[],
                blocks: &[],
                parts: &[],
            },
        }
    }

    pub(crate) fn of_blocks(blocks: &'s [Block<'a>]) -> Commands<'s, 'a>
        ensures { result ≡ blocks_shown blocks.now }
    {
        Commands {
            cursor: Cursor {
                rest: &[],
                again: 0,
                body: &[],
                blocks,
                parts: &[],
            },
        }
    }
}

impl<'s, 'a> Iterator for Commands<'s, 'a> {
    type Item = Command<'a>;

    ghost next_gives = { YieldsFirstBy execution_of (λ s. s) };

    ghost remaining = { item_count (λ s. s) };

    fn next(&mut self) -> Option<Command<'a>> {
        self.cursor.step().copied()
    }
}

/// The commands of a section, each lent from the script.
#[derive(Drop)]
pub struct Lent<'s, 'a> {
    cursor: Cursor<'s, 'a>,
}

impl<'s, 'a> Model for Lent<'s, 'a> {
    ghost use Rattle.std.specs.Prelude.{List};
    ghost use Rattle.plain_heap.specs.Sections.{Execution};

    ghost Value = { List Execution };

    ghost use Rattle.gc_script.specs.Cursor.{commands_left};

    ghost view = { λ s. commands_left s.cursor };
}

impl<'s, 'a> Iterator for Lent<'s, 'a> {
    type Item = &'s Command<'a>;

    ghost next_gives = { YieldsFirstBy (λ c. execution_of c.now) (λ s. s) };

    ghost remaining = { item_count (λ s. s) };

    fn next(&mut self) -> Option<&'s Command<'a>> {
        self.cursor.step()
    }
}
