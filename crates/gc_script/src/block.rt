ghost use Rattle.std.specs.Prelude.{◌≡◌, min, map, count_by};
ghost use Rattle.gc_script.specs.Shown.{execution_of};
ghost use Rattle.gc_script.specs.Blocks.{is_counted, counts, block_shown, blocks_shown, part_shown};
ghost use Rattle.plain_heap.specs.Sections.{joined, makes_object, prints_line};

use crate::command::Command;
use plain_heap::Op;

/// Commands that are executed one after the other, this many times.
#[derive(Drop)]
pub struct Block<'a> {
    pub times: u32,
    pub body: Vec<Command<'a>>,
}

/// What a section does in one season.
#[derive(Drop)]
pub struct Part<'a> {
    pub blocks: Vec<Block<'a>>,
}

/// Which commands are counted.
#[derive(Clone, Copy)]
pub enum Kind {
    All,
    Making,
    Printing,
}

fn is_counted(kind: Kind, op: Op) -> bool
    ensures { result ≡ is_counted kind op }
{
    match kind {
        Kind::All => true,
        Kind::Making => makes_object(op),
        Kind::Printing => prints_line(op),
    }
}

fn makes_object(op: Op) -> bool
    ensures { result ≡ makes_object op }
{
    match op {
        Op::New { v: _, n: _ } => true,
        _ => false,
    }
}

fn prints_line(op: Op) -> bool
    ensures { result ≡ prints_line op }
{
    match op {
        Op::Say { v: _ } => true,
        Op::Sum {
            v: _,
            i: _,
            limit: _,
        } => true,
        _ => false,
    }
}

fn count_in(kind: Kind, commands: &[Command<'_>]) -> u64
    ensures { result ≡ count_by (counts kind) (map execution_of commands.now) }
{
    let mut count = 0;
    for command in commands {
        if is_counted(kind, command.op) {
            count += 1;
        }
    }
    count
}

#[tactic(auto, using(crate::proofs::Sectioning::count_repeated))]
fn count_in_block(kind: Kind, block: &Block<'_>) -> u64
    ensures { result ≡ min (count_by (counts kind) (block_shown block.now)) u64.MAX }
{
    u64::from(block.times).saturating_mul(count_in(kind, block.body.as_slice()))
}

#[tactic(auto, using(crate::proofs::Sectioning::count_more))]
fn count_in_blocks(kind: Kind, blocks: &[Block<'_>]) -> u64
    ensures { result ≡ min (count_by (counts kind) (blocks_shown blocks.now)) u64.MAX }
{
    let mut count = 0u64;
    for block in blocks {
        count = count.saturating_add(count_in_block(kind, block));
    }
    count
}

/// How many commands of a kind are executed, at most the greatest number.
#[tactic(auto, using(crate::proofs::Sectioning::count_more, std::proofs::lemmas::List::take_all, crate::proofs::Sectioning::joined_map))]
pub fn count_in_parts(kind: Kind, parts: &[Part<'_>]) -> u64
    ensures { result ≡ min (count_by (counts kind) (joined (map part_shown parts.now))) u64.MAX }
{
    let mut count = 0u64;
    for part in parts {
        count = count.saturating_add(count_in_blocks(kind, part.blocks.as_slice()));
    }
    count
}
