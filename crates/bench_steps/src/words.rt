use clap::{Arg, ArgAction, ArgMatches, Command};
use std::alloc::{AllocError, Global};

/// The words behind `table` and `operations`.
const WORK: [&str; 2] = ["work", "rounds"];

/// The words behind `cycles`.
const COLLECTIONS: [&str; 3] = ["content", "cells", "rounds"];

/// Works of typed steps.
#[derive(Clone, Copy, Drop)]
pub enum TableWork {
    /// A load.
    Load,
    /// A load of a word that is found by its number.
    Look,
    /// A store into such a word.
    Store,
    /// Two fetches: one from a counter is taken, and given back.
    Fetch,
    /// A heap is made, filled with cells, and closed.
    Make,
    /// A heap is made and closed.
    Open,
}

/// All of them.
pub const TABLE_WORKS: [TableWork; 6] = [
    TableWork::Load,
    TableWork::Look,
    TableWork::Store,
    TableWork::Fetch,
    TableWork::Make,
    TableWork::Open,
];

impl TableWork {
    /// The word that asks for it.
    pub fn name(&self) -> &'static str {
        match *self {
            TableWork::Load => "load",
            TableWork::Look => "look",
            TableWork::Store => "store",
            TableWork::Fetch => "fetch",
            TableWork::Make => "make",
            TableWork::Open => "open",
        }
    }
}

/// Works of a runtime's operations.
#[derive(Clone, Copy, Drop)]
pub enum OperationWork {
    /// A heap is made and closed.
    Open,
    /// A heap is made, filled with objects, and closed.
    Make,
    /// A store in a published object.
    Publish,
    /// A store in an object that isn't published.
    Hide,
    /// The same, with four references an object.
    Mesh,
    /// The same, and the objects are traced.
    Trace,
    /// A pass over cards that are clean.
    Look,
    /// A look whether anything is left to trace.
    Drain,
    /// The same, and a sweep of all blocks.
    Sweep,
}

/// All of them.
pub const OPERATION_WORKS: [OperationWork; 9] = [
    OperationWork::Open,
    OperationWork::Make,
    OperationWork::Publish,
    OperationWork::Hide,
    OperationWork::Mesh,
    OperationWork::Trace,
    OperationWork::Look,
    OperationWork::Drain,
    OperationWork::Sweep,
];

impl OperationWork {
    /// The word that asks for it.
    pub fn name(&self) -> &'static str {
        match *self {
            OperationWork::Open => "open",
            OperationWork::Make => "make",
            OperationWork::Publish => "publish",
            OperationWork::Hide => "hide",
            OperationWork::Mesh => "mesh",
            OperationWork::Trace => "trace",
            OperationWork::Look => "look",
            OperationWork::Drain => "drain",
            OperationWork::Sweep => "sweep",
        }
    }
}

/// What a heap holds when the world stops.
#[derive(Clone, Copy, Drop)]
pub enum Content {
    /// Nothing.
    Nothing,
    /// An object in each cell, all of which are reached.
    Live,
    /// An object in each cell, none of which is reached.
    Dead,
}

/// All of them.
pub const CONTENTS: [Content; 3] = [Content::Nothing, Content::Live, Content::Dead];

impl Content {
    /// The word that asks for it.
    pub fn name(&self) -> &'static str {
        match *self {
            Content::Nothing => "empty",
            Content::Live => "live",
            Content::Dead => "dead",
        }
    }
}

/// How large a heap is that is collected.
#[derive(Clone, Copy, Drop)]
pub enum Size {
    /// 64 cells: one block.
    Small,
    /// 65,536 cells.
    Large,
}

/// What is collected, and how many times.
#[derive(Clone, Copy, Drop)]
pub struct Collections {
    pub content: Content,
    pub size: Size,
    pub rounds: u64,
}

/// What is done, and how many times.
#[derive(Clone, Copy, Drop)]
pub enum Asked {
    Table(TableWork, u64),
    Operations(OperationWork, u64),
    Cycles(Collections),
}

fn table_work(name: &str) -> Option<TableWork> {
    for work in TABLE_WORKS {
        if work.name() == name {
            return Some(work);
        }
    }
    None
}

fn operation_work(name: &str) -> Option<OperationWork> {
    for work in OPERATION_WORKS {
        if work.name() == name {
            return Some(work);
        }
    }
    None
}

fn content_named(name: &str) -> Option<Content> {
    for content in CONTENTS {
        if content.name() == name {
            return Some(content);
        }
    }
    None
}

fn size_named(name: &str) -> Option<Size> {
    match name {
        "64" => Some(Size::Small),
        "65536" => Some(Size::Large),
        _ => None,
    }
}

/// So many words, each with a name.
fn program<'a>(alloc: Global, names: &[&'a str]) -> Result<Command<'a>, AllocError> {
    let mut program = Command::new(alloc, "bench_steps")
        .no_binary_name(true)
        .disable_help_flag(true);
    for name in names {
        let word = Arg::new(alloc, *name).required(true).action(ArgAction::Set);
        program = program.arg(word)?;
    }
    Ok(program)
}

fn matches_of<'a>(alloc: Global, words: &'a [String], names: &[&'a str]) -> Option<ArgMatches<'a>> {
    let program = program(alloc, names).ok()?;
    program.try_get_matches_from(words).ok()
}

fn rounds_of(matches: &ArgMatches<'_>) -> Option<u64> {
    matches.get_str("rounds")?.parse::<u64>().ok()
}

fn steps_by(alloc: Global, words: &[String]) -> Option<Asked> {
    let matches = matches_of(alloc, words, WORK.as_slice())?;
    let work = table_work(matches.get_str("work")?)?;
    Some(Asked::Table(work, rounds_of(&matches)?))
}

fn operations_by(alloc: Global, words: &[String]) -> Option<Asked> {
    let matches = matches_of(alloc, words, WORK.as_slice())?;
    let work = operation_work(matches.get_str("work")?)?;
    Some(Asked::Operations(work, rounds_of(&matches)?))
}

fn cycles_by(alloc: Global, words: &[String]) -> Option<Asked> {
    let matches = matches_of(alloc, words, COLLECTIONS.as_slice())?;
    Some(Asked::Cycles(Collections {
        content: content_named(matches.get_str("content")?)?,
        size: size_named(matches.get_str("cells")?)?,
        rounds: rounds_of(&matches)?,
    }))
}

/// What the words ask for. None if they ask for nothing, or memory ran out.
pub fn asked_by(alloc: Global, words: &[String]) -> Option<Asked> {
    let (kind, others) = words.split_first()?;
    match kind.as_str() {
        "table" => steps_by(alloc, others),
        "operations" => operations_by(alloc, others),
        "cycles" => cycles_by(alloc, others),
        _ => None,
    }
}
