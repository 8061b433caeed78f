ghost use Rattle.std.specs.Prelude.{◌≡◌, ◌<◌, ◌^◌, [], None, Err, List, ℕ, map, length, OnOk, OnErr};
ghost use Rattle.gc_script.specs.ScriptText.{words, lines};
ghost use Rattle.gc_script.specs.Statement.{Statement as Said, statement};
ghost use Rattle.gc_script.specs.Said.{said, capped};
ghost use Rattle.gc_script.specs.Context.{context_of, context_after, IsClear, IsSane};
ghost use Rattle.gc_script.specs.Kept.{context_shown};
ghost use Rattle.gc_script.specs.Content.{content_of, content_after, kept_shown};
ghost use Rattle.gc_script.specs.Reading.{BodyAnswers};

use crate::context::Context;
use crate::cutting::take_words;
use crate::found::Found;
use crate::kept::Kept;
use crate::script::ScriptError;
use crate::statement::{Statement, statement_of};
use std::alloc::Global;

/// What is kept of the lines so far.
#[derive(Drop)]
pub struct Progress<'a> {
    pub context: Context<'a>,
    pub kept: Kept<'a>,
}

fn first_context<'a>(alloc: Global, version: u32) -> Context<'a>
    ensures { context_shown result ≡ context_of version [] }
{
    let fields = if version == 1 { Some(4) } else { None };
    Context {
        version,
        line: 2,
        fields,
        section: None,
        warehouses: 0,
        seasons: 0,
        opened: None,
        names: Vec::new(alloc),
        catalogue: Vec::new(alloc),
    }
}

fn nothing_kept<'a>(alloc: Global) -> Kept<'a>
    ensures { (catalogue : List (List ℕ)) → kept_shown result ≡ content_of catalogue [] }
{
    Kept {
        catalogue: None,
        warehouses: Vec::new(alloc),
        ended: Vec::new(alloc),
        blocks: Vec::new(alloc),
        body: Vec::new(alloc),
    }
}

impl<'a> Progress<'a> {
    ghost use Rattle.gc_script.specs.Reading.{LineAnswers, FirstAnswers};
    ghost use Rattle.gc_script.specs.FirstLine.{first_line, after_line};
    ghost use Rattle.gc_script.specs.Found.{AreFound};

    fn take(
        &mut self,
        alloc: Global,
        statement: &Statement<'a>,
        found: Found,
    ) -> Result<(), ScriptError>
        requires line { self.old.context.line < 2 ^ 31 }
        requires places { AreFound (context_shown self.old.context) (said statement.now) found }
        requires clear { IsClear (context_shown self.old.context) (said statement.now) }
        requires sane { IsSane (context_shown self.old.context) }
        ensures context { OnOk result (context_shown self.new.context ≡ context_after (context_shown self.old.context) (said statement.now)) }
        ensures kept { OnOk result (kept_shown self.new.kept ≡ content_after (context_shown self.old.context) (kept_shown self.old.kept) (said statement.now)) }
        ensures err { OnErr result (result ≡ Err ScriptError.OutOfMemory) }
    {
        match self.kept.take(alloc, &self.context, statement, found) {
            Ok(()) => {}
            Err(_) => return Err(ScriptError::OutOfMemory),
        }
        match self.context.advance(alloc, statement, found) {
            Ok(()) => Ok(()),
            Err(_) => Err(ScriptError::OutOfMemory),
        }
    }

    fn follow(&mut self, alloc: Global, statement: &Statement<'a>) -> Result<(), ScriptError>
        requires line { self.old.context.line < 2 ^ 31 }
        requires sane { IsSane (context_shown self.old.context) }
        ensures { (s : Said) → said statement.now ≡ capped s → LineAnswers result (context_shown self.old.context) (kept_shown self.old.kept) s self.new }
    {
        let found = self.context.find(statement);
        match self.context.fault(statement, found) {
            Some(e) => Err(e),
            None => self.take(alloc, statement, found),
        }
    }

    /// Reads the first line of a text, and gives what follows it.
    fn read_line(
        &mut self,
        alloc: Global,
        pieces: &mut Vec<&'a str>,
        text: &'a str,
    ) -> Result<&'a str, ScriptError>
        requires line { self.old.context.line < 2 ^ 31 }
        requires sane { IsSane (context_shown self.old.context) }
        ensures { FirstAnswers result (context_shown self.old.context) (kept_shown self.old.kept) (statement (words (first_line text.now))) self.new (after_line text.now) }
    {
        match take_words(pieces, text) {
            Err(_) => Err(ScriptError::OutOfMemory),
            Ok(rest) => match self.follow(alloc, &statement_of(pieces.as_slice())) {
                Ok(()) => Ok(rest),
                Err(e) => Err(e),
            },
        }
    }
}

fn first_progress<'a>(alloc: Global, version: u32) -> Progress<'a>
    ensures context { context_shown result.context ≡ context_of version [] }
    ensures kept { (catalogue : List (List ℕ)) → kept_shown result.kept ≡ content_of catalogue [] }
{
    Progress {
        context: first_context(alloc, version),
        kept: nothing_kept(alloc),
    }
}

/// Reads the lines after the header, up to their first fault.
pub fn read_lines<'a>(
    alloc: Global,
    version: u32,
    text: &'a str,
) -> Result<Progress<'a>, ScriptError>
    requires { length text.now < 2 ^ 21 }
    ensures { BodyAnswers result version (map statement (map words (lines text.now))) }
{
    let mut progress = first_progress(alloc, version);
    let mut pieces = Vec::new(alloc);
    let mut rest = text;
    'lines: while !rest.is_empty() {
        match progress.read_line(alloc, &mut pieces, rest) {
            Ok(left) => rest = left,
            Err(e) => return Err(e),
        }
    }
    Ok(progress)
}
