ghost use Rattle.std.specs.Prelude.{◌≡◌, ◌++◌, ◌∷◌, [], OnOk};
ghost use Rattle.gc_script.specs.Said.{said};
ghost use Rattle.gc_script.specs.Context.{IsClear, IsSane};
ghost use Rattle.gc_script.specs.Kept.{context_shown};
ghost use Rattle.gc_script.specs.Shown.{execution_of};

use crate::block::{Block, Part};
use crate::command::Command;
use crate::context::Context;
use crate::found::Found;
use crate::statement::Statement;
use plain_heap::OutOfMemory;
use std::alloc::Global;
use std::mem;

/// The closed sections, the ended parts of the open one, and of its open part the blocks and the commands since.
#[derive(Drop)]
pub struct Kept<'a> {
    pub catalogue: Option<Vec<Part<'a>>>,
    pub warehouses: Vec<Vec<Part<'a>>>,
    pub ended: Vec<Part<'a>>,
    pub blocks: Vec<Block<'a>>,
    pub body: Vec<Command<'a>>,
}

impl<'a> Kept<'a> {
    ghost use Rattle.gc_script.specs.Content.{kept_shown, settle, end_part, close, content_after};

    fn push(&mut self, command: Command<'a>) -> Result<(), OutOfMemory>
        ensures { OnOk result (kept_shown self.new ≡ record (kept_shown self.old) { pending = (kept_shown self.old).pending ++ execution_of command.entry ∷ [] }) }
    {
        match self.body.push(command) {
            Ok(()) => Ok(()),
            Err(_) => Err(OutOfMemory),
        }
    }

    /// Ends a block of commands that are executed so often; one that executes nothing is left out.
    fn settle(&mut self, alloc: Global, times: u32) -> Result<(), OutOfMemory>
        ensures { OnOk result (kept_shown self.new ≡ settle times (kept_shown self.old)) }
    {
        let body = mem::replace(&mut self.body, Vec::new(alloc));
        if times == 0 {
            return Ok(());
        }
        if body.is_empty() {
            return Ok(());
        }
        match self.blocks.push(Block { times, body }) {
            Ok(()) => Ok(()),
            Err(_) => Err(OutOfMemory),
        }
    }

    fn end_part(&mut self, alloc: Global) -> Result<(), OutOfMemory>
        ensures { OnOk result (kept_shown self.new ≡ end_part (kept_shown self.old)) }
    {
        match self.settle(alloc, 1) {
            Ok(()) => {}
            Err(e) => return Err(e),
        }
        let blocks = mem::replace(&mut self.blocks, Vec::new(alloc));
        match self.ended.push(Part { blocks }) {
            Ok(()) => Ok(()),
            Err(_) => Err(OutOfMemory),
        }
    }

    fn close(&mut self, alloc: Global, section: Option<u32>) -> Result<(), OutOfMemory>
        ensures { OnOk result (kept_shown self.new ≡ close section (kept_shown self.old)) }
    {
        let parts = mem::replace(&mut self.ended, Vec::new(alloc));
        match section {
            None => Ok(()),
            Some(0) => {
                self.catalogue = Some(parts);
                Ok(())
            }
            Some(_) => match self.warehouses.push(parts) {
                Ok(()) => Ok(()),
                Err(_) => Err(OutOfMemory),
            },
        }
    }

    /// Ends the open section.
    pub fn end_section(&mut self, alloc: Global, section: Option<u32>) -> Result<(), OutOfMemory>
        ensures { OnOk result (kept_shown self.new ≡ close section (end_part (kept_shown self.old))) }
    {
        match self.end_part(alloc) {
            Ok(()) => self.close(alloc, section),
            Err(e) => Err(e),
        }
    }
}

/// The commands of a part are kept as they are written: a `repeat` is not unrolled.
impl<'a> Kept<'a> {
    ghost use Rattle.gc_script.specs.Found.{AreFound};
    ghost use Rattle.gc_script.specs.Script.{repetitions};
    ghost use Rattle.gc_script.specs.Content.{kept_shown, settle, end_part, close, content_after};

    /// What is kept after a line without a fault.
    pub fn take(
        &mut self,
        alloc: Global,
        context: &Context<'a>,
        statement: &Statement<'a>,
        found: Found,
    ) -> Result<(), OutOfMemory>
        requires places { AreFound (context_shown context.now) (said statement.now) found }
        requires clear { IsClear (context_shown context.now) (said statement.now) }
        requires sane { IsSane (context_shown context.now) }
        ensures { OnOk result (kept_shown self.new ≡ content_after (context_shown context.now) (kept_shown self.old) (said statement.now)) }
    {
        match statement {
            Statement::Warehouse => self.end_section(alloc, context.section),
            Statement::Season => self.end_part(alloc),
            Statement::Repeat(_) => self.settle(alloc, 1),
            Statement::End => self.settle(alloc, context.repetitions()),
            Statement::Command(spoken) => self.push(context.command(spoken, found)),
            _ => Ok(()),
        }
    }
}
