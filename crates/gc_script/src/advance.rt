ghost use Rattle.std.specs.Prelude.{◌≡◌, ◌<◌, ◌≤◌, ◌^◌, ◌+◌, Some, OnOk, unwrap_or};
ghost use Rattle.plain_heap.specs.PlainStep.{IsInRange};
ghost use Rattle.gc_script.specs.Statement.{Warehouse, Command as Ordered};
ghost use Rattle.gc_script.specs.Script.{label_of, repetitions};
ghost use Rattle.gc_script.specs.Earlier.{place, with_name};
ghost use Rattle.gc_script.specs.Said.{said, said_command};
ghost use Rattle.gc_script.specs.Context.{IsClear, IsSane, closing, in_section, context_after, operation_in, execution_in};
ghost use Rattle.gc_script.specs.Kept.{context_shown};
ghost use Rattle.gc_script.specs.Shown.{execution_of};

use crate::command::Command;
use crate::context::{Context, Opened, assigned};
use crate::found::Found;
use crate::label::Label;
use crate::statement::{Spoken, Statement};
use plain_heap::{Op, OutOfMemory};
use std::alloc::Global;
use std::mem;

impl<'a> Context<'a> {
    ghost use Rattle.gc_script.specs.Found.{ArePlaces, AreFound};

    /// A name of the section has a number from now on.
    fn name(&mut self, v: &'a str, at: u8) -> Result<(), OutOfMemory>
        requires { at ≡ place (context_shown self.old).names v.now }
        ensures { OnOk result (context_shown self.new ≡ record (context_shown self.old) { names = with_name (Some v.now) (context_shown self.old).names }) }
    {
        if usize::from(at) < self.names.len() {
            Ok(())
        } else {
            match self.names.push(v) {
                Ok(()) => Ok(()),
                Err(_) => Err(OutOfMemory),
            }
        }
    }

    fn begin_section(&mut self, alloc: Global, number: u32)
        requires { self.old.line < 2 ^ 31 }
        ensures { context_shown self.new ≡ in_section (context_shown self.old) number }
    {
        self.line += 1;
        self.section = Some(number);
        self.seasons = 0;
        self.opened = None;
        self.names = Vec::new(alloc);
    }

    fn close_catalogue(&mut self, alloc: Global)
        ensures { context_shown self.new ≡ record (context_shown self.old) { names = (context_shown self.new).names; catalogue = closing (context_shown self.old).section (context_shown self.old).names (context_shown self.old).catalogue } }
    {
        if let Some(0) = self.section {
            self.catalogue = mem::replace(&mut self.names, Vec::new(alloc));
        }
    }

    fn begin_warehouse(&mut self, alloc: Global)
        requires line { self.old.line < 2 ^ 31 }
        requires few { self.old.warehouses ≤ 32 }
        ensures { context_shown self.new ≡ context_after (context_shown self.old) Warehouse }
    {
        self.close_catalogue(alloc);
        self.warehouses += 1;
        self.begin_section(alloc, self.warehouses);
    }

    fn follow(&mut self, spoken: &Spoken<'a>, found: Found) -> Result<(), OutOfMemory>
        requires line { self.old.line < 2 ^ 31 }
        requires places { ArePlaces (context_shown self.old) (said_command spoken.now) found }
        ensures { OnOk result (context_shown self.new ≡ context_after (context_shown self.old) (Ordered (said_command spoken.now))) }
    {
        self.line += 1;
        match assigned(spoken) {
            None => Ok(()),
            Some(v) => self.name(v, found.v),
        }
    }

    /// The context after a line.
    pub fn advance(
        &mut self,
        alloc: Global,
        statement: &Statement<'a>,
        found: Found,
    ) -> Result<(), OutOfMemory>
        requires line { self.old.line < 2 ^ 31 }
        requires places { AreFound (context_shown self.old) (said statement.now) found }
        requires clear { IsClear (context_shown self.old) (said statement.now) }
        requires sane { IsSane (context_shown self.old) }
        ensures { OnOk result (context_shown self.new ≡ context_after (context_shown self.old) (said statement.now)) }
    {
        match statement {
            Statement::Blank => self.line += 1,
            Statement::Wrong => self.line += 1,
            Statement::Fields(n) => {
                self.line += 1;
                self.fields = Some(*n as u8);
            }
            Statement::Catalogue => self.begin_section(alloc, 0),
            Statement::Warehouse => self.begin_warehouse(alloc),
            Statement::Season => {
                self.line += 1;
                self.seasons += 1;
            }
            Statement::Repeat(n) => {
                self.opened = Some(Opened {
                    line: self.line,
                    times: *n as u32,
                });
                self.line += 1;
            }
            Statement::End => {
                self.line += 1;
                self.opened = None;
            }
            Statement::Command(spoken) => return self.follow(spoken, found),
        }
        Ok(())
    }

    fn operation(&self, spoken: &Spoken, found: Found) -> Op
        requires places { ArePlaces (context_shown self.now) (said_command spoken.now) found }
        requires range { IsInRange (unwrap_or (context_shown self.now).fields 0) (operation_in (context_shown self.now) (said_command spoken.now)) }
        requires sane { IsSane (context_shown self.now) }
        ensures { result ≡ operation_in (context_shown self.now) (said_command spoken.now) }
    {
        let Found { v, w } = found;
        match spoken {
            Spoken::New { v: _, n } => Op::New { v, n: *n as u32 },
            Spoken::Let { v: _, w: _ } => Op::Let { v, w },
            Spoken::Nil { v: _ } => Op::Nil { v },
            Spoken::Set { v: _, i, w: _ } => Op::Set { v, i: *i as u8, w },
            Spoken::Get { v: _, w: _, i } => Op::Get { v, w, i: *i as u8 },
            Spoken::Cat { v: _, name: _ } => Op::Cat { v, c: w },
            Spoken::Put { v: _, n } => Op::Put { v, n: *n as u32 },
            Spoken::Say { label: _, v: _ } => Op::Say { v },
            Spoken::Sum {
                label: _,
                v: _,
                i,
                limit,
            } => Op::Sum {
                v,
                i: *i as u8,
                limit: *limit as u32,
            },
            Spoken::Collect => Op::Collect,
        }
    }

    /// How often the commands since the open `repeat` are executed.
    pub fn repetitions(&self) -> u32
        ensures { result ≡ repetitions (context_shown self.now).opened }
    {
        match self.opened {
            None => 1,
            Some(opened) => opened.times,
        }
    }

    /// A command on the line.
    pub fn command(&self, spoken: &Spoken<'a>, found: Found) -> Command<'a>
        requires places { ArePlaces (context_shown self.now) (said_command spoken.now) found }
        requires range { IsInRange (unwrap_or (context_shown self.now).fields 0) (operation_in (context_shown self.now) (said_command spoken.now)) }
        requires sane { IsSane (context_shown self.now) }
        ensures { execution_of result ≡ execution_in (context_shown self.now) (said_command spoken.now) }
    {
        let label = label_of(spoken);
        Command {
            line: self.line,
            label: label.text,
            op: self.operation(spoken, found),
        }
    }
}

fn label_of<'a>(spoken: &Spoken<'a>) -> Label<'a>
    ensures { result.text.now ≡ label_of (said_command spoken.now) }
{
    match spoken {
        Spoken::Say { label, v: _ } => *label,
        Spoken::Sum {
            label,
            v: _,
            i: _,
            limit: _,
        } => *label,
        _ => Label { text: "" },
    }
}
