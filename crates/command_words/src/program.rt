ghost use Rattle.std.specs.Prelude.{◌≡◌, IfOk, false};
ghost use Rattle.clap.specs.Words.{app_of, rule_of};
ghost use Rattle.command_words.specs.Building.{IsCommand, texts_of, with_commands};
ghost use Rattle.command_words.specs.Parsing.{asked_program, asked_rule, is_flag, is_required};

use clap::{Arg, ArgAction, Command};
use std::alloc::{AllocError, Global};

/// A command's name, and the names of its options.
#[derive(Clone, Copy)]
pub struct Form {
    pub name: &'static str,
    pub options: &'static [&'static str],
}

const COMMANDS: [Form; 9] = [
    Form {
        name: "run",
        options: &["place", "cells", "workers", "tracers", "packets", "entries"],
    },
    Form {
        name: "gen",
        options: &["number", "size"],
    },
    Form {
        name: "load",
        options: &[
            "number", "size", "cells", "workers", "tracers", "packets", "entries",
        ],
    },
    Form {
        name: "convert",
        options: &[],
    },
    Form {
        name: "schedule",
        options: &[],
    },
    Form {
        name: "dump",
        options: &["cells", "workers", "tracers", "packets", "entries"],
    },
    Form {
        name: "undump",
        options: &[],
    },
    Form {
        name: "census",
        options: &[],
    },
    Form {
        name: "batch",
        options: &[
            "runners", "cells", "workers", "tracers", "packets", "entries",
        ],
    },
];

fn is_flag(name: &str) -> bool
    ensures { result ≡ is_flag name.now }
{
    name == "place"
}

fn is_required(name: &str) -> bool
    ensures { result ≡ is_required name.now }
{
    name == "number" || name == "size"
}

fn option<'a>(alloc: Global, name: &'a str) -> Arg<'a>
    ensures rule { rule_of result ≡ asked_rule name.entry.now }
    ensures local { result.global ≡ false }
{
    let action = if is_flag(name) {
        ArgAction::SetTrue
    } else {
        ArgAction::Set
    };
    Arg::new(alloc, name)
        .long(name)
        .action(action)
        .required(is_required(name))
}

fn command<'a>(alloc: Global, name: &'a str, options: &[&'a str]) -> Result<Command<'a>, AllocError>
    ensures { IfOk result (IsCommand name.entry.now (texts_of options.entry.now)) }
{
    let mut command = Command::new(alloc, name);
    for name in options {
        command = command.arg(option(alloc, *name))?;
    }
    Ok(command)
}

fn with_commands<'a>(
    alloc: Global,
    mut program: Command<'a>,
    forms: &[Form],
) -> Result<Command<'a>, AllocError>
    ensures { IfOk result (λ r. app_of r ≡ with_commands (app_of program.entry) forms.now) }
{
    for form in forms {
        program = program.subcommand(command(alloc, form.name, form.options)?)?;
    }
    Ok(program)
}

/// The program: a command is required, and there is no help.
pub fn program<'a>(alloc: Global) -> Result<Command<'a>, AllocError>
    ensures { IfOk result (λ c. app_of c ≡ asked_program) }
{
    let program = Command::new(alloc, "gcplay")
        .no_binary_name(true)
        .disable_help_flag(true)
        .disable_help_subcommand(true)
        .subcommand_required(true);
    with_commands(alloc, program, COMMANDS.as_slice())
}
