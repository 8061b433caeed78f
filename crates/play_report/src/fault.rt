//! The texts of faults.
ghost use Rattle.std.specs.Prelude.{◌≢◌};
ghost use Rattle.play_report.specs.Causes.{WritesTo};
ghost use Rattle.play_report.specs.Text.{error_text, usage_text};

use crate::line::write_named;
use crate::outside::{Failed, Sink, write_all};
use gc_script::ScriptError;

/// Writes the text of status 1, the usage.
pub fn write_usage<K: Sink>(sink: &mut K) -> Result<(), Failed>
    ensures { WritesTo K.written K.faults result sink.old sink.new usage_text }
{
    write_all(sink, b"usage: gcplay command [options]\n")
}

/// Writes the text of status 2: the fault's number, name and place. Out of memory has none.
pub fn write_fault<K: Sink>(fault: &ScriptError, sink: &mut K) -> Result<(), Failed>
    requires { fault.now ≢ ScriptError.OutOfMemory }
    ensures { WritesTo K.written K.faults result sink.old sink.new (error_text fault.now) }
{
    match fault {
        ScriptError::NotAscii { offset } => write_named("1 NotAscii offset ", *offset as u64, sink),
        ScriptError::BadHeader => write_all(sink, b"2 BadHeader\n"),
        ScriptError::BadLine { line } => write_named("3 BadLine line ", *line as u64, sink),
        ScriptError::UnknownName { line } => write_named("4 UnknownName line ", *line as u64, sink),
        ScriptError::TooManyNames { line } => write_named(
            "5 TooManyNames line ",
            *line as u64,
            sink,
        ),
        ScriptError::NumberTooLarge { line } => write_named(
            "6 NumberTooLarge line ",
            *line as u64,
            sink,
        ),
        ScriptError::RepeatOpen { line } => write_named("7 RepeatOpen line ", *line as u64, sink),
        ScriptError::TooManySections { line } => write_named(
            "8 TooManySections line ",
            *line as u64,
            sink,
        ),
        ScriptError::TooManyCommands => write_all(sink, b"9 TooManyCommands\n"),
        ScriptError::TooManyLines => write_all(sink, b"10 TooManyLines\n"),
        ScriptError::TooLong => write_all(sink, b"11 TooLong\n"),
        ScriptError::OutOfMemory => unreachable!(),
        ScriptError::ConvertedTooLong => write_all(sink, b"14 ConvertedTooLong\n"),
        ScriptError::TooManySeasons { line } => write_named(
            "15 TooManySeasons line ",
            *line as u64,
            sink,
        ),
    }
}
