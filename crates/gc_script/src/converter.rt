//! A script of version 1 as one of version 2.
ghost use Rattle.std.specs.Prelude.{◌≡◌, ◌≤◌, ◌==◌, Err, length};
ghost use Rattle.std.specs.List.{after_first, position, position_or_len};
ghost use Rattle.gc_script.specs.Convert.{KeepsMeaning, convert, if_short};
ghost use Rattle.gc_script.specs.Converting.{ConvertAnswers, conversion_of, conversion};

use crate::reader::{LONGEST, read};
use crate::script::ScriptError;
use std::alloc::Global;

const ADDED: usize = 20;

/// The text of a conversion: the lines that are added, and the rest, which is lent from the source.
#[derive(Clone, Copy, Debug)]
pub struct Converted<'a> {
    pub added: bool,
    pub rest: &'a [u8],
}

fn first_line_feed(source: &[u8]) -> Option<usize>
    ensures { result ≡ position (λ b. b == 10) source.now }
{
    source.iter().position(|b| *b == b'\n')
}

/// Where the first line ends, or the source does.
#[tactic(auto, using(crate::proofs::Clear::end_by_position))]
fn line_end(source: &[u8]) -> usize
    ensures end { result ≡ position_or_len (λ b. b == 10) source.now }
    ensures within { result ≤ length source.now }
{
    first_line_feed(source).unwrap_or(source.len())
}

/// What follows the first line.
fn after_line(source: &[u8]) -> &[u8]
    ensures { result.now ≡ after_first (λ b. b == 10) source.now }
{
    let end = line_end(source);
    if end < source.len() {
        return &source[end + 1..];
    }
    &source[end..]
}

fn if_short<'a>(converted: Converted<'a>) -> Result<Converted<'a>, ScriptError>
    requires { length converted.rest.now ≤ LONGEST }
    ensures { ConvertAnswers result (if_short (conversion_of converted.entry)) }
{
    if converted.added && converted.rest.len() + ADDED > LONGEST {
        return Err(ScriptError::ConvertedTooLong);
    }
    Ok(converted)
}

/// Makes of a script of version 1 one of version 2 that means the same; a later version is left as it is.
///
/// Its faults are those of `read`, then `ConvertedTooLong`. Out of memory comes only of a source that is not too
/// long.
pub fn convert<'a>(alloc: Global, source: &'a [u8]) -> Result<Converted<'a>, ScriptError>
    ensures answers { ConvertAnswers result (convert source.now) }
    ensures memory { result ≡ Err ScriptError.OutOfMemory → length source.now ≤ 1048576 }
{
    match read(alloc, source) {
        Err(e) => Err(e),
        Ok(script) => if_short(conversion(script.version(), source)),
    }
}

/// A header of version 1 makes place for the two lines.
fn conversion<'a>(version: u32, source: &'a [u8]) -> Converted<'a>
    ensures text { conversion_of result ≡ conversion version source.now }
    ensures shorter { length result.rest.now ≤ length source.now }
{
    if version == 1 {
        return Converted {
            added: true,
            rest: after_line(source),
        };
    }
    Converted {
        added: false,
        rest: source,
    }
}

/// A law: a conversion has the fields and sections of its source, apart from line numbers.
#[tactic(auto, using(crate::proofs::Meaning::keeps_meaning))]
pub fn keeps_meaning()
    ensures { KeepsMeaning }
{}
