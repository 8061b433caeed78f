//! Reads a script.
ghost use Rattle.std.specs.Prelude.{◌≡◌, ◌<◌, ◌≤◌, ◌^◌, Err, map, length, IsOk};
ghost use Rattle.gc_script.specs.ScriptText.{lines, words};
ghost use Rattle.gc_script.specs.Statement.{statement};
ghost use Rattle.gc_script.specs.Script.{script, body, of_lines};
ghost use Rattle.gc_script.specs.Finished.{ReadAnswers};

use crate::cutting::take_words;
use crate::finish::script_of;
use crate::header::version;
use crate::progress::read_lines;
use crate::script::{Script, ScriptError};
use crate::source::{first_foreign, text_of};
use std::alloc::Global;

/// The greatest number of bytes of a script.
pub const LONGEST: usize = 1_048_576;

fn script_of_body<'a>(alloc: Global, version: u32, text: &'a str) -> Result<Script<'a>, ScriptError>
    requires { length text.now < 2 ^ 21 }
    ensures { ReadAnswers result (body version (map statement (map words (lines text.now)))) }
{
    match read_lines(alloc, version, text) {
        Err(e) => Err(e),
        Ok(progress) => script_of(alloc, progress),
    }
}

fn script_of_text<'a>(alloc: Global, text: &'a str) -> Result<Script<'a>, ScriptError>
    requires { length text.now ≤ LONGEST }
    ensures { ReadAnswers result (of_lines (map words (lines text.now))) }
{
    let mut words = Vec::new(alloc);
    match take_words(&mut words, text) {
        Err(_) => Err(ScriptError::OutOfMemory),
        Ok(rest) => match version(words.as_slice()) {
            None => Err(ScriptError::BadHeader),
            Some(version) => script_of_body(alloc, version, rest),
        },
    }
}

/// Reads a script, which lends parts of the source. Out of memory may be answered for any source that is not too
/// long.
pub fn read<'a>(alloc: Global, source: &'a [u8]) -> Result<Script<'a>, ScriptError>
    ensures answers { ReadAnswers result (script source.now) }
    ensures memory { result ≡ Err ScriptError.OutOfMemory → length source.now ≤ 1048576 }
    ensures short { IsOk result → length source.now ≤ 1048576 }
{
    if source.len() > LONGEST {
        return Err(ScriptError::TooLong);
    }
    match first_foreign(source) {
        Some(offset) => Err(ScriptError::NotAscii {
            offset: offset as u32,
        }),
        None => script_of_text(alloc, text_of(source)),
    }
}
