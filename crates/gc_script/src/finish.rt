ghost use Rattle.std.specs.Prelude.{◌≡◌, ◌≤◌, ◌+◌, [], Ok, Err, Option, map, min, max, length, fold, unwrap_or, option_map, OnErr, IfOk};
ghost use Rattle.std.specs.List.{All};
ghost use Rattle.gc_script.specs.Context.{end_fault_in};
ghost use Rattle.gc_script.specs.Content.{kept_shown};
ghost use Rattle.gc_script.specs.Kept.{context_shown, told};
ghost use Rattle.gc_script.specs.Blocks.{counts};
ghost use Rattle.gc_script.specs.Sectioned.{IsSmall, AreLegal, AreSmall, in_parts, in_sections, sections_numbered};
ghost use Rattle.gc_script.specs.Finished.{parts_shown, ReadAnswers, limited_script, finished_script, script_made, IsWhole};

use crate::block::{Kind, Part, count_in_parts};
use crate::context::Context;
use crate::kept::Kept;
use crate::progress::Progress;
use crate::script::{Script, ScriptError};
use crate::section::Section;
use plain_heap::OutOfMemory;
use std::alloc::Global;

const MOST_COMMANDS: u64 = 2_000_000;

const MOST_LINES: u64 = 65_536;

fn count_in_catalogue(kind: Kind, catalogue: &Option<Vec<Part<'_>>>) -> u64
    ensures { result ≡ min (in_parts (counts kind) (unwrap_or (option_map parts_shown catalogue.now) [])) u64.MAX }
{
    match catalogue {
        None => 0,
        Some(parts) => count_in_parts(kind, parts.as_slice()),
    }
}

fn count_in_sections(
    kind: Kind,
    catalogue: &Option<Vec<Part<'_>>>,
    warehouses: &[Vec<Part<'_>>],
) -> u64
    ensures { result ≡ min (in_sections (counts kind) (option_map parts_shown catalogue.now) (map parts_shown warehouses.now)) u64.MAX }
{
    let mut count = count_in_catalogue(kind, catalogue);
    for parts in warehouses {
        count = count.saturating_add(count_in_parts(kind, parts.as_slice()));
    }
    count
}

fn seasons_of_catalogue(catalogue: &Option<Section<'_>>) -> u32
    ensures { result ≡ max 1 (length (unwrap_or (option_map (λ c. c.parts) catalogue.now) [])) }
{
    match catalogue {
        None => 1,
        Some(section) => section.seasons().max(1),
    }
}

fn most_seasons(catalogue: &Option<Section<'_>>, warehouses: &[Section<'_>]) -> u32
    ensures { result ≡ fold (λ most p. max most (length p)) (max 1 (length (unwrap_or (option_map (λ c. c.parts) catalogue.now) []))) (map (λ w. w.parts) warehouses.now) }
{
    let mut most = seasons_of_catalogue(catalogue);
    for section in warehouses {
        most = most.max(section.seasons());
    }
    most
}

/// The warehouses, numbered from 1.
fn numbered_sections<'a>(
    alloc: Global,
    fields: u32,
    warehouses: Vec<Vec<Part<'a>>>,
) -> Result<Vec<Section<'a>>, OutOfMemory>
    requires few { length warehouses.items ≤ 32 }
    requires small { All (IsSmall fields) (map parts_shown warehouses.items) }
    ensures { IfOk result (λ v. v.items ≡ sections_numbered fields 1 (map parts_shown warehouses.entry.items)) }
{
    let mut sections = Vec::new(alloc);
    for parts in warehouses {
        let number = sections.len() as u32 + 1;
        match sections.push(Section::make(number, fields, parts)) {
            Ok(()) => {}
            Err(_) => return Err(OutOfMemory),
        }
    }
    Ok(sections)
}

/// The catalogue, numbered 0.
fn catalogue_section<'a>(fields: u32, catalogue: Option<Vec<Part<'a>>>) -> Option<Section<'a>>
    requires { IsSmall fields (unwrap_or (option_map parts_shown catalogue) []) }
    ensures { result ≡ option_map (λ p. record { number = 0; fields = fields; parts = p }) (option_map parts_shown catalogue.entry) }
{
    match catalogue {
        None => None,
        Some(parts) => Some(Section::make(0, fields, parts)),
    }
}

/// The sections of a script, which are few.
fn script_of_sections<'a>(
    alloc: Global,
    version: u32,
    fields: u32,
    kept: Kept<'a>,
    executed: u64,
    printed: u64,
) -> Result<Script<'a>, ScriptError>
    requires small { AreSmall fields (kept_shown kept).catalogue (kept_shown kept).warehouses }
    requires executed { executed ≡ in_sections (counts Kind.All) (kept_shown kept).catalogue (kept_shown kept).warehouses }
    requires printed { printed ≡ in_sections (counts Kind.Printing) (kept_shown kept).catalogue (kept_shown kept).warehouses }
    ensures made { IfOk result (λ s. s ≡ script_made version fields (kept_shown kept.entry).catalogue (kept_shown kept.entry).warehouses) }
    ensures err { OnErr result (result ≡ Err ScriptError.OutOfMemory) }
{
    let catalogue = catalogue_section(fields, kept.catalogue);
    match numbered_sections(alloc, fields, kept.warehouses) {
        Err(_) => Err(ScriptError::OutOfMemory),
        Ok(warehouses) => {
            let seasons = most_seasons(&catalogue, warehouses.as_slice());
            Ok(Script::make(
                version, fields, catalogue, warehouses, executed, printed, seasons,
            ))
        }
    }
}

fn limited<'a>(
    alloc: Global,
    version: u32,
    fields: u32,
    kept: Kept<'a>,
) -> Result<Script<'a>, ScriptError>
    requires { AreLegal fields (kept_shown kept).catalogue (kept_shown kept).warehouses }
    ensures { ReadAnswers result (limited_script version fields (kept_shown kept.entry).catalogue (kept_shown kept.entry).warehouses) }
{
    let executed = count_in_sections(Kind::All, &kept.catalogue, kept.warehouses.as_slice());
    if executed > MOST_COMMANDS {
        return Err(ScriptError::TooManyCommands);
    }
    let printed = count_in_sections(Kind::Printing, &kept.catalogue, kept.warehouses.as_slice());
    if printed > MOST_LINES {
        return Err(ScriptError::TooManyLines);
    }
    script_of_sections(alloc, version, fields, kept, executed, printed)
}

impl<'a> Context<'a> {
    fn end_fault(&self) -> Option<ScriptError>
        ensures { told result ≡ end_fault_in (context_shown self.now) }
    {
        if self.fields.is_none() {
            return Some(ScriptError::BadHeader);
        }
        match self.opened {
            None => None,
            Some(opened) => Some(ScriptError::RepeatOpen { line: opened.line }),
        }
    }
}

/// The script of the lines that were read; refused if its limits are passed or there is no memory.
pub fn script_of<'a>(alloc: Global, progress: Progress<'a>) -> Result<Script<'a>, ScriptError>
    requires { IsWhole (context_shown progress.context) (kept_shown progress.kept) }
    ensures { ReadAnswers result (finished_script (context_shown progress.entry.context) (kept_shown progress.entry.kept)) }
{
    let Progress { context, mut kept } = progress;
    match context.end_fault() {
        Some(e) => return Err(e),
        None => {}
    }
    match kept.end_section(alloc, context.section) {
        Ok(()) => {}
        Err(_) => return Err(ScriptError::OutOfMemory),
    }
    limited(
        alloc,
        context.version,
        u32::from(context.fields.unwrap_or(0)),
        kept,
    )
}
