ghost use Rattle.std.specs.Prelude.{◌≡◌, ◌≤◌, ◌<◌, ◌+◌, length, unwrap_or, Some, option_map};
ghost use Rattle.gc_script.specs.Statement.{Warehouse, Command};
ghost use Rattle.gc_script.specs.Earlier.{is_for_catalogue, is_too_large, assigns, with_name};
ghost use Rattle.gc_script.specs.Faults.{starts_section, may_stand, has_large_number};
ghost use Rattle.gc_script.specs.Said.{said, said_command};

use crate::found::Found;
use crate::script::ScriptError;
use crate::statement::{Spoken, Statement};

const MOST_NAMES: usize = 32;

const MOST_WAREHOUSES: u32 = 32;

const MOST_SEASON_LINES: u32 = 63;

const MOST_FIELDS: u64 = 16;

const MOST_REPETITIONS: u64 = 2_000_000;

const LARGEST: u64 = 4_294_967_295;

const LONGEST_WALK: u64 = 65_536;

/// The `repeat` that is open: its line, and how often.
#[derive(Clone, Copy)]
pub struct Opened {
    pub line: u32,
    pub times: u32,
}

/// The number of a line, and of the lines before it what it may rely on.
#[derive(Drop)]
pub struct Context<'a> {
    pub version: u32,
    pub line: u32,
    pub fields: Option<u8>,
    pub section: Option<u32>,
    pub warehouses: u32,
    pub seasons: u32,
    pub opened: Option<Opened>,
    pub names: Vec<&'a str>,
    pub catalogue: Vec<&'a str>,
}

fn is_for_catalogue(spoken: &Spoken) -> bool
    ensures { result ≡ is_for_catalogue (said_command spoken.now) }
{
    match spoken {
        Spoken::Cat { v: _, name: _ } => false,
        Spoken::Say { label: _, v: _ } => false,
        Spoken::Sum {
            label: _,
            v: _,
            i: _,
            limit: _,
        } => false,
        Spoken::Collect => false,
        _ => true,
    }
}

fn may_stand(section: Option<u32>, spoken: &Spoken) -> bool
    ensures { result ≡ may_stand section (said_command spoken.now) }
{
    match section {
        None => false,
        Some(0) => is_for_catalogue(spoken),
        Some(_) => true,
    }
}

fn starts_section(statement: &Statement) -> bool
    ensures { result ≡ starts_section (said statement.now) }
{
    match statement {
        Statement::Catalogue => true,
        Statement::Warehouse => true,
        _ => false,
    }
}

fn is_too_large(fields: u64, spoken: &Spoken) -> bool
    ensures { result ≡ is_too_large fields (said_command spoken.now) }
{
    match spoken {
        Spoken::New { v: _, n } => *n > LARGEST,
        Spoken::Put { v: _, n } => *n > LARGEST,
        Spoken::Set { v: _, i, w: _ } => *i >= fields,
        Spoken::Get { v: _, w: _, i } => *i >= fields,
        Spoken::Sum {
            label: _,
            v: _,
            i,
            limit,
        } => *i >= fields || *limit > LONGEST_WALK,
        _ => false,
    }
}

fn has_large_number(fields: u64, statement: &Statement) -> bool
    ensures { result ≡ has_large_number fields (said statement.now) }
{
    match statement {
        Statement::Fields(n) => *n > MOST_FIELDS,
        Statement::Repeat(n) => *n > MOST_REPETITIONS,
        Statement::Command(spoken) => is_too_large(fields, spoken),
        _ => false,
    }
}

/// The name that a command assigns, if any.
pub fn assigned<'a>(spoken: &Spoken<'a>) -> Option<&'a str>
    ensures { option_map (λ v. v.now) result ≡ assigns (said_command spoken.now) }
{
    match spoken {
        Spoken::New { v, n: _ } => Some(*v),
        Spoken::Let { v, w: _ } => Some(*v),
        Spoken::Nil { v } => Some(*v),
        Spoken::Get { v, w: _, i: _ } => Some(*v),
        Spoken::Cat { v, name: _ } => Some(*v),
        _ => None,
    }
}

impl<'a> Context<'a> {
    ghost use Rattle.gc_script.specs.Context.{placed_in, large_in, knows_in, names_after, warehouses_after, seasons_after, uncut_fault_in, fault_in};
    ghost use Rattle.gc_script.specs.Kept.{context_shown, told};
    ghost use Rattle.std.specs.List.{list_all};
    ghost use Rattle.gc_script.specs.Earlier.{names_read, reads_of_catalogue, has_name};
    ghost use Rattle.gc_script.specs.Found.{ArePlaces, AreFound};

    fn is_placed(&self, statement: &Statement) -> bool
        ensures { result ≡ placed_in (context_shown self.now) (said statement.now) }
    {
        match statement {
            Statement::Blank => true,
            Statement::Fields(n) => self.fields.is_none() && *n != 0,
            Statement::Catalogue => self.fields.is_some() && self.section.is_none(),
            Statement::Warehouse => self.fields.is_some(),
            Statement::Season => {
                self.version == 3 && self.section.is_some() && self.opened.is_none()
            }
            Statement::Repeat(_) => self.section.is_some() && self.opened.is_none(),
            Statement::End => self.opened.is_some(),
            Statement::Command(spoken) => may_stand(self.section, spoken),
            Statement::Wrong => false,
        }
    }

    fn is_large(&self, statement: &Statement) -> bool
        ensures { result ≡ large_in (context_shown self.now) (said statement.now) }
    {
        has_large_number(u64::from(self.fields.unwrap_or(0)), statement)
    }

    fn knows_read(&self, spoken: &Spoken, found: Found) -> bool
        requires { ArePlaces (context_shown self.now) (said_command spoken.now) found }
        ensures { result ≡ list_all (λ name. has_name name (context_shown self.now).names) (names_read (said_command spoken.now)) }
    {
        match spoken {
            Spoken::Let { v: _, w: _ } => self.has(found.w),
            Spoken::Set { v: _, i: _, w: _ } => self.has(found.v) && self.has(found.w),
            Spoken::Get { v: _, w: _, i: _ } => self.has(found.w),
            Spoken::Put { v: _, n: _ } => self.has(found.v),
            Spoken::Say { label: _, v: _ } => self.has(found.v),
            Spoken::Sum {
                label: _,
                v: _,
                i: _,
                limit: _,
            } => self.has(found.v),
            _ => true,
        }
    }

    fn knows_of_catalogue(&self, spoken: &Spoken, found: Found) -> bool
        requires { ArePlaces (context_shown self.now) (said_command spoken.now) found }
        ensures { result ≡ list_all (λ name. has_name name (context_shown self.now).catalogue) (reads_of_catalogue (said_command spoken.now)) }
    {
        match spoken {
            Spoken::Cat { v: _, name: _ } => usize::from(found.w) < self.catalogue.len(),
            _ => true,
        }
    }

    fn knows(&self, statement: &Statement, found: Found) -> bool
        requires { AreFound (context_shown self.now) (said statement.now) found }
        ensures { result ≡ knows_in (context_shown self.now) (said statement.now) }
    {
        match statement {
            Statement::Command(spoken) => {
                self.knows_read(spoken, found) && self.knows_of_catalogue(spoken, found)
            }
            _ => true,
        }
    }

    fn names_with(&self, spoken: &Spoken, found: Found) -> usize
        requires places { ArePlaces (context_shown self.now) (said_command spoken.now) found }
        requires few { length (context_shown self.now).names < 1048576 }
        ensures { result ≡ length (with_name (assigns (said_command spoken.now)) (context_shown self.now).names) }
    {
        match assigned(spoken) {
            Some(_) if !self.has(found.v) => self.names.len() + 1,
            _ => self.names.len(),
        }
    }

    fn names_after(&self, statement: &Statement, found: Found) -> usize
        requires places { AreFound (context_shown self.now) (said statement.now) found }
        requires few { length (context_shown self.now).names < 1048576 }
        ensures { result ≡ length (names_after (context_shown self.now) (said statement.now)) }
    {
        match statement {
            Statement::Catalogue => 0,
            Statement::Warehouse => 0,
            Statement::Command(spoken) => self.names_with(spoken, found),
            _ => self.names.len(),
        }
    }

    fn warehouses_after(&self, statement: &Statement) -> u32
        requires { (context_shown self.now).warehouses ≤ 32 }
        ensures { result ≡ warehouses_after (context_shown self.now) (said statement.now) }
    {
        match statement {
            Statement::Warehouse => self.warehouses + 1,
            _ => self.warehouses,
        }
    }

    fn seasons_after(&self, statement: &Statement) -> u32
        requires { (context_shown self.now).seasons ≤ 63 }
        ensures { result ≡ seasons_after (context_shown self.now) (said statement.now) }
    {
        match statement {
            Statement::Catalogue => 0,
            Statement::Warehouse => 0,
            Statement::Season => self.seasons + 1,
            _ => self.seasons,
        }
    }

    fn fault_of(&self, statement: &Statement, found: Found) -> Option<ScriptError>
        requires places { AreFound (context_shown self.now) (said statement.now) found }
        requires names { length (context_shown self.now).names ≤ 32 }
        requires warehouses { (context_shown self.now).warehouses ≤ 32 }
        requires seasons { (context_shown self.now).seasons ≤ 63 }
        ensures { told result ≡ uncut_fault_in (context_shown self.now) (said statement.now) }
    {
        let line = self.line;
        if !self.is_placed(statement) {
            return Some(ScriptError::BadLine { line });
        }
        if self.is_large(statement) {
            return Some(ScriptError::NumberTooLarge { line });
        }
        if !self.knows(statement, found) {
            return Some(ScriptError::UnknownName { line });
        }
        if self.names_after(statement, found) > MOST_NAMES {
            return Some(ScriptError::TooManyNames { line });
        }
        if self.warehouses_after(statement) > MOST_WAREHOUSES {
            return Some(ScriptError::TooManySections { line });
        }
        if self.seasons_after(statement) > MOST_SEASON_LINES {
            return Some(ScriptError::TooManySeasons { line });
        }
        None
    }

    /// The first fault of a line, if any.
    pub fn fault(&self, statement: &Statement, found: Found) -> Option<ScriptError>
        requires places { AreFound (context_shown self.now) (said statement.now) found }
        requires names { length (context_shown self.now).names ≤ 32 }
        requires warehouses { (context_shown self.now).warehouses ≤ 32 }
        requires seasons { (context_shown self.now).seasons ≤ 63 }
        ensures { told result ≡ fault_in (context_shown self.now) (said statement.now) }
    {
        match self.opened {
            Some(opened) if starts_section(statement) => {
                Some(ScriptError::RepeatOpen { line: opened.line })
            }
            _ => self.fault_of(statement, found),
        }
    }
}
