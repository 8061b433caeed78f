ghost use Rattle.std.specs.Prelude.{◌≡◌, ◌≤◌, length, nat_lt};
ghost use Rattle.gc_script.specs.Earlier.{place};
ghost use Rattle.gc_script.specs.Said.{said, said_command};

use crate::context::Context;
use crate::names::place_of;
use crate::statement::{Spoken, Statement};

/// The places of a line's first and second name among the names of the section; a `cat` has its second in the
/// catalogue.
#[derive(Clone, Copy)]
pub struct Found {
    pub v: u8,
    pub w: u8,
}

impl<'a> Context<'a> {
    ghost use Rattle.gc_script.specs.Found.{ArePlaces, AreFound};
    ghost use Rattle.gc_script.specs.Kept.{context_shown};

    fn place(&self, name: &str) -> u8
        requires { length (context_shown self.now).names ≤ 32 }
        ensures { result ≡ place (context_shown self.now).names name.now }
    {
        place_of(self.names.as_slice(), name) as u8
    }

    fn place_in_catalogue(&self, name: &str) -> u8
        requires { length (context_shown self.now).catalogue ≤ 32 }
        ensures { result ≡ place (context_shown self.now).catalogue name.now }
    {
        place_of(self.catalogue.as_slice(), name) as u8
    }

    fn places(&self, spoken: &Spoken) -> Found
        requires names { length (context_shown self.now).names ≤ 32 }
        requires catalogue { length (context_shown self.now).catalogue ≤ 32 }
        ensures { ArePlaces (context_shown self.now) (said_command spoken.now) result }
    {
        match spoken {
            Spoken::New { v, n: _ } => self.one(v),
            Spoken::Let { v, w } => self.both(v, w),
            Spoken::Nil { v } => self.one(v),
            Spoken::Set { v, i: _, w } => self.both(v, w),
            Spoken::Get { v, w, i: _ } => self.both(v, w),
            Spoken::Cat { v, name } => Found {
                v: self.place(v),
                w: self.place_in_catalogue(name),
            },
            Spoken::Put { v, n: _ } => self.one(v),
            Spoken::Say { label: _, v } => self.one(v),
            Spoken::Sum {
                label: _,
                v,
                i: _,
                limit: _,
            } => self.one(v),
            Spoken::Collect => Found { v: 0, w: 0 },
        }
    }

    fn one(&self, v: &str) -> Found
        requires { length (context_shown self.now).names ≤ 32 }
        ensures { result.v ≡ place (context_shown self.now).names v.now }
    {
        Found {
            v: self.place(v),
            w: 0,
        }
    }

    fn both(&self, v: &str, w: &str) -> Found
        requires { length (context_shown self.now).names ≤ 32 }
        ensures v { result.v ≡ place (context_shown self.now).names v.now }
        ensures w { result.w ≡ place (context_shown self.now).names w.now }
    {
        Found {
            v: self.place(v),
            w: self.place(w),
        }
    }

    /// Where the names of a line stand.
    pub fn find(&self, statement: &Statement) -> Found
        requires names { length (context_shown self.now).names ≤ 32 }
        requires catalogue { length (context_shown self.now).catalogue ≤ 32 }
        ensures { AreFound (context_shown self.now) (said statement.now) result }
    {
        match statement {
            Statement::Command(spoken) => self.places(spoken),
            _ => Found { v: 0, w: 0 },
        }
    }

    /// Whether a name of the section stands there.
    pub fn has(&self, place: u8) -> bool
        ensures { result ≡ nat_lt place (length (context_shown self.now).names) }
    {
        usize::from(place) < self.names.len()
    }
}
