//! Cases, written down as texts, and the loop that reads them.
//!
//! A case is `$ `, what is read, `=> `, and up to the end of the line what it comes to:
//!
//! ```text
//! $ run|--cells|64| => None
//! $ gcbatch 1
//! job 5
//! abc
//! => CutJob { job: 0 }
//! ```
use super::batches::{said, said_of_many};
use super::dumps::first_fault;
use super::generated::line_of;
use super::heaps::played;
use super::schedules::told_of;
use super::scripts::fault_of;
use super::texts::fault_text;
use super::words::{asked_by, asked_with};
use std::alloc::Global;
use std::process::Abort;

/// What is read.
#[derive(Clone, Copy)]
pub enum Kind {
    /// Words of the command line.
    Words,
    Number,
    Script,
    /// A script, whose first warehouse is played.
    Heap,
    /// The size of a generated script, and a line of it.
    Generated,
    /// The name of a fault of scripts, and its place.
    Fault,
    Batch,
    /// A number of jobs of no bytes, and what comes behind them.
    Long,
    /// The length of the dump of one object, and its changed bytes.
    Dump,
    /// A schedule. In it `; ` ends a line, too.
    Schedule,
}

/// What that comes to. None if it is no case, or there is no memory.
fn found(alloc: Global, kind: Kind, read: &str) -> Option<String> {
    match kind {
        Kind::Words => asked_by(alloc, read),
        Kind::Number => asked_with(alloc, read),
        Kind::Script => fault_of(alloc, read.as_bytes()),
        Kind::Heap => played(alloc, read.as_bytes()),
        Kind::Generated => line_of(alloc, read),
        Kind::Fault => fault_text(alloc, read),
        Kind::Batch => said(alloc, read.as_bytes()),
        Kind::Long => said_of_many(alloc, read),
        Kind::Dump => first_fault(alloc, read),
        Kind::Schedule => told_of(alloc, read),
    }
}

/// Fails if one of the cases doesn't come to what is told of it.
pub fn all_hold<R: Abort + AllocGlobal>(rt: &R, kind: Kind, cases: &str) {
    for case in cases.split("$ ").skip(1) {
        let (read, rest) = case.split_once("=> ").unwrap_or((case, ""));
        let told = rest.lines().next().unwrap_or("");
        let found = found(rt.alloc(), kind, read);
        let found = match &found {
            Some(found) => found.as_str(),
            None => "no case, or no memory",
        };
        assert_eq!(rt; found, told, "{read}");
    }
}
