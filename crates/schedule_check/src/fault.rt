//! The faults of a schedule.
use thiserror::Error;

/// Why a source is no schedule. Lines are counted from 1.
#[derive(Debug, Drop, PartialEq, Eq, Error)]
pub enum ScheduleFault {
    /// The first byte that is neither a line feed nor from 32 to 126 stands here, counted from 0.
    #[error("NotAscii")]
    NotAscii { offset: u32 },
    /// The first line isn't `gcschedule 1`.
    #[error("BadHeader")]
    BadHeader,
    /// The line of the sizes is missing or malformed, or a size is out of its limits.
    #[error("BadShape")]
    BadShape,
    /// The line is no seat with the name of a step and its parameters.
    #[error("BadEvent")]
    BadEvent { line: u32 },
    /// The line is the 100,001st event.
    #[error("TooManyEvents")]
    TooManyEvents { line: u32 },
    /// The source has more than 4,194,304 bytes.
    #[error("TooLong")]
    TooLong,
    /// Memory ran out.
    #[error("OutOfMemory")]
    OutOfMemory,
}
