//! Why bytes are no batch.

/// Why bytes are no batch. A line is named by the offset at which it begins.
#[derive(Debug, Drop, PartialEq)]
pub enum BatchError {
    /// The line is wrong, or says a number above 16,777,216.
    BadBatch { offset: u32 },
    /// Fewer bytes are left than the job's line says.
    CutJob { job: u32 },
    /// A job more than 64.
    TooManyJobs { offset: u32 },
    /// More than 16,777,216 bytes.
    BatchTooLong,
    /// There was no memory for the list of jobs.
    OutOfMemory,
}
