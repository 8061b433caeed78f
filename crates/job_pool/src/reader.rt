//! Reads a batch.
ghost use Rattle.std.specs.Prelude.{◌≡◌, ◌≤◌, [], true, min, length, position, not, option_map, IfSome, Err};
ghost use Rattle.std.specs.Char.{is_ascii_digit};
ghost use Rattle.job_pool.specs.Batch.{ReadsBatch, batch, jobs_from, job_line as job_line_of, digits_line as digits_line_of, decimal_value};

use crate::batch::Batch;
use crate::fault::BatchError;
use std::alloc::Global;
use std::marker::PhantomData;

mod job;

pub use job::Job;

/// The greatest number of bytes of a batch, and of a job.
const LONGEST: usize = 16_777_216;

/// The greatest number of jobs.
const MOST: u32 = 64;

/// Past every number that a line may say.
const LARGE: u64 = 1 << 32;

/// The index of the first byte that is no digit.
fn first_other(bytes: &[u8]) -> Option<usize>
    ensures { result ≡ position (λ b. not (is_ascii_digit b)) bytes.now }
{
    bytes.iter().position(|b| !b.is_ascii_digit())
}

/// What digits say, or `LARGE` if it is more.
fn value_of(digits: &[u8]) -> u64
    ensures { result ≡ min (decimal_value digits.now) LARGE }
{
    let mut number = 0;
    for b in digits {
        number = (10 * number + u64::from(b.saturating_sub(b'0'))).min(LARGE);
    }
    number
}

/// Digits and a line feed: the number, and the bytes behind the line.
fn digits_line(bytes: &[u8]) -> Option<(usize, &[u8])>
    ensures line { option_map (λ r. (r.0, r.1.now)) result ≡ digits_line_of bytes.now }
    ensures rest { IfSome result (λ r. length r.1.now ≤ length bytes.now) }
{
    let k = first_other(bytes)?;
    if k == 0 || bytes[k] != b'\n' {
        return None;
    }
    let size = value_of(&bytes[..k]);
    if size > LONGEST as u64 {
        return None;
    }
    Some((size as usize, &bytes[k + 1..]))
}

/// The line of a job: how many bytes the job has, and the bytes behind the line.
fn job_line(bytes: &[u8]) -> Option<(usize, &[u8])>
    ensures line { option_map (λ r. (r.0, r.1.now)) result ≡ job_line_of bytes.now }
    ensures rest { IfSome result (λ r. length r.1.now ≤ length bytes.now) }
{
    if !bytes.starts_with(b"job ") {
        return None;
    }
    digits_line(&bytes[4..])
}

/// The jobs of a batch of `all` bytes, from its first job line on.
fn read_jobs<'a, B>(alloc: Global, all: u32, first: &'a [u8]) -> Result<Batch<'a, B>, BatchError>
    requires { length first.now ≤ all }
    ensures { ReadsBatch result (jobs_from all 64 [] first.now) }
{
    let mut jobs = Vec::new(alloc);
    let mut rest = first;
    for job in 0..MOST {
        if rest.is_empty() {
            return Ok(Batch { jobs });
        }
        let Some((size, next)) = job_line(rest) else {
            return Err(BatchError::BadBatch {
                offset: all - rest.len() as u32,
            });
        };
        if next.len() < size {
            return Err(BatchError::CutJob { job });
        }
        let (script, after) = next.split_at(size);
        match jobs.push(Job {
            number: job,
            script,
            seal: PhantomData,
        }) {
            Ok(()) => rest = after,
            Err(_) => return Err(BatchError::OutOfMemory),
        }
    }
    if rest.is_empty() {
        return Ok(Batch { jobs });
    }
    let offset = all - rest.len() as u32;
    match job_line(rest) {
        None => Err(BatchError::BadBatch { offset }),
        Some(_) => Err(BatchError::TooManyJobs { offset }),
    }
}

/// The batch that the bytes are, or their first fault.
///
/// A batch is the line `gcbatch 1`, and for each job the line `job n` and then n bytes, which the next job line
/// follows at once. It has at most 16,777,216 bytes, which is told first, even before out of memory, and at most 64
/// jobs. Of one line a wrong form is told first, then that there are too many jobs, then that fewer than n bytes
/// are left. Only the list of jobs takes memory.
///
/// The seal is spent, and its type stays with the jobs. A function that takes a batch of any seal, as `run_jobs`
/// does, has no seal of that type, so it can't read the same bytes again as more jobs for the same player.
pub fn read_batch<'a, B: Drop>(
    alloc: Global,
    source: &'a [u8],
    _seal: B,
) -> Result<Batch<'a, B>, BatchError>
    ensures reads { ReadsBatch result (batch source.now) }
    ensures memory { result ≡ Err BatchError.OutOfMemory → length source.now ≤ 16777216 }
{
    if source.len() > LONGEST {
        return Err(BatchError::BatchTooLong);
    }
    if !source.starts_with(b"gcbatch 1\n") {
        return Err(BatchError::BadBatch { offset: 0 });
    }
    read_jobs(alloc, source.len() as u32, &source[10..])
}
