ghost use Rattle.std.specs.Prelude.{◌≢◌};
ghost use Rattle.std.specs.List.{flat_map};
ghost use Rattle.play_report.specs.Causes.{WritesTo};
ghost use Rattle.play_words.specs.Batching.{job_line_text, job_text, batch_error_text};

use crate::lines::write_lines;
use job_pool::{BatchError, JobDone};
use play_report::{Failed, Sink, TextLine, write_all, write_named};

#[tactic(auto, unfolding(crate::specs::Batching::job_line_text))]
fn write_job_line<K: Sink>(job: u32, status: u8, bytes: usize, sink: &mut K) -> Result<(), Failed>
    ensures { WritesTo K.written K.faults result sink.old sink.new (job_line_text job status bytes) }
{
    let mut line = TextLine::new();
    line.push("job ");
    line.push_number(u64::from(job));
    line.push(" status ");
    line.push_number(u64::from(status));
    line.push(" bytes ");
    line.push_number(bytes as u64);
    line.push("\n");
    line.write(sink)
}

fn write_job<K: Sink>(done: &JobDone, sink: &mut K) -> Result<(), Failed>
    ensures { WritesTo K.written K.faults result sink.old sink.new (job_text done.now) }
{
    let text = done.text.bytes();
    match write_job_line(done.job, done.status, text.len(), sink) {
        Ok(()) => write_lines(sink, text),
        Err(e) => Err(e),
    }
}

/// Writes the results of jobs, in the order given.
pub fn write_jobs<K: Sink>(done: &[JobDone], sink: &mut K) -> Result<(), Failed>
    ensures { WritesTo K.written K.faults result sink.old sink.new (flat_map job_text done.now) }
{
    for job in done {
        match write_job(job, sink) {
            Ok(()) => {}
            Err(e) => return Err(e),
        }
    }
    Ok(())
}

/// Writes a batch's fault; out of memory is none.
pub fn write_batch_fault<K: Sink>(fault: &BatchError, sink: &mut K) -> Result<(), Failed>
    requires { fault.now ≢ BatchError.OutOfMemory }
    ensures { WritesTo K.written K.faults result sink.old sink.new (batch_error_text fault.now) }
{
    match fault {
        BatchError::BadBatch { offset } => write_named("41 BadBatch offset ", *offset as u64, sink),
        BatchError::CutJob { job } => write_named("42 CutJob job ", *job as u64, sink),
        BatchError::TooManyJobs { offset } => write_named(
            "43 TooManyJobs offset ",
            *offset as u64,
            sink,
        ),
        BatchError::BatchTooLong => write_all(sink, b"44 BatchTooLong\n"),
        BatchError::OutOfMemory => unreachable!(),
    }
}
