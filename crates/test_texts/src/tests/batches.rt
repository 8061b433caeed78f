//! Batches and their faults, and runners that play beside each other.
ghost use Rattle.std.specs.Prelude.{◌≡◌, ◌≤◌, ◌⊎◌, []};
ghost use Rattle.std.specs.Thread.{IsSync};

use super::cases::{Kind, all_hold};
use job_pool::{Job, Player, Text, read_batch, run_jobs};
use std::alloc::Global;
use std::sync::Wait;
use std::sync::atomic::{AtomicU64, Ordering};
use std::test::*;
use std::thread::Threads;
use std::time::Duration;

/// How often a held job looks before it gives up, after each look asleep for a millisecond at most.
const LOOKS: u64 = 40_000;

/// Answers with the script itself, and counts plays and their jobs' numbers. It holds a job whose script is `0` until
/// one whose script is `1` was played.
#[derive(Drop)]
struct Watching {
    plays: AtomicU64,
    numbers: AtomicU64,
    played: AtomicU64,
    late: AtomicU64,
}

impl Player<()> for Watching {
    ghost use Rattle.std.specs.Prelude.{◌≡◌, ◌⊎◌, []};

    ghost fits = { λ player script status text. ((status ≡ 0) × (text ≡ script)) ⊎ ((status ≡ 6) × (text ≡ [])) };

    fn play_job<R: Threads + Wait + Sync>(
        &self,
        rt: &R,
        alloc: Global,
        job: Job<'_, ()>,
    ) -> (u8, Text)
        requires { IsSync R.row }
        ensures { ((result.0 ≡ 0) × (result.1 ≡ job.entry.script)) ⊎ ((result.0 ≡ 6) × (result.1 ≡ [])) }
    {
        self.watch(rt, &job);
        let mut text = Text::make(alloc);
        match text.append(job.script()) {
            Ok(()) => (0, text),
            Err(_) => (6, text),
        }
    }
}

impl Watching {
    fn new() -> Watching {
        Watching {
            plays: AtomicU64::new(0),
            numbers: AtomicU64::new(0),
            played: AtomicU64::new(0),
            late: AtomicU64::new(0),
        }
    }

    fn watch<R: Wait>(&self, rt: &R, job: &Job<'_, ()>) {
        self.plays.fetch_add(1, Ordering::SeqCst);
        self.numbers
            .fetch_add(u64::from(job.number()), Ordering::SeqCst);
        let script = job.script();
        if script == [b'0'].as_slice() {
            self.hold(rt);
        }
        if script == [b'1'].as_slice() {
            self.played.store(1, Ordering::SeqCst);
        }
    }

    fn hold<R: Wait>(&self, rt: &R) {
        for _ in 0..LOOKS {
            if self.played.load(Ordering::SeqCst) == 1 {
                return;
            }
            self.played
                .park_timeout(rt, 0, Duration::from_micros(1_000));
        }
        self.late.store(1, Ordering::SeqCst);
    }
}

/// How many results there are, how many of them belong to the job of their place, how often jobs were played, and the
/// sum of their numbers. A play spends its job, so the scripts are those of a second reading. None if a held job gave
/// up.
fn echoed<R: AllocGlobal + Threads + Wait + Sync>(
    rt: &R,
    source: &[u8],
    runners: u32,
) -> Option<(usize, usize, u64, u64)>
    requires { (1 ≤ runners) × (runners ≤ 8) }
{
    let player = Watching::new();
    let played = read_batch(rt.alloc(), source, ()).ok()?;
    let batch = read_batch(rt.alloc(), source, ()).ok()?;
    let done = run_jobs(rt, rt.alloc(), played, runners, &player).ok()?;
    let mut echoed = 0usize;
    for (job, result) in batch.jobs().iter().zip(done.iter()) {
        let is_its_own = result.job == job.number() && result.status == 0;
        if is_its_own && result.text.bytes() == job.script() {
            echoed = echoed.saturating_add(1);
        }
    }
    if player.late.load(Ordering::SeqCst) > 0 {
        return None;
    }
    let plays = player.plays.load(Ordering::SeqCst);
    Some((
        done.len(),
        echoed,
        plays,
        player.numbers.load(Ordering::SeqCst),
    ))
}

#[test]
fn runners_play_beside_each_other(rt: HostRuntime) {
    let echoed = echoed(&rt, b"gcbatch 1\njob 1\n0job 1\n1job 0\n", 2);
    assert!(rt; echoed == Some((3, 3, 3, 3)));
}

#[test]
fn one_to_eight_runners_answer_alike(rt: HostRuntime) -> Result<(), Fail> {
    let mut source = "gcbatch 1\n".to_string(rt.alloc())?;
    for _ in 0..32u32 {
        source.push_str("job 2\nabjob 3\ncde")?;
    }
    for runners in 1..=8 {
        let echoed = echoed(&rt, source.as_bytes(), runners);
        assert!(rt; echoed == Some((64, 64, 64, 2_016)), "{runners}");
    }
    Ok(())
}

#[test]
fn each_job_is_played_once(rt: HostRuntime) {
    let source = b"gcbatch 1\njob 1\najob 1\nbjob 0\njob 1\ncjob 1\nd";
    for runners in 1..=8 {
        let echoed = echoed(&rt, source, runners);
        assert!(rt; echoed == Some((5, 5, 5, 10)), "{runners}");
    }
}

#[test]
fn a_batch_without_jobs_has_no_results(rt: HostRuntime) {
    assert!(rt; echoed(&rt, b"gcbatch 1\n", 8) == Some((0, 0, 0, 0)));
}

/// The jobs of a batch in order, or its fault.
pub fn said(alloc: Global, source: &[u8]) -> Option<String> {
    let batch = match read_batch(alloc, source, ()) {
        Ok(batch) => batch,
        Err(e) => return format!(in alloc; "{e:?}").ok(),
    };
    let mut text = format!(in alloc; "{} jobs:", batch.jobs().len()).ok()?;
    for job in batch.jobs() {
        let script = str::from_utf8(job.script()).ok()?;
        text.push_str(format!(in alloc; " [{script}]").ok()?.as_str())
            .ok()?;
    }
    Some(text)
}

const BATCHES: &str = "$ gcbatch 1
=> 0 jobs:
$ gcbatch 1
job 5
abc
=> CutJob { job: 0 }
$ gcbatch 1=> BadBatch { offset: 0 }
$ gcbatch 1
job \n=> BadBatch { offset: 10 }
$ gcbatch 1
job  5
abcde=> BadBatch { offset: 10 }
$ gcbatch 1
job 5=> BadBatch { offset: 10 }
$ gcbatch 1
job 16777217
=> BadBatch { offset: 10 }
$ gcbatch 1
job 16777216
=> CutJob { job: 0 }
$ gcbatch 1
job 99999999999999999999999
=> BadBatch { offset: 10 }
$ gcbatch 1
job 3
abcjob 0
job 007
gcjob 9=> 3 jobs: [abc] [] [gcjob 9]";

#[test]
fn batches_are_read(rt: HostRuntime) {
    all_hold(&rt, Kind::Batch, BATCHES);
}

/// What is said of so many jobs of no bytes, and what comes behind them.
pub fn said_of_many(alloc: Global, told: &str) -> Option<String> {
    let (count, rest) = told.split_once(' ')?;
    let mut batch = "gcbatch 1\n".to_string(alloc).ok()?;
    for _ in 0..count.parse::<u32>().ok()? {
        batch.push_str("job 0\n").ok()?;
    }
    batch.push_str(rest).ok()?;
    said(alloc, batch.as_bytes())
}

/// One job more than 64 is a fault where it begins, whatever comes behind.
const LONG: &str =
    "$ 64 => 64 jobs: [] [] [] [] [] [] [] [] [] [] [] [] [] [] [] [] [] [] [] [] [] [] [] [] [] [] [] [] [] [] [] [] [] [] [] [] [] [] [] [] [] [] [] [] [] [] [] [] [] [] [] [] [] [] [] [] [] [] [] [] [] [] [] []
$ 64 job 5
=> TooManyJobs { offset: 394 }
$ 64 job 5
job=> TooManyJobs { offset: 394 }";

#[test]
fn a_batch_has_at_most_64_jobs(rt: HostRuntime) {
    all_hold(&rt, Kind::Long, LONG);
}
