//! Runners draw and play the jobs of a batch.
ghost use Rattle.std.specs.Prelude.{◌≡◌, ◌<◌, ◌≤◌, [], length, IfOk, All};
ghost use Rattle.std.specs.Thread.{IsSync};
ghost use Rattle.crossbeam_queue.specs.Passes.{view, IsPassOf};
ghost use Rattle.job_pool.specs.Draws.{hand, AreBelow};
ghost use Rattle.job_pool.specs.Jobs.{IsPlayed, ArePlayed, jobs_of_results};

use crate::batch::Batch;
use crate::done::{JobDone, play_one};
use crate::draws::{Another, Back, Drawer, Line};
use crate::line::{draw, put_all};
use crate::player::Player;
use crossbeam_utils::CachePadded;
use plain_heap::OutOfMemory;
use std::alloc::Global;
use std::sync::Wait;
use std::thread;
use std::thread::Threads;

/// A runner: its line, and what it knows of it.
#[derive(Drop)]
struct Runner<'l, 'a, B> {
    line: &'l Line<'a, B>,
    pass: Drawer<'a, B>,
}

/// Plays jobs as long as some are in line. Who has every part then has a result of each job.
fn draw_jobs<'a, B, P: Player<B>, R: Threads + Wait + Sync>(
    rt: &R,
    alloc: Global,
    player: &P,
    me: Runner<'_, 'a, B>,
    done: Vec<JobDone>,
) -> Result<(Drawer<'a, B>, Vec<JobDone>), OutOfMemory>
    requires me { IsPassOf me.line.now me.pass × (0 < (view me.pass).parts) × (view me.pass ≡ hand (view me.pass).parts (view me.pass).scripts (jobs_of_results done.items)) }
    requires done { All (IsPlayed (P.fits player.now) (view me.pass).scripts) done.items }
    ensures me { IfOk result (λ r. IsPassOf me.entry.line.now r.0 × (view r.0 ≡ hand (view me.entry.pass).parts (view me.entry.pass).scripts (jobs_of_results r.1.items))) }
    ensures played { IfOk result (λ r. All (IsPlayed (P.fits player.now) (view me.entry.pass).scripts) r.1.items) }
    ensures whole { IfOk result (λ r. (view me.entry.pass).parts ≡ 8 → AreBelow (length (view me.entry.pass).scripts) (jobs_of_results r.1.items)) }
{
    let Runner { line, mut pass } = me;
    let mut mine = CachePadded::new(done);
    for _ in rt.forever() {
        let Some(job) = draw(rt, line, &mut pass) else {
            return Ok((pass, mine.into_inner()));
        };
        match mine.push(play_one(rt, alloc, player, job)) {
            Ok(()) => {}
            Err(_) => return Err(OutOfMemory),
        }
    }
    unreachable!()
}

/// Plays jobs on `runners` runners, the first of them in this thread.
#[cycle(runners)]
fn run_on<'a, B: Send + Sync, P: Player<B> + Sync, R: Threads + Wait + Sync>(
    rt: &R,
    alloc: Global,
    player: &P,
    mut me: Runner<'_, 'a, B>,
    runners: u32,
) -> Result<(Drawer<'a, B>, Vec<JobDone>), OutOfMemory>
    requires me { IsPassOf me.line.now me.pass × (view me.pass ≡ hand (view me.pass).parts (view me.pass).scripts []) }
    requires runners { (1 ≤ runners) × (runners ≤ (view me.pass).parts) }
    ensures me { IfOk result (λ r. IsPassOf me.entry.line.now r.0 × (view r.0 ≡ hand (view me.entry.pass).parts (view me.entry.pass).scripts (jobs_of_results r.1.items))) }
    ensures played { IfOk result (λ r. All (IsPlayed (P.fits player.now) (view me.entry.pass).scripts) r.1.items) }
{
    if runners == 1 {
        return draw_jobs(rt, alloc, player, me, Vec::new(alloc));
    }
    let line = me.line;
    let pass = line.another::<Another>(&mut me.pass);
    let (theirs, mine) = beside(rt, alloc, player, Runner { line, pass }, me, runners - 1);
    let (other, mut more) = theirs?;
    let (mut me, mut done) = mine?;
    line.absorb::<Back>(&mut me, other);
    match done.append(&mut more) {
        Ok(()) => Ok((me, done)),
        Err(_) => Err(OutOfMemory),
    }
}

/// One runner in a thread of its own, or in this one if none can be made, beside the others.
#[cycle(runners)]
fn beside<'a, B: Send + Sync, P: Player<B> + Sync, R: Threads + Wait + Sync>(
    rt: &R,
    alloc: Global,
    player: &P,
    other: Runner<'_, 'a, B>,
    me: Runner<'_, 'a, B>,
    rest: u32,
) -> (
    Result<(Drawer<'a, B>, Vec<JobDone>), OutOfMemory>,
    Result<(Drawer<'a, B>, Vec<JobDone>), OutOfMemory>,
)
    requires other { IsPassOf other.line.now other.pass × (view other.pass ≡ hand 1 (view other.pass).scripts []) }
    requires me { IsPassOf me.line.now me.pass × (view me.pass ≡ hand (view me.pass).parts (view me.pass).scripts []) }
    requires rest { (1 ≤ rest) × (rest ≤ (view me.pass).parts) }
    ensures other { IfOk result.0 (λ r. IsPassOf other.entry.line.now r.0 × (view r.0 ≡ hand 1 (view other.entry.pass).scripts (jobs_of_results r.1.items)) × All (IsPlayed (P.fits player.now) (view other.entry.pass).scripts) r.1.items) }
    ensures me { IfOk result.1 (λ r. IsPassOf me.entry.line.now r.0 × (view r.0 ≡ hand (view me.entry.pass).parts (view me.entry.pass).scripts (jobs_of_results r.1.items)) × All (IsPlayed (P.fits player.now) (view me.entry.pass).scripts) r.1.items) }
{
    let theirs = move ||
        requires { IsSync R.row × IsSync P.row × IsPassOf other.line.now other.pass × (view other.pass ≡ hand 1 (view other.pass).scripts []) }
        ensures { IfOk result (λ r. IsPassOf other.entry.line.now r.0 × (view r.0 ≡ hand 1 (view other.entry.pass).scripts (jobs_of_results r.1.items)) × All (IsPlayed (P.fits player.entry.now) (view other.entry.pass).scripts) r.1.items) }
    { draw_jobs(rt, alloc, player, other, Vec::new(alloc)) };
    let mine = move ||
        requires { IsSync R.row × IsSync P.row × IsPassOf me.line.now me.pass × (view me.pass ≡ hand (view me.pass).parts (view me.pass).scripts []) × (1 ≤ rest) × (rest ≤ (view me.pass).parts) }
        ensures { IfOk result (λ r. IsPassOf me.entry.line.now r.0 × (view r.0 ≡ hand (view me.entry.pass).parts (view me.entry.pass).scripts (jobs_of_results r.1.items)) × All (IsPlayed (P.fits player.entry.now) (view me.entry.pass).scripts) r.1.items) }
    { run_on(rt, alloc, player, me, rest) };
    thread::join(rt, theirs, mine)
}

/// Plays each job of the batch once, on so many runners, which are 1 to 8. Entry j has job j and what its play
/// answered. Each runner but the caller has a thread of its own; one that can't be started is run by the caller,
/// after its own. Refused only if there is no memory.
pub fn run_jobs<B: Send + Sync, P: Player<B> + Sync, R: Threads + Wait + Sync>(
    rt: &R,
    alloc: Global,
    batch: Batch<'_, B>,
    runners: u32,
    player: &P,
) -> Result<Vec<JobDone>, OutOfMemory>
    requires { (1 ≤ runners) × (runners ≤ 8) }
    ensures { IfOk result (λ done. ArePlayed (P.fits player.now) batch.entry done.items) }
{
    let (line, pass) = match Line::ruled(alloc, batch.jobs.len().max(1)) {
        Ok(made) => made,
        Err(_) => return Err(OutOfMemory),
    };
    let pass = put_all(rt, &line, pass, batch.jobs);
    let (pass, done) = run_on(rt, alloc, player, Runner { line: &line, pass }, runners)?;
    // Whoever has every part, and finds nothing in line, knows that each job was played once.
    let (_, mut done) = draw_jobs(rt, alloc, player, Runner { line: &line, pass }, done)?;
    done.sort_unstable_by_key(|d| d.job);
    Ok(done)
}
