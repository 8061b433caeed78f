//! A play of a job, and what the job answered.
ghost use Rattle.std.specs.Prelude.{◌≡◌};
ghost use Rattle.std.specs.Thread.{IsSync};

use crate::player::Player;
use crate::reader::Job;
use crate::text::Text;
use std::alloc::Global;
use std::sync::Wait;
use std::thread::Threads;

/// That a job was spent by its play. Nothing outside this file makes it, and nothing copies it.
#[derive(Drop)]
struct Spent;

/// What a job answered. Only a play makes one.
#[derive(Drop)]
pub struct JobDone {
    /// The number of the job, counted from 0.
    pub job: u32,
    /// The status that its player answered.
    pub status: u8,
    /// The text that its player answered.
    pub text: Text,
    spent: Spent,
}

/// Plays the job, and spends it.
pub fn play_one<B, P: Player<B>, R: Threads + Wait + Sync>(
    rt: &R,
    alloc: Global,
    player: &P,
    job: Job<'_, B>,
) -> JobDone
    ensures job { result.job ≡ job.entry.number }
    ensures fits { P.fits player.now job.entry.script result.status result.text }
{
    let number = job.number();
    let (status, text) = player.play_job(rt, alloc, job);
    JobDone {
        job: number,
        status,
        text,
        spent: Spent,
    }
}
