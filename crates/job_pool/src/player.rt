//! Who plays a job.
ghost use Rattle.std.specs.Prelude.{ℕ, List};
ghost use Rattle.std.specs.Thread.{IsSync};

use crate::reader::Job;
use crate::text::Text;
use std::alloc::Global;
use std::sync::Wait;
use std::thread::Threads;

/// Plays the scripts of jobs with the seal `B`, and answers with a status and a text.
pub trait Player<B> {
    /// Which status and text this player may answer for a script.
    ghost fits: { Self → List ℕ → ℕ → List ℕ → Type 0 };

    /// Plays one job, and spends it: its status and its text, which fit the job's script. It may start threads that
    /// share the runtime.
    fn play_job<R: Threads + Wait + Sync>(
        &self,
        rt: &R,
        alloc: Global,
        job: Job<'_, B>,
    ) -> (u8, Text)
        requires { IsSync R.row }
        ensures { Self.fits self.now job.entry.script result.0 result.1 };
}
