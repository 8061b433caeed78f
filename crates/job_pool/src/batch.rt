//! A batch of jobs.
ghost use Rattle.std.specs.Prelude.{◌≡◌, ◌≤◌, map, length};
ghost use Rattle.job_pool.specs.Scripts.{AreNumbered};

use crate::reader::Job;
use std::marker::Model;

/// The jobs of a source, at most 64. Each is a slice of the source, and has the seal `B` of its reading.
#[derive(Drop)]
pub struct Batch<'a, B> {
    pub(crate) jobs: Vec<Job<'a, B>>,
}

impl<'a, B> Model for Batch<'a, B> {
    ghost use Rattle.std.specs.Prelude.{ℕ, List, map, ◌≤◌, vec_len};
    ghost use Rattle.job_pool.specs.Scripts.{AreNumbered};

    ghost Value = { List (List ℕ) };

    ghost view = { λ b. map (λ j. j.script) b.jobs.items };

    ghost invariant = { λ b. AreNumbered 0 b.jobs.items × (vec_len b.jobs ≤ 64) };
}

impl<'a, B> Batch<'a, B> {
    /// The jobs, in order.
    pub fn jobs(&self) -> &[Job<'a, B>]
        ensures jobs { map (λ j. j.script) result.now ≡ self.now }
        ensures order { AreNumbered 0 result.now }
        ensures number { length result.now ≤ 64 }
    {
        self.jobs.as_slice()
    }
}
