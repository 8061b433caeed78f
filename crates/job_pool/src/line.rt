//! How jobs are put in line, and drawn.
ghost use Rattle.std.specs.Prelude.{◌≡◌, ℕ, List, ◌+◌, ◌<◌, ◌≤◌, [], ◌∷◌, ◌++◌, map, length, MatchOption};
ghost use Rattle.crossbeam_queue.specs.Passes.{view, IsPassOf, ruled_capacity};
ghost use Rattle.crossbeam_queue.specs.Fifo.{Held};
ghost use Rattle.job_pool.specs.Draws.{hand, total, total_from, IsOneOf};
ghost use Rattle.job_pool.specs.Scripts.{Scripted, AreNumbered};

use crate::draws::{Draw, Drawer, Line, Put};
use crate::reader::Job;
use std::sync::Wait;

/// Puts the jobs in line, in order.
pub fn put_all<'a, B, R: Wait>(
    rt: &R,
    line: &Line<'a, B>,
    mut me: Drawer<'a, B>,
    jobs: Vec<Job<'a, B>>,
) -> Drawer<'a, B>
    requires me { IsPassOf line.now me × (view me ≡ hand 8 [] []) }
    requires room { length jobs.items ≤ ruled_capacity line.now }
    requires order { AreNumbered 0 jobs.items }
    ensures { IsPassOf line.now result × (view result ≡ hand 8 (map (λ j. j.script) jobs.entry.items) []) }
{
    for job in jobs {
        match line.push_as::<Put, R>(rt, &mut me, job) {
            Ok(()) => {}
            Err(_) => unreachable!(),
        }
    }
    me
}

/// Draws a job that nobody has drawn. If none is in line, who has every part knows that all were drawn.
pub fn draw<'a, B, R: Wait>(
    rt: &R,
    line: &Line<'a, B>,
    me: &mut Drawer<'a, B>,
) -> Option<Job<'a, B>>
    requires me { IsPassOf line.now me.old × (0 < (view me.old).parts) }
    ensures me { IsPassOf line.now me.new }
    ensures drawn { MatchOption result
        ((view me.new ≡ view me.old) × Held 0 (λ (items : List Scripted). (view me.old).parts ≡ 8 → (h : ℕ → ℕ) → total h (view me.old).drawn + total (λ j. h j.number) items ≡ total_from h 0 (length (view me.old).scripts)))
        (λ job. IsOneOf (view me.old).scripts job × (view me.new ≡ hand (view me.old).parts (view me.old).scripts ((view me.old).drawn ++ job.number ∷ []))) }
{
    line.pop_as::<Draw, R>(rt, me)
}
