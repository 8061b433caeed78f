//! The line of jobs that runners draw from, and its rule.
use crate::reader::Job;
use crossbeam_queue::protocol::{Join, Lesson, Outcome, Protocol, Split};
use crossbeam_queue::{Pass, RuledArrayQueue};
use std::collections::LinkedList;

/// What a runner drew, the scripts of the jobs in line, and its parts of the right to know the whole. No value of
/// it is made.
pub struct Hand {
    pub parts: u8,
    pub scripts: LinkedList<LinkedList<u8>>,
    pub drawn: LinkedList<u32>,
}

/// The line of jobs, by its rule.
pub struct Draws;

impl<'a, B> Protocol<Job<'a, B>, Hand> for Draws {
    ghost use Rattle.std.specs.Prelude.{[]};
    ghost use Rattle.job_pool.specs.Draws.{hand, Drawn};

    ghost holds = { Drawn };

    ghost first = { hand 8 [] [] };
}

/// A runner more, with one part.
pub struct Another;

impl Split<Hand> for Another {
    ghost use Rattle.std.specs.Prelude.{◌-◌, []};
    ghost use Rattle.job_pool.specs.Draws.{hand};

    ghost left = { λ v. hand (v.parts - 1) v.scripts v.drawn };

    ghost right = { λ v. hand 1 v.scripts [] };
}

/// A runner gives back what it drew.
pub struct Back;

impl Join<Hand> for Back {
    ghost use Rattle.std.specs.Prelude.{◌+◌, ◌++◌, []};
    ghost use Rattle.job_pool.specs.Draws.{hand};

    ghost both = { λ v w. hand (v.parts + w.parts) v.scripts (v.drawn ++ w.drawn) };

    ghost spent = { hand 0 [] [] };
}

/// The next job is put in line.
pub struct Put;

impl<'a, B> Outcome<Job<'a, B>, Hand> for Put {
    ghost use Rattle.std.specs.Prelude.{◌≡◌, ◌++◌, [], ◌∷◌};
    ghost use Rattle.job_pool.specs.Draws.{hand};

    ghost then = { λ v x w. w ≡ hand v.parts (v.scripts ++ x.script ∷ []) v.drawn };
}

impl<'a, B> Lesson<Job<'a, B>, Hand> for Put {
    ghost use Rattle.std.specs.Prelude.{◌≡◌, length};

    ghost fact = { λ v items. length items ≡ length v.scripts };
}

/// A job is drawn. If none is in line, who has every part knows that all were drawn.
pub struct Draw;

impl<'a, B> Outcome<Job<'a, B>, Hand> for Draw {
    ghost use Rattle.std.specs.Prelude.{◌≡◌, ◌++◌, [], ◌∷◌};
    ghost use Rattle.job_pool.specs.Draws.{hand, IsOneOf};

    ghost then = { λ v x w. IsOneOf v.scripts x × (w ≡ hand v.parts v.scripts (v.drawn ++ x.number ∷ [])) };
}

impl<'a, B> Lesson<Job<'a, B>, Hand> for Draw {
    ghost use Rattle.std.specs.Prelude.{◌≡◌, ℕ, ◌+◌, length};
    ghost use Rattle.job_pool.specs.Draws.{total, total_from};

    ghost fact = { λ v items. v.parts ≡ 8 → (h : ℕ → ℕ) → total h v.drawn + total (λ j. h j.number) items ≡ total_from h 0 (length v.scripts) };
}

/// The jobs that are in line.
pub type Line<'a, B> = RuledArrayQueue<Job<'a, B>, Hand, Draws>;

/// What one runner knows of the line.
pub type Drawer<'a, B> = Pass<Job<'a, B>, Hand>;
