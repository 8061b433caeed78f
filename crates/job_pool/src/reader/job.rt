//! One job of a batch.
ghost use Rattle.std.specs.Prelude.{◌≡◌};

use std::marker::{Model, PhantomData};

/// A job of a batch with the seal `B`: its number, and the script that it plays, a slice of the source. Only the
/// reader of batches makes one.
#[derive(Drop)]
pub struct Job<'a, B> {
    pub(super) number: u32,
    pub(super) script: &'a [u8],
    pub(super) seal: PhantomData<B>,
}

impl<'a, B> Model for Job<'a, B> {
    ghost use Rattle.job_pool.specs.Scripts.{Scripted, scripted};

    ghost Value = { Scripted };

    ghost view = { λ j. scripted j.number j.script.now };
}

impl<'a, B> Job<'a, B> {
    /// The number of the job, counted from 0.
    pub fn number(&self) -> u32
        ensures { result ≡ self.now.number }
    {
        self.number
    }

    /// The script of the job.
    pub fn script(&self) -> &[u8]
        ensures { result.now ≡ self.now.script }
    {
        self.script
    }
}
