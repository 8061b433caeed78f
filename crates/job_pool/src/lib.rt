//! A pool of jobs: many jobs played by several runners, each job once.
//!
//! A batch is one source with many scripts ([`read_batch`]), and each of them is a [`Job`]. A runner is a thread
//! that draws jobs from a line and plays them. [`run_jobs`] plays a batch on so many runners: entry j of its answer
//! is the result of job j, whichever runner played it. The [`Player`] says by its relation `fits` what a result may
//! be.
//!
//! # Why each job is played once
//!
//! Only `read_batch` makes jobs, one for each script (clause `reads`), and nothing copies one. `run_jobs` takes the
//! batch by value, and a play spends the job that it plays. Nothing but a play makes a [`JobDone`], and `run_jobs`
//! answers as many as there are jobs. So the types say how often, and no clause: a body that plays a job twice, or
//! makes up a result, does not compile. Nor does one that reads the same bytes as a second batch and plays its jobs
//! first: `read_batch` spends a seal, whose type stays with the jobs, and a player plays jobs of one seal. `run_jobs`
//! is written for every seal, so it has none.
//!
//! That entry j is a result of job j is a clause of `run_jobs`. The line is a queue under a rule
//! (`specs/Draws.antt`): the numbers of the jobs drawn, together with those in line, are the numbers of all jobs,
//! each once; and a job in line has the script of its number. The first is said by weights: however a number is
//! weighed, the drawn ones and those in line weigh as much as all.
//!
//! A runner knows only what it drew itself. The right to know the whole is cut into eight parts, one a runner at
//! most, and a part comes back with what was drawn. Whoever has all eight parts and finds no job in line knows that
//! each was drawn once.
//!
//! Each runner keeps its results on a cache line of its own (`CachePadded`), of which nothing is claimed.
#![tactic(auto)]

mod batch;
mod done;
mod draws;
mod fault;
mod line;
mod player;
mod reader;
mod run;
mod text;

pub use batch::Batch;
pub use done::JobDone;
pub use fault::BatchError;
pub use player::Player;
pub use reader::{Job, read_batch};
pub use run::run_jobs;
pub use text::Text;
