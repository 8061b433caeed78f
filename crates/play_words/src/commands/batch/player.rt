ghost use Rattle.std.specs.Thread.{IsSync};
ghost use Rattle.command_words.specs.Commands.{options_of};
ghost use Rattle.play_end.specs.Answers.{AreInRange};
ghost use Rattle.play_words.specs.Batching.{FitsJob};

use gc_play::{OpenGate, Status, play_bytes};
use job_pool::{Job, Player, Text};
use play_end::Options;
use play_report::{Failed, Sink};
use std::alloc::Global;
use std::sync::Wait;
use std::thread::Threads;

/// Keeps what is written; fails only if memory runs out.
#[derive(Drop)]
struct TextSink {
    text: Text,
    faults: u64,
}

impl Sink for TextSink {
    ghost use Rattle.std.specs.Prelude.{Some};

    ghost written = { λ s. Some s.text };

    ghost faults = { λ s. s.faults };

    fn write(&mut self, piece: &[u8]) -> Result<usize, Failed> {
        match self.text.append(piece) {
            Ok(()) => Ok(piece.len()),
            Err(_) => {
                self.faults = self.faults.saturating_add(1);
                Err(Failed)
            }
        }
    }
}

/// The seal of the batch that the command plays.
#[derive(Drop)]
pub struct Seal;

/// Plays scripts as the options say.
#[derive(Drop)]
pub struct ScriptPlayer {
    pub options: Options,
    pub ghost range: { AreInRange options },
}

impl Player<Seal> for ScriptPlayer {
    ghost use Rattle.command_words.specs.Commands.{options_of};
    ghost use Rattle.play_words.specs.Batching.{FitsJob};

    ghost fits = { λ player script status text. FitsJob (options_of player.options) script status text };

    /// Plays the script as `run` does. If memory runs out, the status is 6 and the text empty.
    fn play_job<R: Threads + Wait + Sync>(
        &self,
        rt: &R,
        alloc: Global,
        job: Job<'_, Seal>,
    ) -> (u8, Text)
        requires { IsSync R.row }
        ensures { FitsJob (options_of self.now.options) job.entry.script result.0 result.1 }
    {
        let mut sink = TextSink {
            text: Text::make(alloc),
            faults: 0,
        };
        match play_bytes(rt, alloc, job.script(), &self.options, &mut sink, &OpenGate) {
            Status::WriteFault | Status::Memory => (Status::Memory.code(), Text::make(alloc)),
            status => (status.code(), sink.text),
        }
    }
}
