ghost use Rattle.std.specs.Prelude.{ℕ, ◌≡◌, ◌≢◌, ◌<◌, ◌-◌, ◌^◌, ◌⊎◌, [], ◌∷◌, Contains, IfSome, Some, false, true};
ghost use Rattle.std.specs.Io.KnownBytes.{Keeps};
ghost use Rattle.command_words.specs.Words.{Options, Run};
ghost use Rattle.gc_play.specs.Promise.{FromSource, HasItsText, HasPrefix, WritesSome, enough_for, reads_source, wanted};
ghost use Rattle.gc_play.specs.Reading.{IsSpent, TakesAtMost};
ghost use Rattle.play_words.specs.Answers.{IsAnswer};
ghost use Rattle.play_words.specs.Running.{IsRunText};
ghost use Rattle.gc_play.specs.Given.{words_behind};

use gc_play::OpenGate;
use play_report::{GatheredSink, Sink, Source};
use play_words::{given_words, play_words, settle};
use std::alloc::Global;
use std::env::Args;
use std::io;
use std::sync::Wait;
use std::thread::Threads;

/// Does what the words behind the program's name ask for, and gives the sink back with the status. If std tells no
/// words, they ask for nothing.
#[tactic(auto, using(crate::proofs::Handed::takes_none))]
pub fn play_given<R: Threads + Wait + Sync, S: Source, K: Sink + Drop>(
    rt: &R,
    alloc: Global,
    given: io::Result<Args>,
    source: &mut S,
    sink: K,
) -> (u8, K)
    requires source { S.faults source.old < 2 ^ 64 - 1 }
    requires sink { K.faults sink < 2 ^ 64 - 1 }
    ensures statuses { Contains (0 ∷ 1 ∷ 2 ∷ 3 ∷ 4 ∷ 5 ∷ 6 ∷ 7 ∷ []) result.0 }
    // What was handed on answers the words, whole, or with status 5 it is a prefix of an answer, or nothing.
    ensures answers { HasItsText result.0 → WritesSome (K.written sink) (K.written result.1) (IsAnswer (wanted (words_behind given)) (S.left source.old) result.0) }
    // `run` with status 0: a text of what the script means.
    ensures run { (o : Options) → wanted (words_behind given) ≡ Some (Run o) → result.0 ≡ 0
        → WritesSome (K.written sink) (K.written result.1) (FromSource (IsRunText o) (S.left source.old)) }
    ensures prefix { result.0 ≡ 5 → HasPrefix (K.written sink) (K.written result.1) (λ text. (text ≡ []) ⊎ ((status : ℕ) × IsAnswer (wanted (words_behind given)) (S.left source.old) status text)) }
    ensures silent { (result.0 ≡ 4) ⊎ (result.0 ≡ 6) → Keeps (K.written sink) (K.written result.1) }
    // Each fault comes only if its count rose; if the source's did, only a write fault or out of memory may come instead.
    ensures read_fault { result.0 ≡ 4 → S.faults source.old < S.faults source.new }
    ensures read_rose { S.faults source.old < S.faults source.new → (result.0 ≡ 4) ⊎ (result.0 ≡ 5) ⊎ (result.0 ≡ 6) }
    ensures write_fault { result.0 ≡ 5 → K.faults sink < K.faults result.1 }
    ensures write_stays { result.0 ≢ 5 → K.faults result.1 ≡ K.faults sink }
    // A source is read to the end of its text or of what decides; if the words don't ask for it, it stays as it was.
    ensures spent { reads_source (wanted (words_behind given)) ≡ true → HasItsText result.0
        → IfSome (S.left source.old) (λ bytes. IsSpent (enough_for (wanted (words_behind given))) bytes (S.left source.new)) }
    ensures most { TakesAtMost (enough_for (wanted (words_behind given))) (S.left source.old) (S.left source.new) }
    ensures untouched { reads_source (wanted (words_behind given)) ≡ false → source.new ≡ source.old }
{
    let Some(words) = given_words(alloc, given) else {
        return (6, sink);
    };
    let mut gathered = match GatheredSink::make(alloc, sink) {
        Ok(gathered) => gathered,
        Err((_, sink)) => return (6, sink),
    };
    let status = play_words(
        rt,
        alloc,
        words.as_slice(),
        source,
        &mut gathered,
        &OpenGate,
    );
    settle(status, gathered)
}
