//! What each command writes is a clause of its own; the definition for `run` is in `specs/Running.antt`, and so on, and
//! `docs/HEADLINE.md` walks through it.
ghost use Rattle.std.specs.Prelude.{ℕ, ◌≡◌, ◌≢◌, ◌<◌, ◌≤◌, ◌-◌, ◌^◌, ◌⊎◌, ◌∷◌, [], map, Contains, IfSome, Some, None, true, false};
ghost use Rattle.std.specs.String.{string_bytes};
ghost use Rattle.std.specs.Io.KnownBytes.{Keeps};
ghost use Rattle.command_words.specs.Words.{Batch, Census, Convert, Dump, Gen, Load, Options, Run, Schedule, Undump};
ghost use Rattle.schedule_check.specs.Telling.{IsScheduleAnswer, status_of};
ghost use Rattle.gc_play.specs.Ending.{CommandEnds, number_of_status};
ghost use Rattle.gc_play.specs.Promise.{FromSource, HasItsText, OfSource, Wrote, WritesSome, enough_for, reads_source, wanted};
ghost use Rattle.play_words.specs.Answers.{IsAnswer};
ghost use Rattle.play_words.specs.Batching.{IsBatchAnswer};
ghost use Rattle.play_words.specs.Converting.{IsConvertAnswer};
ghost use Rattle.play_words.specs.Counting.{IsCensusAnswer};
ghost use Rattle.play_words.specs.Dumping.{IsDumpAnswer};
ghost use Rattle.play_words.specs.Generating.{IsGenAnswer};
ghost use Rattle.play_words.specs.Loading.{IsLoadAnswer};
ghost use Rattle.gc_play.specs.RunAnswers.{IsRunAnswer, IsUsageAnswer};
ghost use Rattle.play_words.specs.Running.{IsRunFull, IsRunText};
ghost use Rattle.play_words.specs.Undumping.{IsUndumpAnswer};
ghost use Rattle.gc_play.specs.Reading.{IsSpent, TakesAtMost};
ghost use Rattle.play_words.specs.Roomy.{AreFew, PlaysIn};
ghost use Rattle.plain_heap.specs.Sections.{Sections};
ghost use Rattle.play_report.specs.Causes.{AcrossSink};

use crate::commands::do_command;
use command_words::command_of;
use gc_play::{Gate, Status};
use play_report::{Sink, Source, write_usage};
use std::alloc::Global;
use std::sync::Wait;
use std::thread::Threads;

fn do_words<R: Threads + Wait + Sync, S: Source, K: Sink, G: Gate + Sync>(
    rt: &R,
    alloc: Global,
    words: &[String],
    source: &mut S,
    sink: &mut K,
    gate: &G,
) -> Status
    ensures ends { AcrossSink K.written K.faults (CommandEnds (IsAnswer (wanted (map string_bytes words.now)) (S.left source.old)) result
        (S.faults source.old) (S.faults source.new)) sink.old sink.new }
    ensures spent { reads_source (wanted (map string_bytes words.now)) ≡ true → HasItsText (number_of_status result)
        → IfSome (S.left source.old) (λ bytes. IsSpent (enough_for (wanted (map string_bytes words.now))) bytes (S.left source.new)) }
    ensures most { TakesAtMost (enough_for (wanted (map string_bytes words.now))) (S.left source.old) (S.left source.new) }
    ensures untouched { reads_source (wanted (map string_bytes words.now)) ≡ false → source.new ≡ source.old }
{
    match command_of(alloc, words) {
        Err(_) => Status::Memory,
        Ok(None) => Status::Usage.after(write_usage(sink)),
        Ok(Some(asked)) => do_command(rt, alloc, asked, source, sink, gate),
    }
}

/// All that the program does: takes the words, reads the source if their command reads one, writes to the sink, and
/// answers the status.
///
/// | Status | Meaning | Written |
/// |---|---|---|
/// | 0 | done | the command's text (`docs/SCRIPTS.md`) |
/// | 1 | the words ask for nothing | `usage: gcplay command [options]` |
/// | 2 | the input has a fault | the fault's number, name and place |
/// | 3 | `run`, `load` and `dump`: the heap was full | the section that found no cell, and how many commands each did |
/// | 4 | the source failed | nothing |
/// | 5 | the sink failed | a prefix of what was to be written |
/// | 6 | memory ran out | nothing |
/// | 7 | the schedule is refused | the line, the rule and its part |
pub fn play_words<R: Threads + Wait + Sync, S: Source, K: Sink, G: Gate + Sync>(
    rt: &R,
    alloc: Global,
    words: &[String],
    source: &mut S,
    sink: &mut K,
    gate: &G,
) -> u8
    requires source { S.faults source.old < 2 ^ 64 - 1 }
    requires sink { K.faults sink.old < 2 ^ 64 - 1 }

    ensures statuses { Contains (0 ∷ 1 ∷ 2 ∷ 3 ∷ 4 ∷ 5 ∷ 6 ∷ 7 ∷ []) result }

    // `run`, done: each transcript, exactly the objects reachable at the end, and if asked for, a legal cell of each
    // object.
    ensures run { (o : Options) → wanted (map string_bytes words.now) ≡ Some (Run o) → result ≡ 0
        → WritesSome (K.written sink.old) (K.written sink.new) (FromSource (IsRunText o) (S.left source.old)) }
    // `run`, full: a section that wants a new object, and positions at which the reachable objects fill all cells.
    ensures run_full { (o : Options) → wanted (map string_bytes words.now) ≡ Some (Run o) → result ≡ 3
        → WritesSome (K.written sink.old) (K.written sink.new) (FromSource (IsRunFull o) (S.left source.old)) }
    // `run`, with any status: a script without a fault was played, or its first fault is written.
    ensures run_or_fault { (o : Options) → wanted (map string_bytes words.now) ≡ Some (Run o)
        → Wrote (OfSource (IsRunAnswer o) (S.left source.old)) result (K.written sink.old) (K.written sink.new) }

    // The other commands, each by the definition of its text.
    ensures load { (o : Options) (number size : ℕ) → wanted (map string_bytes words.now) ≡ Some (Load o number size)
        → Wrote (IsLoadAnswer o number size) result (K.written sink.old) (K.written sink.new) }
    ensures generate { (number size : ℕ) → wanted (map string_bytes words.now) ≡ Some (Gen number size)
        → Wrote (IsGenAnswer number size) result (K.written sink.old) (K.written sink.new) }
    ensures convert { wanted (map string_bytes words.now) ≡ Some Convert
        → Wrote (OfSource IsConvertAnswer (S.left source.old)) result (K.written sink.old) (K.written sink.new) }
    ensures schedule { wanted (map string_bytes words.now) ≡ Some Schedule
        → Wrote (OfSource IsScheduleAnswer (S.left source.old)) result (K.written sink.old) (K.written sink.new) }
    ensures dump { (o : Options) → wanted (map string_bytes words.now) ≡ Some (Dump o)
        → Wrote (OfSource (IsDumpAnswer o) (S.left source.old)) result (K.written sink.old) (K.written sink.new) }
    ensures undump { wanted (map string_bytes words.now) ≡ Some Undump
        → Wrote (OfSource IsUndumpAnswer (S.left source.old)) result (K.written sink.old) (K.written sink.new) }
    ensures census { wanted (map string_bytes words.now) ≡ Some Census
        → Wrote (OfSource IsCensusAnswer (S.left source.old)) result (K.written sink.old) (K.written sink.new) }
    ensures batch { (o : Options) (runners : ℕ) → wanted (map string_bytes words.now) ≡ Some (Batch o runners)
        → Wrote (OfSource (IsBatchAnswer o) (S.left source.old)) result (K.written sink.old) (K.written sink.new) }

    // The usage is written exactly if the words ask for nothing.
    ensures usage { wanted (map string_bytes words.now) ≡ None → Wrote IsUsageAnswer result (K.written sink.old) (K.written sink.new) }
    ensures refused { wanted (map string_bytes words.now) ≡ None → (result ≡ 1) ⊎ (result ≡ 5) ⊎ (result ≡ 6) }
    ensures asked { result ≡ 1 → wanted (map string_bytes words.now) ≡ None }

    // If nothing fails, one of these texts is written whole, unless memory runs out.
    ensures complete { S.faults source.new ≡ S.faults source.old → K.faults sink.new ≡ K.faults sink.old → (result ≡ 6) ⊎ HasItsText result }

    // Nothing is left in the source, or it was too long and one byte more was taken than the input may have.
    ensures spent { reads_source (wanted (map string_bytes words.now)) ≡ true → HasItsText result
        → IfSome (S.left source.old) (λ bytes. IsSpent (enough_for (wanted (map string_bytes words.now))) bytes (S.left source.new)) }
    ensures most { TakesAtMost (enough_for (wanted (map string_bytes words.now))) (S.left source.old) (S.left source.new) }
    // `gen`, `load` and words that ask for nothing leave the source as it was.
    ensures untouched { reads_source (wanted (map string_bytes words.now)) ≡ false → source.new ≡ source.old }

    // A read fault comes only if the source's count rose; then only out of memory may come instead, and nothing is
    // written.
    ensures read_fault { result ≡ 4 → S.faults source.old < S.faults source.new }
    ensures read_rose { S.faults source.old < S.faults source.new → (result ≡ 4) ⊎ (result ≡ 6) }
    ensures silent { (result ≡ 4) ⊎ (result ≡ 6) → Keeps (K.written sink.old) (K.written sink.new) }

    // A write fault comes exactly if the sink's count rose, and else that count stays.
    ensures write_fault { result ≡ 5 → K.faults sink.old < K.faults sink.new }
    ensures write_rose { K.faults sink.old < K.faults sink.new → result ≡ 5 }
    ensures write_stays { result ≢ 5 → K.faults sink.new ≡ K.faults sink.old }

    // 3 doesn't come if the cells are more than may be reachable at once.
    ensures roomy { result ≡ 3 → (s : Sections) (cells : ℕ) → PlaysIn (wanted (map string_bytes words.now)) (S.left source.old) s cells → AreFew s cells }
    // So it never comes to `load` with 256 cells or more.
    ensures load_fits { (o : Options) (number size : ℕ) → wanted (map string_bytes words.now) ≡ Some (Load o number size) → 256 ≤ o.cells → result ≢ 3 }
    // 7 comes only to `schedule`, of a refused schedule.
    ensures refuses { result ≡ 7 → (wanted (map string_bytes words.now) ≡ Some Schedule) × IfSome (S.left source.old) (λ bytes. status_of bytes ≡ 7) }
{
    do_words(rt, alloc, words, source, sink, gate).code()
}
