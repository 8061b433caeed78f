// Laws over what `play_words` promises: each is the contract of a function that does nothing.
ghost use Rattle.play_words.specs.Following.{AnswersFollow, StatusesFollow};
ghost use Rattle.play_words.specs.Laws.{ConversionsAnswer, ConversionsRunAlike, DumpsAlike, DumpsAreReached, DumpsTellSurvivors, FinalHeapsAreReached, LoadsAlike, OneFinalHeap, RunsAlike};

/// Two runs of one script with status 0, without `--place`, write the same bytes, whatever their other options.
pub fn runs_alike()
    ensures { RunsAlike }
{}

/// Of a conversion `run` may write what it may of the source, with the same status, whatever the options.
#[tactic(auto, using(crate::proofs::AlikeTexts::conversions_answer))]
pub fn conversions_answer()
    ensures { ConversionsAnswer }
{}

/// A run of a conversion and one of its source with status 0, without `--place`, write the same bytes.
#[tactic(auto, using(crate::proofs::AlikeTexts::conversions_run_alike))]
pub fn conversions_run_alike()
    ensures { ConversionsRunAlike }
{}

/// A script has one final heap.
#[tactic(auto, using(crate::proofs::FinalHeap::One::one_final))]
pub fn one_final_heap()
    ensures { OneFinalHeap }
{}

/// Two dumps of one script are the same.
#[tactic(auto, using(crate::proofs::Meant::dumps_alike))]
pub fn dumps_alike()
    ensures { DumpsAlike }
{}

/// Two loads with the same numbers write the same text.
pub fn loads_alike()
    ensures { LoadsAlike }
{}

/// Each record of the heap at the end of a play is reached from a variable.
pub fn final_heaps_are_reached()
    ensures { FinalHeapsAreReached }
{}

/// In what `dump` writes `census` counts no record as unreached.
#[tactic(auto, using(crate::proofs::Reached::dumps_reached))]
pub fn dumps_are_reached()
    ensures { DumpsAreReached }
{}

/// Of what `dump` writes `undump` lists the survivors that `run` prints, and `census` counts them.
pub fn dumps_tell_survivors()
    ensures { DumpsTellSurvivors }
{}

/// What is written answers the words, by one relation for all commands.
#[tactic(auto, using(crate::proofs::Promised::answers_follow))]
pub fn answers_follow()
    ensures { AnswersFollow }
{}

/// A whole text has one of the statuses that its command may have if nothing fails.
#[tactic(auto, using(crate::proofs::Promised::statuses_follow))]
pub fn statuses_follow()
    ensures { StatusesFollow }
{}
