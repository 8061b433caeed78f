// A law over definitions: it is the contract of a function that does nothing.
ghost use Rattle.schedule_check.specs.Laws.{RunsAreAccepted};

/// Each list of events that the core runs without refusing one is accepted as a schedule, with the end of the
/// core's run.
#[tactic(auto, using(crate::proofs::Accepting::runs_accepted))]
pub fn runs_are_accepted()
    ensures { RunsAreAccepted }
{}
