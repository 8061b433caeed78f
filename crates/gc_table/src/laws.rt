// Laws of the words and of the plain heaps for which they stand: contracts of functions that do nothing.
ghost use Rattle.gc_table.specs.Laws.{StartMeetsRule, EventsKeepRule, StartStands, EventsKeepStands, PlainStepsAreInRange, OneMeaningChanges, OneCellIsNext, ReachableObjectsHaveCells, ReachableCellsHaveObjects, ClosedHeapsRan};

/// At the start the rule holds, whatever the plan.
pub fn rule_starts()
    ensures { StartMeetsRule }
{}

/// Each allowed event keeps the rule, if its step meets what is asked besides.
pub fn rule_is_kept()
    ensures { EventsKeepRule }
{}

/// The start stands for the empty heap of each section.
pub fn stands_starts()
    ensures { StartStands }
{}

/// Each such event keeps that the words stand for the plain heaps: a store changes its section's plain heap by one plain
/// step, any other step changes none.
#[tactic(auto, using(crate::proofs::Stands::StandsKept::stands_kept))]
pub fn stands_is_kept()
    ensures { EventsKeepStands }
{}

/// The plain step of a store is in range, as in a script.
#[tactic(auto, using(crate::proofs::Stands::StandsSeat::steps_in_range))]
pub fn plain_steps_are_in_range()
    ensures { PlainStepsAreInRange }
{}

/// A step of a section's seat changes what this section's words mean and no other's.
#[tactic(auto, using(crate::proofs::Stands::StandsStores::one_changes))]
pub fn one_meaning_changes()
    ensures { OneMeaningChanges }
{}

/// At most one cell in use of a section has no object yet.
#[tactic(auto, using(crate::proofs::Stands::StandsStores::one_next))]
pub fn one_cell_is_next()
    ensures { OneCellIsNext }
{}

/// Each reachable object has a reachable cell with its words.
pub fn reachable_objects_have_cells()
    ensures { ReachableObjectsHaveCells }
{}

/// A reachable cell has the words of a reachable object, never of one that is still to come.
pub fn reachable_cells_have_objects()
    ensures { ReachableCellsHaveObjects }
{}

/// What the seats of a closed heap did, each by its log, is one run of the core from the start to the words that
/// `close` gave. Each step found or stored the word of its entry, and every state on the way is sound.
#[tactic(auto, using(crate::proofs::History::Past::closed_ran))]
pub fn closed_heaps_ran()
    ensures { ClosedHeapsRan }
{}
