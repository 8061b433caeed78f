//! Laws about what happened to a heap, by the names of its objects.
#![tactic(auto)]

ghost use Rattle.heap_laws.specs.Ends.{EndsStand};
ghost use Rattle.heap_laws.specs.Labels.{EventsAct, HeapsNeedNoWords};
ghost use Rattle.heap_laws.specs.Lent.{LentByLog};
ghost use Rattle.heap_laws.specs.LentLocks.{LockByLog};
ghost use Rattle.heap_laws.specs.Locks.{CounterByName, GuardsByName, LockByName, WholeByName};
ghost use Rattle.heap_laws.specs.Moments.{MomentsFound};
ghost use Rattle.heap_laws.specs.Named.{NamedLogs};
ghost use Rattle.heap_laws.specs.Pairs.{PairByLog};
ghost use Rattle.heap_laws.specs.Places.{NoneInUseFreed, ObjectsKeepCells};
ghost use Rattle.heap_laws.specs.Variables.{StepsRead, VariablesNamed, VariablesRead};

/// What threads did with a closed heap, and what led to a step on an open one, is a history. After each of its events the
/// words agree with one plain heap.
#[tactic(auto, using(crate::proofs::Moments::moments_found))]
pub fn moments_found()
    ensures { MomentsFound }
{}

/// Each variable that a seat has refers to what the plain heap has there.
#[tactic(auto, using(crate::proofs::Variables::variables_named))]
pub fn variables_named()
    ensures { VariablesNamed }
{}

/// What a mutator reads by way of a variable is of the object to which the plain heap's variable refers.
#[tactic(auto, using(crate::proofs::Variables::variables_read))]
pub fn variables_read()
    ensures { VariablesRead }
{}

/// So it is as a thread takes a step on an open heap, whatever others do.
#[tactic(auto, using(crate::proofs::Variables::steps_read))]
pub fn steps_read()
    ensures { StepsRead }
{}

/// An object that is reached keeps its cell, and as long as it is in use no other is there.
#[tactic(auto, using(crate::proofs::Places::objects_keep_cells))]
pub fn objects_keep_cells()
    ensures { ObjectsKeepCells }
{}

/// A cell to which a path leads is in use, be it published or not, and no event frees it.
#[tactic(auto, using(crate::proofs::Places::none_in_use_freed))]
pub fn none_in_use_freed()
    ensures { NoneInUseFreed }
{}

/// Each event does to the plain heap what an act of its section does, which no word tells.
#[tactic(auto, using(crate::proofs::Labels::events_act))]
pub fn events_act()
    ensures { EventsAct }
{}

/// The plain heap after each event of a history is made by a list of acts alone.
#[tactic(auto, using(crate::proofs::Labels::heaps_need_no_words))]
pub fn heaps_need_no_words()
    ensures { HeapsNeedNoWords }
{}

/// The words of a closed heap that doesn't share objects are the plain heaps that its seats' calls made.
#[tactic(auto, using(crate::proofs::Ends::ends_stand))]
pub fn ends_stand()
    ensures { EndsStand }
{}

/// A history goes on from each of its moments as a run. What a seat did to an object is a part of its log, in order.
#[tactic(auto, using(crate::proofs::Named::named_logs))]
pub fn named_logs()
    ensures { NamedLogs }
{}

/// An object whose value is only raised, among whatever others, grows by the exchanges that the seats' logs on it say
/// were won.
#[tactic(auto, using(crate::proofs::Counters::counter_by_name))]
pub fn counter_by_name()
    ensures { CounterByName }
{}

/// If threads take an object for a lock, among whatever others, no two are inside at any moment.
pub fn lock_by_name()
    ensures { LockByName }
{}

/// While a seat is inside, nobody else changes what the lock guards.
pub fn guards_by_name()
    ensures { GuardsByName }
{}

/// If each visit restores a property of what the lock guards, whoever comes in finds it, for every schedule.
pub fn whole_by_name()
    ensures { WholeByName }
{}

/// Into which variables a seat put what section 0 lends, its log tells.
pub fn lent_by_log()
    ensures { LentByLog }
{}

/// If threads take for a lock what section 0 lends, and may make whatever other objects, no two are inside, by their
/// logs alone.
pub fn lock_by_log()
    ensures { LockByLog }
{}

/// If each visit of a lent lock stores its fields 0 and 1 alike, whoever comes in finds them alike, for every schedule.
pub fn pair_by_log()
    ensures { PairByLog }
{}
