ghost use Rattle.gc_table.specs.Counting.{RaisesCounted, WinsTold};
ghost use Rattle.gc_table.specs.Finding.{StepsFind};
ghost use Rattle.gc_table.specs.AgreementLaws.{DeathTold, StartAgrees, EventsAgree, RunsAgree, NoneForgotten, ReadsTell, ReachedHaveCells, SameWords, UnsharedStores, ObjectsStay, WonOnce, FieldWonOnce, LostForGood};
ghost use Rattle.gc_table.specs.Lending.{OneObjectLent};
ghost use Rattle.gc_table.specs.OneOrder.{OneOrder};
ghost use Rattle.gc_table.specs.OpenRuns.{SeatsSeeRuns, SeatsShareRun, StepsFollow};
ghost use Rattle.gc_table.specs.Rooted.{RootFound};
ghost use Rattle.gc_table.specs.Runs.{NoneFreed};
ghost use Rattle.gc_table.specs.Sharing.{ThreadsShareOneHeap};
ghost use Rattle.gc_table.specs.Single.{CounterTold, LockHeld};
ghost use Rattle.gc_table.specs.Stamps.{OrderKept, StampsShareRuns};
ghost use Rattle.gc_table.specs.Threads.{ThreadsFreeNone};
ghost use Rattle.gc_table.specs.Weak.{HistoriesKeepWeak, WeakRemembered};

/// No event of a run of the core frees a cell that is reachable just before it.
#[tactic(auto, using(crate::proofs::Freeing::none_freed))]
pub fn none_freed()
    ensures { NoneFreed }
{}

/// In a closed heap no event of its threads freed a cell that was reachable just before it.
#[tactic(auto, using(crate::proofs::Freeing::threads_free_none))]
pub fn threads_free_none()
    ensures { ThreadsFreeNone }
{}

/// What threads did with a closed heap is one run of the core, which keeps each thread's order. After each step the
/// words agree with one plain heap, and each step found what this heap had just before.
#[tactic(auto, using(crate::proofs::Lending::threads_share_one_heap))]
pub fn threads_share_one_heap()
    ensures { ThreadsShareOneHeap }
{}

/// A step in an open heap found what one plain heap had, after a run with the seat's log as a part.
pub fn steps_find()
    ensures { StepsFind }
{}

/// A later step of a seat finds its word after a history that goes on from that of an earlier one.
#[tactic(auto, using(crate::proofs::Stamped::steps_follow))]
pub fn steps_follow()
    ensures { StepsFollow }
{}

/// What a seat of an open heap has seen is one run of the core, with the seat's whole log as a part. After each step the
/// words agree with one plain heap, and each step found what this heap had just before.
#[tactic(auto, using(crate::proofs::Stamped::seats_see_runs))]
pub fn seats_see_runs()
    ensures { SeatsSeeRuns }
{}

/// At every moment what all seats have done so far is one run of the core, each seat's log being its part of it. After
/// each step the words agree with one plain heap, and each step found what this heap had just before.
pub fn seats_share_run()
    ensures { SeatsShareRun }
{}

/// Threads agree on the order in which others store, in an open heap too: if two values change only from 0, and one thread
/// finds 1 in the first and then 0 in the second, no other finds 1 in the second and then 0 in the first.
pub fn one_order()
    ensures { OneOrder }
{}

/// If a seat goes on from a stamp of another, what that one had done is a part of the same run.
pub fn stamps_share_runs()
    ensures { StampsShareRuns }
{}

/// What a seat does after it was told a stamp stands behind all that the stamp's seat had done, in each run that goes on
/// from what it has seen.
pub fn order_kept()
    ensures { OrderKept }
{}

/// If section 0's seat stores at most once in a variable, all who read it find the same object, or nil before.
pub fn one_object_lent()
    ensures { OneObjectLent }
{}

/// If section 0's seat stores an object in a variable before it moves the season on, and nothing there afterwards, no
/// seat that reads it finds nil.
pub fn root_found()
    ensures { RootFound }
{}

/// A value that only exchanges for the next number change has grown by the number won.
#[tactic(auto, using(crate::proofs::Counting::raises_counted))]
pub fn raises_counted()
    ensures { RaisesCounted }
{}

/// By its thread's log an exchange of a value was won exactly if the plain heap had the expected value just before.
pub fn wins_told()
    ensures { WinsTold }
{}

/// If threads share one object and only exchange its value for the next number, it ends as the number of exchanges that
/// their logs say were won.
pub fn counter_told()
    ensures { CounterTold }
{}

/// If threads share one object as a lock (who is outside only exchanges its value 0 for 1, who came in only 1 for 0),
/// no two are inside at any moment.
pub fn lock_held()
    ensures { LockHeld }
{}

/// The state in which nothing has happened agrees with an empty heap.
pub fn start_agrees()
    ensures { StartAgrees }
{}

/// Each allowed event keeps the agreement with the heap, which changes by the event.
pub fn events_agree()
    ensures { EventsAgree }
{}

/// Every run keeps the agreement with the heap that its events make.
#[tactic(auto, using(crate::proofs::Kept::runs_agree))]
pub fn runs_agree()
    ensures { RunsAgree }
{}

/// What a mutator reads of an object that it knows is what the heap has at that moment, whoever stored it.
pub fn reads_tell()
    ensures { ReadsTell }
{}

/// After every run each object that roots reach has a reachable cell in use with its words.
pub fn reached_have_cells()
    ensures { ReachedHaveCells }
{}

/// What a mutator may conclude to be gone, since it asked for its cell and found nothing or another object there, no
/// path leads to, then or ever after.
#[tactic(auto, using(crate::proofs::Losing::lost_for_good))]
pub fn lost_for_good()
    ensures { LostForGood }
{}

/// Who asks for a cell, finds it published and then reads the identity of its object has a weak reference: whoever asks
/// for the cell later, and finds nothing or another object there, knows that this one is lost.
pub fn death_told()
    ensures { DeathTold }
{}

/// Once a seat's log has a weak reference, its object is in that cell and published, or gone, whatever happens.
pub fn histories_keep_weak()
    ensures { HistoriesKeepWeak }
{}

/// So it is at each later step of this seat.
pub fn weak_remembered()
    ensures { WeakRemembered }
{}

/// No step forgets an object, and only a store in it, or an exchange that finds what it expects, changes one.
#[tactic(auto, using(crate::proofs::Forgetting::none_forgotten))]
pub fn none_forgotten()
    ensures { NoneForgotten }
{}

/// An object stays as it is over events none of which stores in it or wins an exchange there.
#[tactic(auto, using(crate::proofs::Winning::objects_stay))]
pub fn objects_stay()
    ensures { ObjectsStay }
{}

/// Once a seat has won an exchange of a value, every other that expects the same finds what this one stored, until
/// somebody stores in the object.
pub fn won_once()
    ensures { WonOnce }
{}

/// Once a seat has won an exchange of a reference, every other in this field finds what this one stored, until somebody
/// stores in the object.
pub fn field_won_once()
    ensures { FieldWonOnce }
{}

/// After every run two references to cells in use are one word exactly if they refer to one object.
#[tactic(auto, using(crate::proofs::Exchanges::same_words))]
pub fn same_words()
    ensures { SameWords }
{}

/// If a heap isn't shared, no seat stores in another section's object.
pub fn unshared_stores()
    ensures { UnsharedStores }
{}
