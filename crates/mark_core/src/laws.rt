// Laws: the contract of each function, which does nothing, is a theorem on every state and event.
ghost use Rattle.mark_core.specs.Laws.{StartIsCore, EventsKeepCore, RunsAreSound, StartMeetsPackets, EventsKeepPackets, CountShowsQuiet, ClosedMarksAll, FullIsReachable, ReachableStay, StartIsSwept, EventsKeepSwept, EventsKeepNotes, EventsKeepBounds};
ghost use Rattle.mark_core.specs.Weak.{WeakIsMade, WeakStays, GoneIsUnreachable, WeakReadsTell, WeakIsTold};

/// The state in which nothing has happened is sound, for all shapes and any number of seats.
pub fn start_is_core()
    ensures { StartIsCore }
{}

/// Each allowed event keeps a state sound, whichever seat acts and whatever the others have in hand.
#[tactic(auto, using(crate::proofs::CoreKept::core_kept))]
pub fn events_keep_core()
    ensures { EventsKeepCore }
{}

/// Each run is sound, and so is each state on its way: for every legal shape, 1 to [`crate::SEATS`] seats and every
/// list of events whose numbers fit words.
#[tactic(auto, using(crate::proofs::CoreKept::runs_sound))]
pub fn runs_are_sound()
    ensures { RunsAreSound }
{}

/// At the start every packet is in the empty pool, and the count says so.
pub fn packets_start()
    ensures { StartMeetsPackets }
{}

/// Each allowed event keeps the rules of packets: a packet is in one pool or one hand, a pool holds packets of its
/// lengths, the count of empty packets is exact once reservations and credits are added, and no seat has work in hand
/// without a packet.
#[tactic(auto, using(crate::proofs::Pool::PoolsKept::packets_kept))]
pub fn packets_are_kept()
    ensures { EventsKeepPackets }
{}

/// If the count says that all packets are empty, no packet has an entry and no seat has work in hand.
#[tactic(auto, using(crate::proofs::Consequences::QuietReading::quiet))]
pub fn count_shows_quiet()
    ensures { CountShowsQuiet }
{}

/// A drain with nothing left to do (no packet and no seat has work, no card is dirty, no root names a white cell)
/// has marked every reachable cell.
#[tactic(auto, using(crate::proofs::Consequences::Closing::closed_marks))]
pub fn closed_marks_all()
    ensures { ClosedMarksAll }
{}

/// The heap is found full only if every cell is reachable.
pub fn full_is_reachable()
    ensures { FullIsReachable }
{}

/// No event clears the allocation bit of a reachable cell.
#[tactic(auto, using(crate::proofs::Consequences::Closing::reachable_stay))]
pub fn reachable_stay()
    ensures { ReachableStay }
{}

/// At the start there is nothing to sweep.
#[tactic(auto, using(crate::proofs::Swept::SweptStart::swept_starts))]
pub fn swept_starts()
    ensures { StartIsSwept }
{}

/// In Sweep and Clear, a block that was handed out and is in no seat's hand has no mark.
#[tactic(auto, using(crate::proofs::Swept::SweptKept::swept_kept_by))]
pub fn swept_is_kept()
    ensures { EventsKeepSwept }
{}

/// An event of one seat leaves each word for which another seat is steady.
#[tactic(auto, using(crate::proofs::Notes::NotesKept::notes_kept))]
pub fn notes_are_kept()
    ensures { EventsKeepNotes }
{}

/// While a seat helps, or knows that the world is stopped, only it can lower the counters of cards and of blocks.
#[tactic(auto, using(crate::proofs::Notes::NotesBounds::bounds_kept))]
pub fn bounds_are_kept()
    ensures { EventsKeepBounds }
{}

/// Whoever knows a cell in use by its identity knows where this object is, or that it is gone; and whether it was
/// published, if it is there.
#[tactic(auto, using(crate::proofs::Consequences::WeakFound::weak_is_made))]
pub fn weak_is_made()
    ensures { WeakIsMade }
{}

/// A run leaves what is known of an object by its identity: no object comes to another cell, and none that is gone
/// comes back.
#[tactic(auto, using(crate::proofs::Consequences::WeakKept::weak_stays))]
pub fn weak_stays()
    ensures { WeakStays }
{}

/// No path leads to an object that is gone.
#[tactic(auto, using(crate::proofs::Consequences::WeakFound::gone_is_unreachable))]
pub fn gone_is_unreachable()
    ensures { GoneIsUnreachable }
{}

/// Whoever reads a cell that it needn't know finds an object there that isn't freed, or may conclude that the one that
/// was there is gone.
#[tactic(auto, using(crate::proofs::Consequences::WeakFound::weak_reads_tell))]
pub fn weak_reads_tell()
    ensures { WeakReadsTell }
{}

/// Whoever finds a cell published, and then the identity of its object, knows for good where this object is, whatever
/// others do between.
#[tactic(auto, using(crate::proofs::Consequences::WeakTold::weak_is_told))]
pub fn weak_is_told()
    ensures { WeakIsTold }
{}
