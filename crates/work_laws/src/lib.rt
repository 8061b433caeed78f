//! A cycle's work is bounded: laws about all runs of the core, and about what threads do with an open table.
#![tactic(auto)]

ghost use Rattle.work_laws.specs.Bringing.{DeferringIsBounded};
ghost use Rattle.work_laws.specs.Cleaning.{CleaningIsBounded};
ghost use Rattle.work_laws.specs.Cycles.{CyclesAreBounded};
ghost use Rattle.work_laws.specs.Dirtying.{DirtyingIsBounded};
ghost use Rattle.work_laws.specs.DrainedCards.{DrainsStayClean};
ghost use Rattle.work_laws.specs.Drains.{DrainsDeferNone};
ghost use Rattle.work_laws.specs.Marking.{MarksAreBounded};
ghost use Rattle.work_laws.specs.Queueing.{PopsAreBounded};
ghost use Rattle.work_laws.specs.Scanning.{ReadsAreBounded};
ghost use Rattle.work_laws.specs.Tidy.{TidyCyclesAreFew};
ghost use Rattle.work_laws.specs.Work.{WorkIsBounded};

/// Whatever threads do, they mark each cell anew at most once each time that marking begins, and push it at most once
/// for this.
#[tactic(auto, using(crate::proofs::Marks::marks_bounded))]
pub fn marks_bounded()
    ensures { MarksAreBounded }
{}

/// Cells are popped only as often as they were pushed, and put back only as often as they were found unpublished.
#[tactic(auto, using(crate::proofs::Queues::pops_bounded))]
pub fn pops_bounded()
    ensures { PopsAreBounded }
{}

/// Fields are read only of cells that were popped, and of the sixteen of each dirty card that was cleaned; and only
/// cells that were loaded from a field or a root are marked.
#[tactic(auto, using(crate::proofs::Scans::reads_bounded))]
pub fn reads_bounded()
    ensures { ReadsAreBounded }
{}

/// Dirty cards are cleaned only as often as clean ones were dirtied, and a pass draws each card once.
#[tactic(auto, using(crate::proofs::Cleans::cleaning_bounded))]
pub fn cleaning_bounded()
    ensures { CleaningIsBounded }
{}

/// A card is dirtied once for each store, and for each cell that finds no packet; and again only once for each dirty one
/// that was cleaned in Marking.
#[tactic(auto, using(crate::proofs::Dirties::dirtying_bounded))]
pub fn dirtying_bounded()
    ensures { DirtyingIsBounded }
{}

/// A popped cell is found unpublished only once after it was marked, and once each time that it is brought back out of
/// the deferred pool.
#[tactic(auto, using(crate::proofs::Brings::deferring_bounded))]
pub fn deferring_bounded()
    ensures { DeferringIsBounded }
{}

/// While the world is stopped no popped cell is found unpublished.
#[tactic(auto, using(crate::proofs::Drains::drains_defer_none))]
pub fn drains_defer_none()
    ensures { DrainsDeferNone }
{}

/// While the world is stopped no marked cell of a card that is cleaned is found unpublished.
#[tactic(auto, using(crate::proofs::DrainedCards::drains_stay_clean))]
pub fn drains_stay_clean()
    ensures { DrainsStayClean }
{}

/// In a run from the start, and in what has happened on an open table: cells that were marked, popped and scanned, and
/// cards that were cleaned, by the heap's sizes and by how often marking began, a cell was deferred and a card dirtied.
#[tactic(auto, using(crate::proofs::Work::work_bounded))]
pub fn work_bounded()
    ensures { WorkIsBounded }
{}

/// From any moment on at which no cycle is under way, all that marking and cleaning come to, by numbers: of cells, fields
/// and cards, of the stores that mutators make meanwhile, and of what is brought back and cleaned while they run.
#[tactic(auto, using(crate::proofs::CycleTables::cycles_bounded))]
pub fn cycles_bounded()
    ensures { CyclesAreBounded }
{}

/// If no cell is popped where it was put back, no card is dirtied for nothing, and in Marking cards are cleaned only as
/// often as they are drawn and sixteen times for each claimed cell, then all of a cycle's work is bounded by the heap's
/// sizes, by what mutators store and claim, and by what is brought back.
#[tactic(auto, using(crate::proofs::Tidy::tidy_few))]
pub fn tidy_few()
    ensures { TidyCyclesAreFew }
{}
