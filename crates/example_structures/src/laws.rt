//! Laws about what calls say.
ghost use Rattle.example_structures.specs.FitLaws.{FitsByCalls};

/// If a thread does to a queue only what `put` and `take` do, and changes no other object, its log is one of those of
/// which `queue_by_log` (`queue_laws`) says that the queue is first in, first out.
pub fn fits_by_calls()
    ensures { FitsByCalls }
{}
