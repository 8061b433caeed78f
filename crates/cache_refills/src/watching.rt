//! A caller may be told of its stops.
ghost use Rattle.cache_refills.specs.Notices.{Notice};
ghost use Rattle.cache_refills.specs.Notices as notices;

use gc_cycle::{Counts, Paid};

/// Is told of a call that gets a cache, so that it may read a clock at a stop's two ends. Each call's clause `told` says
/// what it was told.
pub trait Watch {
    /// From the first watch to the last by this notice. What it keeps of it is its own affair.
    ghost hears: { Self → Notice → Self → Type 0 };

    /// The mutator has paid for its cache.
    fn pays(&mut self, paid: Paid)
        ensures { hears self.old (notices.pays paid) self.new };

    /// The seat asks for a stop; once more if another seat's stop came first.
    fn asks(&mut self)
        ensures { hears self.old notices.asks self.new };

    /// An ordinary cycle has ended in the stop.
    fn finishes(&mut self, counts: Counts)
        ensures { hears self.old (notices.finishes counts) self.new };

    /// A precise collection has ended in the stop.
    fn collects(&mut self, counts: Counts)
        ensures { hears self.old (notices.collects counts) self.new };

    /// The world goes on.
    fn resumes(&mut self)
        ensures { hears self.old notices.resumes self.new };
}

/// Nothing is told.
#[derive(Clone, Copy, Debug, PartialEq, Eq, Drop)]
pub struct Unwatched;

impl Watch for Unwatched {
    ghost hears = { λ s n t. Unit {0} };

    fn pays(&mut self, _paid: Paid) {}

    fn asks(&mut self) {}

    fn finishes(&mut self, _counts: Counts) {}

    fn collects(&mut self, _counts: Counts) {}

    fn resumes(&mut self) {}
}
