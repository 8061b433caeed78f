//! What a cleaning came to.
ghost use Rattle.std.specs.Prelude.{◌≡◌, false};

/// What cleaning a card came to.
#[derive(Clone, Copy, Debug, PartialEq, Eq)]
pub struct Cleaned {
    /// How many of its cells were scanned again: at most the cells of a card.
    pub rescanned: u32,
    /// Whether it was dirtied again.
    pub redirtied: bool,
}

impl Cleaned {
    /// The card was clean.
    pub(crate) fn nothing() -> Cleaned
        ensures { result ≡ record { rescanned = 0; redirtied = false } }
    {
        Cleaned {
            rescanned: 0,
            redirtied: false,
        }
    }
}

/// What a pass over some cards came to.
#[derive(Clone, Copy, Debug, PartialEq, Eq)]
pub struct CleanedCards {
    /// How many cells were scanned again.
    pub rescanned: u32,
    /// How many cards were cleaned.
    pub cards: u32,
}

#[derive(Clone, Copy, Debug, PartialEq, Eq)]
pub(crate) struct Rescanned {
    pub(crate) cells: u32,
    pub(crate) overflowed: u32,
}

impl Rescanned {
    pub(crate) fn none() -> Rescanned
        ensures { result ≡ record { cells = 0; overflowed = 0 } }
    {
        Rescanned {
            cells: 0,
            overflowed: 0,
        }
    }
}
