//! What a scan came to.
ghost use Rattle.std.specs.Prelude.{◌≡◌};

/// What a scan did.
#[derive(Clone, Copy, Debug, PartialEq, Eq)]
pub struct Scanned {
    /// The cells that it marked.
    pub marked: u32,
    /// Those of them that found no packet with room: their cards are dirty.
    pub overflowed: u32,
}

impl Scanned {
    /// Nothing was marked.
    pub fn none() -> Scanned
        ensures { result ≡ record { marked = 0; overflowed = 0 } }
    {
        Scanned {
            marked: 0,
            overflowed: 0,
        }
    }
}
