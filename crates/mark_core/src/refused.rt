//! Why an event isn't allowed.

/// What an event broke.
#[derive(Clone, Copy, Debug, PartialEq, Eq)]
pub struct Rule {
    /// The kind of its step, 1 to 57.
    pub kind: u8,
    /// The least part of the kind's condition that fails, from 1 on; 0 if the seat doesn't exist or was joined into
    /// another.
    pub part: u8,
}

/// An event that isn't allowed; the state stays as it was.
#[derive(Clone, Copy, Debug, PartialEq, Eq)]
pub struct NotAllowed {
    /// What it broke.
    pub rule: Rule,
}
