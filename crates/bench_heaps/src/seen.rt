//! What was seen of objects.

/// How many objects were seen, and the sum of their values.
#[derive(Clone, Copy, Drop)]
pub struct Seen {
    pub objects: u64,
    pub sum: u64,
}

impl Seen {
    /// No object.
    pub fn nothing() -> Seen {
        Seen { objects: 0, sum: 0 }
    }

    /// The sums of both, modulo 2^64.
    pub fn and(self, other: Seen) -> Seen {
        Seen {
            objects: self.objects.wrapping_add(other.objects),
            sum: self.sum.wrapping_add(other.sum),
        }
    }

    /// One object more.
    pub fn object(self, value: u64) -> Seen {
        self.and(Seen {
            objects: 1,
            sum: value,
        })
    }
}
