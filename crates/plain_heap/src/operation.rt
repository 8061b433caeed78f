//! What a section does, and what it prints.

/// One executed command of a section, without its label.
///
/// Variables `v`, `w` and `c` are below 32, a field `i` below the heap's number of fields. If `v` or `w` is both read
/// and assigned, the reading comes first. A store does nothing if `v` is nil, and a warehouse's in an object of the
/// catalogue is dropped. Only a warehouse does `Cat`, `Say`, `Sum` and `Collect`.
#[derive(Clone, Copy, Debug, PartialEq, Eq)]
pub enum Op {
    /// Makes an object with value `n` and nil fields, to which `v` refers; it gets the section's next number.
    New { v: u8, n: u32 },

    /// `v` becomes what `w` is.
    Let { v: u8, w: u8 },

    /// `v` becomes nil.
    Nil { v: u8 },

    /// Field `i` of the object of `v` becomes what `w` is.
    Set { v: u8, i: u8, w: u8 },

    /// `v` becomes field `i` of the object of `w`, or nil if `w` is nil.
    Get { v: u8, w: u8, i: u8 },

    /// `v` becomes what variable `c` of the catalogue is.
    Cat { v: u8, c: u8 },

    /// The value of the object of `v` becomes `n`.
    Put { v: u8, n: u32 },

    /// Prints the value of the object of `v`.
    Say { v: u8 },

    /// Walks from `v` along field `i` over at most `limit` objects, up to 65,536, each visit counted. Prints how many
    /// visits there were, and the sum of the values met.
    Sum { v: u8, i: u8, limit: u32 },

    /// Asks for a collection, of which a heap that forgets nothing sees nothing.
    Collect,
}

/// What an operation prints, without its label.
#[derive(Clone, Copy, Debug, PartialEq, Eq)]
pub enum Line {
    /// `Say` of a nil variable.
    Nil,

    /// `Say` of an object: its value.
    Value(u32),

    /// `Sum`: how many visits, and the sum of the values met.
    Walk { count: u32, total: u64 },
}
