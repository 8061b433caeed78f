//! References and objects.

/// What a variable or a field holds.
#[derive(Clone, Copy, Debug, PartialEq, Eq)]
pub enum Ref {
    /// No object.
    Nil,

    /// The object of this number in the reference's own section.
    Own(u32),

    /// The object of this number in the catalogue, as a warehouse sees it.
    Cat(u32),
}

/// An object: a value, and the references in its fields.
#[derive(Clone, Copy, Debug, PartialEq, Eq)]
pub struct Object {
    /// The value that `put` stores and `say` prints.
    pub value: u32,

    /// The fields by their numbers; a heap of fewer than 16 leaves the rest nil.
    pub refs: [Ref; 16],
}
