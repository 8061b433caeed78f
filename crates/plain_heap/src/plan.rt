//! What the catalogue is to do.
ghost use Rattle.std.specs.Prelude.{List};
ghost use Rattle.plain_heap.specs.declared.operation.Op.{Op};

/// Knows what the catalogue will do. Only contracts see it. It fixes what a warehouse finds in the catalogue, though
/// the two run side by side.
pub trait Plan {
    /// The operations of the catalogue, part by part; a missing part is empty.
    ghost plan: { Self → List (List Op) };
}

/// The plan of a catalogue that does nothing.
#[derive(Clone, Copy, Debug)]
pub struct NoPlan;

impl Plan for NoPlan {
    ghost use Rattle.std.specs.Prelude.{[]};

    ghost plan = { λ none. [] };
}
