ghost use Rattle.std.specs.Arc.{arc_value};
ghost use Rattle.std.specs.Prelude.{◌≡◌, ◌<◌, ◌-◌, IfErr, IfOk};
ghost use Rattle.gc_table.specs.Seats.{Across};
ghost use Rattle.seat_turns.specs.Sharing.{FollowsField};
ghost use Rattle.shared_heap.specs.declared.mutator.Place.TheVariants.{Inside};
ghost use Rattle.example_structures.specs.Changes.{ChangesNone};
ghost use Rattle.example_structures.specs.Refusing.{IsFor, NotBegun};

use shared_heap::{Refused, SharedMutator};

/// How many variables are the caller's: 0 to 19. The others refer to nothing between two calls, except after a call
/// that was refused.
pub const CALLERS: u8 = 20;

/// What is made: a node, or a row.
pub(crate) const OWN: u8 = 20;

/// What was seen in a structure, and an exchange expects there.
pub(crate) const SEEN: u8 = 21;

/// Begins a call that uses this variable of the caller's, and so many references of an object. A refused one did
/// nothing.
pub(crate) fn begin(m: &mut SharedMutator, v: u8, least: u8) -> Result<(), Refused>
    requires least { 0 < least }
    ensures begun { IfOk result (λ _. (m.old.place ≡ Inside) × (m.new.place ≡ Inside) × IsFor v least m.new) }
    ensures refused { IfErr result (λ e. NotBegun e (IsFor v least m.old) m.old m.new) }
    ensures none { ChangesNone m.old m.new }
    ensures follows { IfOk result (λ _. Across (FollowsField 20 20 (least - 1)) m.old.seat m.new.seat) }
    ensures world { arc_value m.new.heap ≡ arc_value m.old.heap }
{
    if v >= CALLERS {
        return Err(Refused::OutOfRange);
    }
    m.get(OWN, OWN, least - 1)
}
