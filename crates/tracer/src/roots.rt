//! The roots of a section are scanned.
ghost use Rattle.std.specs.Prelude.{◌+◌, ◌≡◌, ◌<◌, ◌≤◌, [], ◌∷◌, Some, None, IsTrue, IsFalse, IfSome, IfNone, length};
ghost use Rattle.mark_core.specs.Numbers.{section_variables};
ghost use Rattle.mark_core.specs.Seats.{work_in_hand};
ghost use Rattle.gc_table.specs.Seats.{Across, did, state_of, view_of};
ghost use Rattle.packet_pools.specs.OnlyTraced.{OnlyTraced};
ghost use Rattle.packet_pools.specs.Seeking.{only_moves, output_pools};
ghost use Rattle.packet_pools.specs.Tracing.{IsTracer};
ghost use Rattle.tracer.specs.Causes.{FoundNoPacket};
ghost use Rattle.tracer.specs.Hands.{Carries, IsIdle, KeepsRecord};
ghost use Rattle.tracer.specs.Roots.{FollowsRoots, RootsScanned, SeesRoots, root_marked};
ghost use Rattle.packet_pools.specs.StepBounds.{any_steps, follow_steps, room_left};
ghost use Rattle.packet_pools.specs.Tried.{DirtiesLast, SearchesOn};
ghost use Rattle.tracer.specs.StepBounds.{section_steps};

use crate::traced::RootScan;
use gc_table::{Heap, HeapSeat};
use mark_core::{VARIABLES, cell_of};
use packet_pools::{Held, Scanned, Search, give, mark_cell, take_input, take_output};

fn take_either(heap: &Heap, seat: &mut HeapSeat) -> Option<Held>
    requires seat { IsTracer heap.now seat.old }
    requires idle { IsIdle (view_of seat.old) }
    ensures seat { IsTracer heap.now seat.new }
    ensures only { Across OnlyTraced seat.old seat.new }
    ensures work { IsFalse (work_in_hand heap.now.shape.fields (state_of seat.new)) }
    ensures moves { IsTrue (only_moves output_pools (did seat.old seat.new)) }
    ensures some { IfSome result (λ h. Carries (h ∷ []) (view_of seat.new)) }
    ensures none { IfNone result ((state_of seat.new ≡ state_of seat.old) × Across FoundNoPacket seat.old seat.new) }
    ensures few { length (did seat.old seat.new) ≤ any_steps heap.now.shape }
{
    match take_output(heap, seat) {
        Some(held) => Some(held),
        None => take_input(heap, seat),
    }
}

fn scan_root(
    heap: &Heap,
    seat: &mut HeapSeat,
    out: &mut Held,
    search: &mut Search,
    section: u32,
    variable: u8,
) -> Scanned
    requires seat { IsTracer heap.now seat.old }
    requires out { Carries (out.old ∷ []) (view_of seat.old) }
    requires work { IsFalse (work_in_hand heap.now.shape.fields (state_of seat.old)) }
    requires root { (section < heap.now.shape.sections) × (variable < section_variables) }
    ensures seat { IsTracer heap.now seat.new }
    ensures only { Across OnlyTraced seat.old seat.new }
    ensures out { Carries (out.new ∷ []) (view_of seat.new) }
    ensures work { IsFalse (work_in_hand heap.now.shape.fields (state_of seat.new)) }
    ensures most { (result.overflowed ≤ result.marked) × (result.marked ≤ 1) }
    ensures follows { FollowsRoots heap.now.shape ((section, variable) ∷ []) result.marked result.overflowed (did seat.old seat.new) }
    ensures seen { IsTrue (root_marked section variable (did seat.old seat.new)) }
    ensures tried { SearchesOn heap.now.shape search.old search.new out.old out.new (did seat.old seat.new) }
    ensures few { length (did seat.old seat.new) + room_left heap.now.shape search.new out.new.length ≤ room_left heap.now.shape search.old out.old.length + follow_steps heap.now.shape }
{
    let word = heap.read_root(seat, section, variable);
    if word == 0 {
        return Scanned {
            marked: 0,
            overflowed: 0,
        };
    }
    mark_cell(heap, seat, out, search, cell_of(word))
}

/// Marks what the 32 variables of a section refer to, and pushes what was white. If the section's mutator runs, and
/// stores a variable after it was read, it has to scan that again. The answer is NoPacket only if no packet with room
/// or with cells was found, and nothing is marked then.
pub fn scan_roots(heap: &Heap, seat: &mut HeapSeat, section: u32) -> RootScan
    requires seat { IsTracer heap.now seat.old }
    requires idle { IsIdle (view_of seat.old) }
    requires section { section < heap.now.shape.sections }
    ensures seat { IsTracer heap.now seat.new }
    ensures only { Across OnlyTraced seat.old seat.new }
    ensures idle { IsIdle (view_of seat.new) }
    ensures state { Across KeepsRecord seat.old seat.new }
    ensures scanned { Across (RootsScanned section result) seat.old seat.new }
    ensures seen { SeesRoots section result (did seat.old seat.new) }
    ensures cause { DirtiesLast heap.now.shape (did seat.old seat.new) }
    ensures few { length (did seat.old seat.new) ≤ section_steps heap.now.shape }
{
    let Some(mut out) = take_either(heap, seat) else {
        return RootScan::NoPacket;
    };
    let mut search = Search::open();
    let mut marked = 0;
    for variable in 0..VARIABLES {
        marked += scan_root(heap, seat, &mut out, &mut search, section, variable).marked;
    }
    give(heap, seat, out, false);
    RootScan::Done { marked }
}
