//! All that the threads do comes behind what was done before they begin.
ghost use Rattle.std.specs.Arc.{arc_value};
ghost use Rattle.std.specs.Prelude.{◌≡◌, IfSome};
ghost use Rattle.example_queues.specs.Lines.{AreInLine};

use gc_table::order_kept;
use shared_heap::{SharedMutator, Stamp};

/// What both threads come after, as they have it.
#[derive(Drop)]
pub struct Line {
    pub first: Stamp,
    pub second: Stamp,
}

/// The maker comes after both threads, and both threads come after the maker.
pub fn line_up(
    first: &mut SharedMutator,
    second: &mut SharedMutator,
    maker: &mut SharedMutator,
) -> Option<Line>
    requires first { arc_value first.old.heap ≡ arc_value maker.old.heap }
    requires second { arc_value second.old.heap ≡ arc_value maker.old.heap }
    ensures line { IfSome result (λ l. AreInLine l.first l.second first.old second.old maker.old first.new second.new maker.new) }
{
    order_kept();
    let mut one = first.stamp();
    let mut two = second.stamp();
    if !maker.after(&mut one) || !maker.after(&mut two) {
        return None;
    }
    let mut laid = maker.stamp();
    let mut again = maker.stamp();
    if !first.after(&mut laid) || !second.after(&mut again) {
        return None;
    }
    Some(Line {
        first: first.stamp(),
        second: second.stamp(),
    })
}
