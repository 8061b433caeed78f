use gc_script::Section;
use gc_table::HeapSeat;
use warehouse::Gate;

/// A gate that is always open.
pub struct OpenGate;

impl Gate for OpenGate {
    fn pass(&self, _seat: &HeapSeat, _section: &Section<'_>, _command: u64) {}

    fn turn(&self, _seat: &HeapSeat) {}
}
