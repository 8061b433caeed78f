//! A thread that has nothing to trace sleeps until a cycle marks. No contract rests on that, since it is no step of the
//! core.
use crate::seat::Heap;
use mark_core::PHASE;
use std::sync::Wait;
use std::time::Duration;

/// The word of the phase while a cycle marks.
const MARKING: u64 = 1;

impl Heap {
    /// Sleeps while no cycle marks, until a thread wakes those that rest, or for this long. It may return sooner.
    pub fn rest<R: Wait>(&self, rt: &R, most: Duration) {
        let phase = self.table.shared.peek(PHASE);
        if phase != MARKING {
            let low = (phase % 0x1_0000_0000) as u32;
            self.table.shared.park_timeout(rt, PHASE, low, most);
        }
    }

    /// Wakes every thread that rests. It is called as the phase moves to Marking, or as what tracers wait for ends.
    pub fn wake_resting(&self) {
        self.table.shared.wake_all(PHASE);
    }
}
