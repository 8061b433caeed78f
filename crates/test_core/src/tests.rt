//! Runs of events, written down as texts (`runs`), and sequences of the table's typed steps by seats 0 and 1 of a heap.
mod barrier;
mod blocks;
mod cells;
mod checking;
mod claims;
mod ends;
mod events;
mod filled;
mod first;
mod heaps;
mod lagging;
mod marking;
mod packets;
mod runs;
mod seats;
mod sharing;
mod weak;

use runs::all_hold;

#[test]
fn each_run_goes_as_told(rt: HostRuntime) {
    for runs in [
        first::FIRST,
        marking::BARRIER,
        checking::CHECKED,
        marking::DEFERRED,
        marking::OVERFLOW,
        marking::PRECISE,
        marking::HELPED,
        lagging::LAGGING,
        first::STRETCHES,
        sharing::SHARED,
        sharing::STORING,
        sharing::EXCHANGING,
        sharing::SLOTS,
        weak::WEAK,
    ] {
        all_hold(&rt, runs);
    }
}

#[test]
fn full_heap_is_found(rt: HostRuntime) {
    let Ok(run) = filled::filled(rt.alloc()) else {
        panic!(rt; "memory")
    };
    all_hold(&rt, run.as_str());
}
