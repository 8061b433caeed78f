//! Whole runs, most of them written down as texts (`written`), and plays under gates.

mod beside;
mod commands;
mod cuts;
mod disturbed;
mod dumped;
mod ended;
mod faults;
mod gathered;
mod graph;
mod hiding;
mod marking;
mod narrow;
mod others;
mod outside;
mod placed;
mod played;
mod shared;
mod signal;
mod sources;
mod told;
mod written;

#[test]
fn each_case_holds(rt: HostRuntime) {
    for cases in [
        played::PLAYED,
        played::LONG,
        played::BROAD,
        others::CONVERTS,
        others::BATCHES,
        others::OTHERS,
    ] {
        written::all_hold(&rt, cases, "");
    }
}
