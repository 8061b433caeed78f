ghost use Rattle.std.specs.Prelude.{◌≡◌, ◌-◌, ◌≤◌, All, false, IsTrue, IsFalse};
ghost use Rattle.gc_play.specs.Dealing.{EachOne, OneEnds, ShareEnds, SomeFull, StandsAt, seat_number, sections_of_worker, SameShares};

use gc_script::Script;
use gc_table::Heap;
use play_end::Played;
use std::sync::Wait;
use std::thread;
use std::thread::Threads;
use warehouse::{Gate, Mutator, play_part};

/// The warehouses that one thread plays, and whether one found the heap full.
#[derive(Drop)]
pub(crate) struct Worker<'a> {
    pub(crate) mutators: Vec<Mutator<'a>>,
    pub(crate) full: bool,
}

fn play_one<'a, R: Threads + Wait + Sync, G: Gate>(
    rt: &R,
    heap: &Heap,
    script: &Script<'a>,
    mutator: &mut Mutator<'a>,
    season: u32,
    gate: &G,
) -> Played
    requires season { 1 ≤ season }
    requires before { StandsAt heap.now script.now.sections (season - 1) mutator.old }
    ensures part { OneEnds result heap.now script.now.sections season mutator.new }
    ensures number { seat_number mutator.new ≡ seat_number mutator.old }
{
    let section = &script.warehouses()[mutator.number() as usize - 1];
    play_part(rt, heap, mutator, section, season, gate)
}

/// Plays a part of each warehouse, up to one that finds the heap full.
fn play_share<'a, R: Threads + Wait + Sync, G: Gate>(
    rt: &R,
    heap: &Heap,
    script: &Script<'a>,
    worker: &mut Worker<'a>,
    season: u32,
    gate: &G,
)
    requires season { 1 ≤ season }
    requires before { All (StandsAt heap.now script.now.sections (season - 1)) worker.old.mutators.items }
    requires empty { worker.old.full ≡ false }
    ensures share { ShareEnds worker.new.full heap.now script.now.sections season worker.new.mutators.items }
    ensures numbers { sections_of_worker worker.new ≡ sections_of_worker worker.old }
{
    for i in 0..worker.mutators.len() {
        if let Played::Full = play_one(rt, heap, script, &mut worker.mutators[i], season, gate) {
            worker.full = true;
            return;
        }
    }
}

/// Plays a part of each warehouse, each worker in a thread of its own.
pub(crate) fn play_warehouses<'a, R: Threads + Wait + Sync, G: Gate + Sync>(
    rt: &R,
    heap: &Heap,
    script: &Script<'a>,
    workers: &mut Vec<Worker<'a>>,
    season: u32,
    gate: &G,
)
    requires season { 1 ≤ season }
    requires before { EachOne (StandsAt heap.now script.now.sections (season - 1)) workers.old.items }
    requires empty { All (λ x. x.full ≡ false) workers.old.items }
    ensures ends { All (λ x. ShareEnds x.full heap.now script.now.sections season x.mutators.items) workers.new.items }
    ensures same { SameShares workers.old.items workers.new.items }
{
    let threads = workers.len();
    if threads == 0 {
        return;
    }
    thread::for_each_mut(
        rt,
        workers.as_mut_slice(),
        threads,
        &|_, worker: &mut Worker|
            requires { (1 ≤ season) × All (StandsAt heap.now script.now.sections (season - 1)) worker.now.mutators.items × (worker.now.full ≡ false) }
            ensures { ShareEnds worker.exit.now.full heap.entry.now script.entry.now.sections season worker.exit.now.mutators.items × (sections_of_worker worker.exit.now ≡ sections_of_worker worker.entry.now) }
        { play_share(rt, heap, script, worker, season, gate) },
    );
}

pub(crate) fn any_full(workers: &[Worker<'_>]) -> bool
    ensures none { IsFalse result → All (λ x. x.full ≡ false) workers.now }
    ensures some { IsTrue result → SomeFull workers.now }
{
    for worker in workers {
        if worker.full {
            return true;
        }
    }
    false
}
