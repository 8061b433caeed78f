ghost use Rattle.std.specs.Prelude.{◌≡◌, ◌+◌, ◌-◌, ◌*◌, ◌<◌, ◌≤◌, IfErr, IfOk};
ghost use Rattle.plain_heap.specs.PlainHeap.{variable};
ghost use Rattle.managed_heap.specs.Calls.{heap_of};
ghost use Rattle.bench_heaps.specs.Counts.{AreChecked, AreWordsInRange, depth_at, share, trees_at};
ghost use Rattle.bench_heaps.specs.Standing.{WorkerHalts, HasTwo, WorkerPlays, WorkerWaits};
ghost use Rattle.bench_heaps.specs.Trees.{GrowsHeap, IsTree, full};

use crate::trees::nodes::Halt;
use crate::trees::whole::{build, check, short_lived};
use crate::trees::words::Asked;
use managed_heap::Mutator;
use std::sync::Wait;

/// How many depths of short-lived trees there are at most.
pub const DEPTHS: u32 = 5;

/// The nodes counted of the short-lived trees, by depth.
pub type Checks = [u64; 5];

/// The depth of short-lived trees with this number: 4, 6, 8, 10 or 12.
pub fn depth_at(i: u32) -> u32
    requires { i < 5 }
    ensures { result ≡ depth_at i }
{
    4 + 2 * i
}

/// How many short-lived trees there are of that depth: four times fewer than of the one before, so that each depth has
/// about as many nodes.
pub fn trees_at(depth: u32, i: u32) -> u32
    requires { (depth ≤ 13) × (2 * i ≤ depth) }
    ensures exact { result ≡ trees_at depth i }
    ensures few { result ≤ 8192 }
{
    1 << (depth - 2 * i)
}

/// Worker `at`'s share of so many trees.
fn share(trees: u32, workers: u32, at: u32) -> u32
    requires few { (trees ≤ 8192) × (workers ≤ 32) }
    requires one { at < workers }
    ensures exact { result ≡ share trees workers at }
    ensures few { result ≤ 8223 }
{
    (trees + (workers - 1 - at)) / workers
}

fn enter<R: Wait>(rt: &R, m: &mut Mutator) -> Result<(), Halt>
    requires waits { WorkerWaits m.old }
    ensures ok { IfOk result (λ _. WorkerPlays m.new) }
    ensures err { IfErr result (λ halt. WorkerWaits m.new × WorkerHalts halt m.new) }
    ensures same { heap_of m.new ≡ heap_of m.old }
{
    match m.enter(rt) {
        Ok(()) => Ok(()),
        Err(_) => Err(Halt::Full),
    }
}

fn leave(m: &mut Mutator)
    requires two { HasTwo m.old }
    ensures waits { WorkerWaits m.new }
    ensures same { heap_of m.new ≡ heap_of m.old }
{
    m.leave();
}

fn many<R: Wait>(rt: &R, m: &mut Mutator, trees: u32, depth: u8) -> Result<u64, Halt>
    requires plays { WorkerPlays m.old }
    requires few { (depth ≤ 14) × (trees ≤ 8223) }
    ensures ok { IfOk result (λ _. WorkerPlays m.new) }
    ensures err { IfErr result (λ halt. WorkerHalts halt m.new) }
    ensures counts { IfOk result (λ nodes. nodes ≡ trees * full depth) }
    ensures grows { IfOk result (λ _. GrowsHeap 1 (heap_of m.old) (heap_of m.new)) }
{
    let mut nodes = 0;
    for _tree in 0..trees {
        let more = short_lived(rt, m, depth)?;
        nodes += more;
    }
    Ok(nodes)
}

fn all_depths<R: Wait>(rt: &R, m: &mut Mutator, asked: &Asked, at: u32) -> Result<Checks, Halt>
    requires range { AreWordsInRange asked.now }
    requires one { at < asked.now.workers }
    requires plays { WorkerPlays m.old }
    ensures ok { IfOk result (λ _. WorkerPlays m.new) }
    ensures err { IfErr result (λ halt. WorkerHalts halt m.new) }
    ensures counts { IfOk result (AreChecked asked.now at 5) }
    ensures grows { IfOk result (λ _. GrowsHeap 1 (heap_of m.old) (heap_of m.new)) }
{
    let mut checks = [0; 5];
    for i in 0..DEPTHS {
        let depth = depth_at(i);
        if depth > asked.depth {
            return Ok(checks);
        }
        let trees = share(trees_at(asked.depth, i), asked.workers, at);
        let nodes = many(rt, m, trees, depth as u8)?;
        checks[i as usize] = nodes;
    }
    Ok(checks)
}

/// Makes and counts a worker's share of the short-lived trees.
pub fn play<R: Wait>(rt: &R, m: &mut Mutator, asked: &Asked, at: u32) -> Result<Checks, Halt>
    requires range { AreWordsInRange asked.now }
    requires one { at < asked.now.workers }
    requires waits { WorkerWaits m.old }
    ensures waits { WorkerWaits m.new }
    ensures counts { IfOk result (AreChecked asked.now at 5) }
    ensures grows { IfOk result (λ _. GrowsHeap 1 (heap_of m.old) (heap_of m.new)) }
{
    enter(rt, m)?;
    let came = all_depths(rt, m, asked, at);
    leave(m);
    came
}

/// The first worker makes a tree one level deeper than the kept one, counts it and forgets it.
pub fn stretch<R: Wait>(rt: &R, m: &mut Mutator, depth: u8) -> Result<u64, Halt>
    requires few { depth ≤ 13 }
    requires waits { WorkerWaits m.old }
    ensures waits { WorkerWaits m.new }
    ensures counts { IfOk result (λ nodes. nodes ≡ full (depth + 1)) }
{
    enter(rt, m)?;
    let came = short_lived(rt, m, depth + 1);
    leave(m);
    came
}

/// Then it makes the kept tree, in variable 0, which stays reachable while its maker is outside.
pub fn keep<R: Wait>(rt: &R, m: &mut Mutator, depth: u8) -> Result<(), Halt>
    requires few { depth ≤ 13 }
    requires waits { WorkerWaits m.old }
    ensures waits { WorkerWaits m.new }
    ensures tree { IfOk result (λ _. IsTree (heap_of m.new).objects depth (variable (heap_of m.new) 0)) }
{
    enter(rt, m)?;
    let came = build(rt, m, 0, depth);
    leave(m);
    came
}

/// At the end it counts the kept tree.
pub fn count_kept<R: Wait>(rt: &R, m: &mut Mutator, depth: u8) -> Result<u64, Halt>
    requires few { depth ≤ 13 }
    requires waits { WorkerWaits m.old }
    ensures waits { WorkerWaits m.new }
    ensures counts { IsTree (heap_of m.old).objects depth (variable (heap_of m.old) 0) → IfOk result (λ nodes. nodes ≡ full depth) }
{
    enter(rt, m)?;
    let nodes = check(m, 0, depth);
    leave(m);
    Ok(nodes)
}
