//! A whole tree.
ghost use Rattle.std.specs.Prelude.{◌≡◌, ◌+◌, ◌*◌, ◌<◌, ◌≤◌, IfErr, IfOk};
ghost use Rattle.plain_heap.specs.PlainHeap.{heap_variables, variable};
ghost use Rattle.managed_heap.specs.Calls.{heap_of};
ghost use Rattle.bench_heaps.specs.Standing.{WorkerHalts, WorkerPlays};
ghost use Rattle.bench_heaps.specs.Trees.{Builds, GrowsHeap, IsTree, JoinsTrees, LeavesObjects, full, nodes};

use crate::trees::nodes::{Halt, forget, is_nil, join, look, make};
use managed_heap::Mutator;
use std::sync::Wait;

fn leaf<R: Wait>(rt: &R, m: &mut Mutator, v: u8) -> Result<(), Halt>
    requires plays { WorkerPlays m.old }
    requires fits { v < heap_variables }
    ensures ok { IfOk result (λ _. WorkerPlays m.new) }
    ensures err { IfErr result (λ halt. WorkerHalts halt m.new) }
    ensures builds { IfOk result (λ _. Builds 0 v (heap_of m.old) (heap_of m.new)) }
{
    make(rt, m, v)
}

fn node<R: Wait>(rt: &R, m: &mut Mutator, v: u8) -> Result<(), Halt>
    requires plays { WorkerPlays m.old }
    requires fits { v + 2 < heap_variables }
    ensures ok { IfOk result (λ _. WorkerPlays m.new) }
    ensures err { IfErr result (λ halt. WorkerHalts halt m.new) }
    ensures joins { IfOk result (λ _. JoinsTrees v (heap_of m.old) (heap_of m.new)) }
{
    make(rt, m, v)?;
    join(m, v, 0, v + 1);
    join(m, v, 1, v + 2);
    Ok(())
}

/// Makes a tree of this depth in variable v, with the variables behind it.
pub fn build<R: Wait>(rt: &R, m: &mut Mutator, v: u8, depth: u8) -> Result<(), Halt>
    requires plays { WorkerPlays m.old }
    requires fits { v + 2 * depth < heap_variables }
    ensures ok { IfOk result (λ _. WorkerPlays m.new) }
    ensures err { IfErr result (λ halt. WorkerHalts halt m.new) }
    ensures builds { IfOk result (λ _. Builds depth v (heap_of m.old) (heap_of m.new)) }
{
    if depth == 0 {
        return leaf(rt, m, v);
    }
    build(rt, m, v + 1, depth - 1)?;
    build(rt, m, v + 2, depth - 1)?;
    node(rt, m, v)
}

/// How many nodes of variable v's tree are at most so many steps below its root.
fn count(m: &mut Mutator, v: u8, steps: u8) -> u64
    requires plays { WorkerPlays m.old }
    requires fits { v + steps < heap_variables }
    ensures plays { WorkerPlays m.new }
    ensures counts { result ≡ nodes (heap_of m.old) steps (variable (heap_of m.old) v) }
    ensures leaves { LeavesObjects (v + 1) (heap_of m.old) (heap_of m.new) }
{
    if is_nil(m, v) {
        return 0;
    }
    if steps == 0 {
        return 1;
    }
    look(m, v + 1, v, 0);
    let left = count(m, v + 1, steps - 1);
    look(m, v + 1, v, 1);
    let right = count(m, v + 1, steps - 1);
    1 + left + right
}

/// How many nodes variable v's tree has. It goes one step further than the depth says, so a deeper tree would have
/// more.
pub fn check(m: &mut Mutator, v: u8, depth: u8) -> u64
    requires plays { WorkerPlays m.old }
    requires fits { v + depth + 1 < heap_variables }
    ensures plays { WorkerPlays m.new }
    ensures leaves { LeavesObjects (v + 1) (heap_of m.old) (heap_of m.new) }
    ensures counts { IsTree (heap_of m.old).objects depth (variable (heap_of m.old) v) → result ≡ full depth }
{
    count(m, v, depth + 1)
}

/// No part of a tree stays reachable.
fn drop_from(m: &mut Mutator, v: u8)
    requires plays { WorkerPlays m.old }
    ensures plays { WorkerPlays m.new }
    ensures leaves { LeavesObjects v (heap_of m.old) (heap_of m.new) }
{
    for w in v..32 {
        forget(m, w);
    }
}

/// Makes a tree in variable 1, counts it, and forgets it.
pub fn short_lived<R: Wait>(rt: &R, m: &mut Mutator, depth: u8) -> Result<u64, Halt>
    requires plays { WorkerPlays m.old }
    requires fits { depth ≤ 14 }
    ensures ok { IfOk result (λ _. WorkerPlays m.new) }
    ensures err { IfErr result (λ halt. WorkerHalts halt m.new) }
    ensures counts { IfOk result (λ nodes. nodes ≡ full depth) }
    ensures grows { IfOk result (λ _. GrowsHeap 1 (heap_of m.old) (heap_of m.new)) }
{
    build(rt, m, 1, depth)?;
    let nodes = check(m, 1, depth);
    drop_from(m, 1);
    Ok(nodes)
}
