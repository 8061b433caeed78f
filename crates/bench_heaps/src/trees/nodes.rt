//! One node of a tree. Its maker is inside the world, and objects have two references, so only a new node can be
//! refused.
ghost use Rattle.std.specs.Prelude.{◌≡◌, ◌<◌, IfErr, IfOk};
ghost use Rattle.std.specs.Bool.{OnFalse, OnTrue};
ghost use Rattle.plain_heap.specs.PlainHeap.{heap_variables, variable};
ghost use Rattle.plain_heap.specs.declared.object.Ref.TheVariants.{Nil};
ghost use Rattle.plain_heap.specs.declared.operation.Op.TheVariants as ops;
ghost use Rattle.managed_heap.specs.Calls.{heap_of};
ghost use Rattle.seat_turns.specs.Plain.{Steps};
ghost use Rattle.bench_heaps.specs.Standing.{WorkerHalts, WorkerPlays};

use managed_heap::{Mutator, Refused};
use std::sync::Wait;

/// Why a mutator goes on no more.
#[derive(Clone, Copy, Drop)]
pub enum Halt {
    /// Every cell is reachable.
    Full,
    /// No number of an object is left.
    Spent,
}

/// Makes a node without subtrees in variable v. It is a safe point.
pub fn make<R: Wait>(rt: &R, m: &mut Mutator, v: u8) -> Result<(), Halt>
    requires plays { WorkerPlays m.old }
    requires range { v < heap_variables }
    ensures ok { IfOk result (λ _. WorkerPlays m.new) }
    ensures err { IfErr result (λ halt. WorkerHalts halt m.new) }
    ensures steps { IfOk result (λ _. Steps (ops.New v 0) (heap_of m.old) (heap_of m.new)) }
{
    match m.make(rt, v, 0) {
        Ok(()) => Ok(()),
        Err(Refused::Full) => Err(Halt::Full),
        Err(Refused::Spent) => Err(Halt::Spent),
        Err(_) => unreachable!(),
    }
}

/// Subtree i of variable v's node becomes variable w's.
pub fn join(m: &mut Mutator, v: u8, i: u8, w: u8)
    requires plays { WorkerPlays m.old }
    requires range { (v < heap_variables) × (i < 2) × (w < heap_variables) }
    ensures plays { WorkerPlays m.new }
    ensures steps { Steps (ops.Set v i w) (heap_of m.old) (heap_of m.new) }
{
    let Ok(()) = m.set(v, i, w) else {
        unreachable!()
    };
}

/// Variable w becomes subtree i of variable v's node.
pub fn look(m: &mut Mutator, w: u8, v: u8, i: u8)
    requires plays { WorkerPlays m.old }
    requires range { (w < heap_variables) × (v < heap_variables) × (i < 2) }
    ensures plays { WorkerPlays m.new }
    ensures steps { Steps (ops.Get w v i) (heap_of m.old) (heap_of m.new) }
{
    let Ok(()) = m.get(w, v, i) else {
        unreachable!()
    };
}

/// Whether variable v refers to nothing.
pub fn is_nil(m: &Mutator, v: u8) -> bool
    requires plays { WorkerPlays m.now }
    requires range { v < heap_variables }
    ensures nil { OnTrue result (variable (heap_of m.now) v ≡ Nil) }
    ensures some { OnFalse result (variable (heap_of m.now) v ≡ Nil → ⊥) }
{
    let Ok(nil) = m.is_nil(v) else { unreachable!() };
    nil
}

/// Variable v refers to nothing any more.
pub fn forget(m: &mut Mutator, v: u8)
    requires plays { WorkerPlays m.old }
    requires range { v < heap_variables }
    ensures plays { WorkerPlays m.new }
    ensures steps { Steps (ops.Nil v) (heap_of m.old) (heap_of m.new) }
{
    let Ok(()) = m.forget(v) else { unreachable!() };
}
