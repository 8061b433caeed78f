//! Before the threads begin: each asks for the root, and one mutator lays the queue out.
ghost use Rattle.std.specs.Bool.{OnTrue};
ghost use Rattle.example_queues.specs.Logs.{Comes, LaysRoot, LetsGo};

use shared_heap::SharedMutator;
use std::sync::Wait;

/// The queue's variable.
pub const ROOT: u8 = 0;

/// The node with which the queue begins.
const NODE: u8 = 20;

/// Lets the queue's variable refer to the root.
pub fn come<R: Wait>(rt: &R, m: &mut SharedMutator) -> bool
    ensures comes { OnTrue result (Comes m.old m.new) }
{
    if m.enter(rt).is_err() || m.root(ROOT).is_err() {
        return false;
    }
    m.leave();
    true
}

/// Both fields of the root refer to a new node.
pub fn lay<R: Wait>(rt: &R, m: &mut SharedMutator) -> bool
    ensures laid { OnTrue result (LaysRoot m.old m.new) }
{
    if m.enter(rt).is_err() || m.root(ROOT).is_err() || m.make(rt, NODE, 0).is_err() {
        return false;
    }
    if m.set(ROOT, 0, NODE).is_err() || m.set(ROOT, 1, NODE).is_err() {
        return false;
    }
    m.leave();
    true
}

/// Lets go of that node, and with it of all that comes behind it.
pub fn let_go<R: Wait>(rt: &R, m: &mut SharedMutator) -> bool
    ensures gone { OnTrue result (LetsGo m.old m.new) }
{
    if m.enter(rt).is_err() || m.forget(NODE).is_err() {
        return false;
    }
    m.leave();
    true
}
