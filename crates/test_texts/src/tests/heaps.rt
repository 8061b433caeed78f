//! Small scripts, played on heaps that forget nothing.
ghost use Rattle.std.specs.Prelude.{IsTrue};
ghost use Rattle.plain_heap.specs.PlainStep.{IsInRange};

use super::cases::{Kind, all_hold};
use gc_script::{Commands, read};
use plain_heap::{Line, Op, PlainHeap};
use std::alloc::Global;

fn is_in_range(op: Op) -> bool
    ensures { IsTrue result → IsInRange 4 op }
{
    match op {
        Op::New { v, n: _ } | Op::Put { v, n: _ } | Op::Nil { v } | Op::Say { v } => v < 32,
        Op::Let { v, w } => v < 32 && w < 32,
        Op::Set { v, i, w } | Op::Get { v, w, i } => v < 32 && i < 4 && w < 32,
        Op::Cat { v, c } => v < 32 && c < 32,
        Op::Sum { v, i, limit } => v < 32 && i < 4 && limit <= 65536,
        Op::Collect => true,
    }
}

fn step(heap: &mut PlainHeap, cat: Option<&PlainHeap>, op: Op) -> Option<Option<Line>> {
    let has_room = heap.objects().len() < 2_000_000 && heap.dropped() < 2_000_000;
    if !has_room || heap.fields() != 4 || !is_in_range(op) {
        return None;
    }
    heap.step(cat, op).ok()
}

fn play(
    alloc: Global,
    heap: &mut PlainHeap,
    cat: Option<&PlainHeap>,
    commands: Commands<'_, '_>,
) -> Option<String> {
    let mut text = String::new(alloc);
    for command in commands {
        if let Some(line) = step(heap, cat, command.op)? {
            text.push_str(format!(in alloc; "{line:?}, ").ok()?.as_str())
                .ok()?;
        }
    }
    Some(text)
}

/// How many objects a heap has, how many stores were dropped, the first two variables, and which objects are reached.
fn left(alloc: Global, heap: &PlainHeap) -> Option<String> {
    let reached = heap.reachable(alloc).ok()?;
    let (objects, dropped) = (heap.objects().len(), heap.dropped());
    let (first, second) = (heap.variable(0), heap.variable(1));
    format!(in alloc;
        "{objects} made, {dropped} dropped, {first:?}, {second:?}, {:?}",
        reached.as_slice()
    )
    .ok()
}

/// What a script's first warehouse prints, and what is left.
pub fn played(alloc: Global, source: &[u8]) -> Option<String> {
    let script = read(alloc, source).ok()?;
    let warehouse = script.warehouses().first()?;
    let mut heap = PlainHeap::new(alloc, 1, 4).ok()?;
    let printed = match script.catalogue() {
        None => play(alloc, &mut heap, None, warehouse.commands())?,
        Some(section) => {
            let mut cat = PlainHeap::new(alloc, 0, 4).ok()?;
            play(alloc, &mut cat, None, section.commands())?;
            play(alloc, &mut heap, Some(&cat), warehouse.commands())?
        }
    };
    let left = left(alloc, &heap)?;
    format!(in alloc; "{printed}{left}").ok()
}

const ONE: &str = "$ gcscript 1
warehouse
new a 5
say x a
=> Value(5), 1 made, 0 dropped, Own(0), Nil, [0]";

#[test]
fn one_object(rt: HostRuntime) {
    all_hold(&rt, Kind::Heap, ONE);
}

/// On nil nothing is stored, and what is read is nil. A variable that is read and assigned is read first.
const OWN: &str = "$ gcscript 1
warehouse
nil a
set a 0 a
put a 9
say x a
sum x a 0 5
new d 1
get d a 0
say x d
new a 5
put a 7
new b 8
set a 2 b
sum x a 2 5
sum x a 1 5
=> Nil, Walk { count: 0, total: 0 }, Nil, Walk { count: 2, total: 15 }, Walk { count: 1, total: 7 }, 3 made, 0 dropped, Own(1), Nil, [1, 2]
$ gcscript 1
warehouse
new a 7
new b 8
set a 2 b
set b 2 a
sum x a 2 5
sum x a 2 1
sum x a 2 0
collect
let a a
say x a
get a a 2
say x a
let e a
nil a
say x a
say x e
=> Walk { count: 5, total: 37 }, Walk { count: 1, total: 7 }, Walk { count: 0, total: 0 }, Value(7), Value(8), Nil, Value(8), 2 made, 0 dropped, Nil, Own(1), [0, 1]";

#[test]
fn own_objects(rt: HostRuntime) {
    all_hold(&rt, Kind::Heap, OWN);
}

/// Both stores are dropped. An own object may refer to the catalogue's.
const CATALOGUE: &str = "$ gcscript 1
catalogue
new a 40
new b 41
set a 0 b
nil c
warehouse
cat a a
say x a
sum x a 0 9
get b a 0
say x b
cat c c
say x c
put a 9
set a 0 c
sum x a 0 9
new d 1
set d 0 a
sum x d 0 9
=> Value(40), Walk { count: 2, total: 81 }, Value(41), Nil, Walk { count: 2, total: 81 }, Walk { count: 3, total: 82 }, 1 made, 2 dropped, Cat(0), Cat(1), [0]";

#[test]
fn catalogue_objects(rt: HostRuntime) {
    all_hold(&rt, Kind::Heap, CATALOGUE);
}

/// Nothing that is held refers to object 1.
const REACHED: &str = "$ gcscript 1
warehouse
new a 0
new b 0
new c 0
new d 0
set c 3 a
set a 1 d
set a 0 a
set b 0 c
nil a
nil b
nil d
=> 4 made, 0 dropped, Nil, Nil, [0, 2, 3]";

#[test]
fn reaches_through_fields(rt: HostRuntime) {
    all_hold(&rt, Kind::Heap, REACHED);
}
