//! Each call that the other examples don't make, once.
ghost use Rattle.std.specs.Prelude.{◌≡◌, IfSome};
ghost use Rattle.std.specs.Arc.{arc_value};

use shared_heap::{NotClosed, Refused, SharedMutator, SharedSizes, SharedWorld, Tracer};
use std::io;
use std::rt::Runtime;
use std::sync::Wait;

/// The variables: the root, and three to work with.
const ROOT: u8 = 0;

const MADE: u8 = 1;

const FOUND: u8 = 2;

const NONE: u8 = 3;

/// The name of the first object that mutator 1 makes.
const FIRST: u64 = 4_294_967_296;

/// Whether slot 2 still refers to the object of this cell and number.
fn finds_again(m: &mut SharedMutator, cell: u32, number: u64) -> Result<bool, Refused>
    ensures world { arc_value m.new.heap ≡ arc_value m.old.heap }
{
    m.fill(FOUND, 2)?;
    let place = m.place(FOUND)?;
    let found = m.number(FOUND)?;
    let value = m.value(FOUND)?;
    Ok(place == cell && found == number && value == 7)
}

fn forgets(m: &mut SharedMutator) -> Result<bool, Refused>
    ensures world { arc_value m.new.heap ≡ arc_value m.old.heap }
{
    m.forget_slots(0, 4)?;
    m.fill(NONE, 2)?;
    m.is_nil(NONE)
}

/// Whether an object that only a slot keeps is there after a collection.
fn keep_in_slot<R: Wait>(rt: &R, m: &mut SharedMutator) -> Result<bool, Refused>
    ensures world { arc_value m.new.heap ≡ arc_value m.old.heap }
{
    let made = m.make(rt, MADE, 7)?;
    let number = m.number(MADE)?;
    m.spill(MADE, 2)?;
    m.forget(MADE)?;
    m.collect(rt)?;
    let same = finds_again(m, made, number)?;
    let forgotten = forgets(m)?;
    Ok(same && forgotten && number == FIRST)
}

/// Of two exchanges that expect the same, one wins.
fn exchange_twice(m: &mut SharedMutator) -> Result<bool, Refused>
    ensures world { arc_value m.new.heap ≡ arc_value m.old.heap }
{
    m.root(ROOT)?;
    let first = m.exchange(ROOT, 0, NONE, FOUND)?;
    let second = m.exchange(ROOT, 0, NONE, FOUND)?;
    m.get(MADE, ROOT, 0)?;
    Ok(first && !second && m.same(MADE, FOUND)?)
}

fn try_all<R: Wait>(rt: &R, m: &mut SharedMutator) -> Result<bool, Refused>
    ensures world { arc_value m.new.heap ≡ arc_value m.old.heap }
{
    m.enter(rt)?;
    let kept = keep_in_slot(rt, m)?;
    let won = exchange_twice(m)?;
    m.put(ROOT, 9)?;
    let put = m.value(ROOT)? == 9;
    let refused = m.spill(MADE, 4).is_err();
    m.leave();
    Ok(kept && won && put && refused)
}

fn stays_open<R: AllocGlobal>(rt: &R, world: SharedWorld) -> Option<SharedWorld>
    ensures same { IfSome result (λ w. w ≡ world) }
{
    match world.close(rt.alloc(), Vec::new(rt.alloc()), Vec::new(rt.alloc())) {
        Err(NotClosed::Missing(kept)) => Some(kept.world),
        _ => None,
    }
}

/// Whether the world closes, with a value for each cell.
fn closes<R: AllocGlobal>(rt: &R, world: SharedWorld, m: SharedMutator, t: Tracer) -> bool
    requires same { arc_value m.heap ≡ arc_value world.heap }
    requires same_tracer { arc_value t.heap ≡ arc_value world.heap }
{
    let mut all = Vec::new(rt.alloc());
    let mut tracers = Vec::new(rt.alloc());
    match (all.push(m), tracers.push(t)) {
        (Err(_), _) => false,
        (_, Err(_)) => false,
        (Ok(()), Ok(())) => match world.close(rt.alloc(), all, tracers) {
            Ok(words) => words.values.len() == 64,
            Err(_) => false,
        },
    }
}

/// The world isn't closed without its mutator and its tracer.
fn open_and_close<R: Wait + AllocGlobal>(rt: &R) -> bool {
    let sizes = SharedSizes::of_cells(64).slots(4).packets(8, 16).tracers(1);
    let Ok(mut world) = SharedWorld::open(rt.alloc(), sizes) else {
        return false;
    };
    let Some(mut m) = world.mutator() else {
        return false;
    };
    let Some(t) = world.tracer() else {
        return false;
    };
    let passed = try_all(rt, &mut m) == Ok(true);
    let counted = world.statistics().cells == 64;
    match stays_open(rt, world) {
        Some(kept) => closes(rt, kept, m, t) && passed && counted,
        None => false,
    }
}

/// Makes each call, and tells whether all went well.
pub fn tell<R: Runtime + Wait + AllocGlobal>(rt: &R) -> io::Result<()> {
    println!(rt; "trying: {}", open_and_close(rt))
}
