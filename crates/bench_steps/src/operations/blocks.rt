ghost use Rattle.std.specs.Prelude.{◌<◌, ◌+◌, IfSome};
ghost use Rattle.gc_table.specs.Seats.{Sits};
ghost use Rattle.bench_steps.specs.Standing.{Filling, Waiting};

use alloc_cache::{Cache, claim, publish, retire};
use gc_table::{Heap, HeapSeat};
use mutator_ops::create;

/// None if each block was seen claimed or full.
pub fn take(heap: &Heap, seat: &mut HeapSeat, n: u32) -> Option<Cache>
    requires { Waiting heap.now n seat.old }
    ensures seat { Sits heap.now seat.new }
    ensures filling { IfSome result (λ cache. Filling heap.now n cache seat.new) }
{
    claim(heap, seat)
}

/// Makes an object in variable v, if the block has a free cell.
pub fn make(heap: &Heap, seat: &mut HeapSeat, cache: &mut Cache, v: u8, n: u32)
    requires variable { v < 32 }
    requires few { n < 100000 }
    requires filling { Filling heap.now n cache.old seat.old }
    ensures { Filling heap.now (n + 1) cache.new seat.new }
{
    create(heap, seat, cache, v, n);
}

/// Publishes what was made.
pub fn show(heap: &Heap, seat: &mut HeapSeat, cache: &mut Cache, n: u32)
    requires { Filling heap.now n cache.old seat.old }
    ensures { Filling heap.now n cache.new seat.new }
{
    publish(heap, seat, cache);
}

/// Publishes them, and gives up the block.
pub fn give_up(heap: &Heap, seat: &mut HeapSeat, cache: Cache, n: u32)
    requires { Filling heap.now n cache seat.old }
    ensures { Waiting heap.now n seat.new }
{
    retire(heap, seat, cache);
}
