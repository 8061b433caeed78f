//! Stores into an object, which say if there is none.
ghost use Rattle.plain_heap.specs.declared.operation.Op.TheVariants as ops;
ghost use Rattle.managed_heap_c.specs.Storing.{Stores, TellsNil};

use seat_steps::{Came, Stepper};

/// `Came::Nil` if the call was done and the variable refers to nothing, so that nothing was stored.
fn unless_nil(came: Came, nil: Result<bool, Came>) -> Came
    ensures tells { TellsNil result came nil }
{
    match (came, nil) {
        (Came::Done, Ok(true)) => Came::Nil,
        (came, _) => came,
    }
}

pub fn set_in(stepper: &mut Stepper, v: u8, i: u8, w: u8) -> Came
    ensures stores { Stores v (ops.Set v i w) result stepper.old stepper.new }
{
    let nil = stepper.is_nil(v);
    unless_nil(stepper.set(v, i, w), nil)
}

pub fn put_in(stepper: &mut Stepper, v: u8, value: u32) -> Came
    ensures stores { Stores v (ops.Put v value) result stepper.old stepper.new }
{
    let nil = stepper.is_nil(v);
    unless_nil(stepper.put(v, value), nil)
}
