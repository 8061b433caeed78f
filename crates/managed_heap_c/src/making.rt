//! An object is made with its references.
//!
//! No kind of step stores anything but nil in a new cell's fields. So the references are stored afterwards, as by
//! any other store, before the call ends: until then only the mutator's variable refers to the object.
ghost use Rattle.std.specs.Prelude.{◌≡◌, ◌<◌, length};
ghost use Rattle.std.specs.Bool.{OnFalse, OnTrue};
ghost use Rattle.mark_core.specs.Numbers.{section_variables};
ghost use Rattle.seat_steps.specs.Stepping.{fields_in};
ghost use Rattle.seat_steps.specs.declared.stepper.Stage.TheVariants as stages;
ghost use Rattle.managed_heap_c.specs.Making.{AreGiven, CanMakeWith, IsGiven, MakesWith, SetsFirst, SetsGiven};

use mark_core::VARIABLES;
use seat_steps::{Came, Stepper};

/// The number that stands for no variable.
const NO_VARIABLE: u32 = 4_294_967_295;

fn is_given(n: u32) -> bool
    ensures given { OnTrue result (IsGiven n) }
    ensures other { OnFalse result (IsGiven n → ⊥) }
{
    n < u32::from(VARIABLES) || n == NO_VARIABLE
}

fn are_given(fields: &[u32]) -> bool
    ensures given { OnTrue result (AreGiven fields.now) }
    ensures other { OnFalse result (AreGiven fields.now → ⊥) }
{
    for i in 0..fields.len() {
        if !is_given(fields[i]) {
            return false;
        }
    }
    true
}

fn can_make_with(stepper: &Stepper, v: u32, fields: &[u32]) -> bool
    ensures can { OnTrue result (CanMakeWith v fields.now stepper.now) }
    ensures not { OnFalse result (CanMakeWith v fields.now stepper.now → ⊥) }
{
    if v >= u32::from(VARIABLES) {
        return false;
    }
    if fields.len() > stepper.fields() as usize {
        return false;
    }
    are_given(fields)
}

fn set_given(stepper: &mut Stepper, v: u8, i: u8, n: u32)
    requires inside { stepper.old.stage ≡ stages.Inside }
    requires range { (v < section_variables) × (i < fields_in stepper.old) × IsGiven n }
    ensures sets { SetsGiven v i n stepper.old stepper.new }
    ensures inside { stepper.new.stage ≡ stages.Inside }
    ensures fields { fields_in stepper.new ≡ fields_in stepper.old }
{
    if n != NO_VARIABLE {
        stepper.set(v, i, n as u8);
    }
}

fn set_all(stepper: &mut Stepper, v: u8, fields: &[u32])
    requires inside { stepper.old.stage ≡ stages.Inside }
    requires can { CanMakeWith v fields.now stepper.old }
    ensures sets { SetsFirst (length fields.now) v fields.now stepper.old stepper.new }
{
    for i in 0..fields.len() {
        set_given(stepper, v, i as u8, fields[i]);
    }
}

/// Makes an object whose first fields become what these variables are. All numbers are looked at first.
pub fn make_with_in(stepper: &mut Stepper, v: u32, value: u32, fields: &[u32]) -> Came
    ensures makes { MakesWith v value fields.now result stepper.old stepper.new }
{
    if !can_make_with(stepper, v, fields) {
        return Came::OutOfRange;
    }
    match stepper.make(v as u8, value) {
        Came::Done => {
            set_all(stepper, v as u8, fields);
            Came::Done
        }
        other => other,
    }
}
