//! Which of many weak references have dead objects, by one call for a piece of a table.
ghost use Rattle.std.specs.Bool.{OnFalse, OnTrue};
ghost use Rattle.std.specs.Prelude.{◌≡◌, ◌≤◌, ◌<◌, ◌+◌, ◌^◌, length, take};
ghost use Rattle.managed_heap_c.specs.Answering.{Answers, SparesGone};
ghost use Rattle.managed_heap_c.specs.Deaths.{Counts, DeathsTo, EntryCame, GoesThrough, HasRoom, IsRefusal};

use crate::bytes::byte_of;
use crate::hands::Hand;
use crate::statuses::{GIVEN_BACK, status};
use seat_steps::{Came, Stepper};
use seat_turns::Weak;

/// The entries of the largest table: as many as a number of C counts.
const LARGEST_TABLE: usize = 4_294_967_295;

fn has_room(weaks: &[Weak], room: usize) -> bool
    ensures room { OnTrue result (HasRoom weaks.now room) }
    ensures none { OnFalse result (HasRoom weaks.now room → ⊥) }
{
    weaks.len() <= room && weaks.len() <= LARGEST_TABLE
}

fn entry_came(stepper: &mut Stepper, weak: Weak, v: u8) -> Came
    ensures came { EntryCame weak v result stepper.old stepper.new }
{
    if weak.world == 0 {
        return Came::Done;
    }
    stepper.death(weak, v)
}

/// Notes the number of an entry whose object is dead. False if the entry was refused.
fn counts(came: Came, k: u32, dead: &mut [u32], many: &mut u32) -> bool
    requires room { (many.old ≤ k) × (k < length dead.old) }
    requires low { k + 1 < 2 ^ 32 }
    ensures counts { OnTrue result (Counts came k (take many.old dead.old) (take many.new dead.new)) }
    ensures below { many.new ≤ k + 1 }
    ensures refused { OnFalse result (IsRefusal came × (take many.new dead.new ≡ take many.old dead.old)) }
{
    match came {
        Came::Done => true,
        Came::Dead => {
            dead[*many as usize] = k;
            *many += 1;
            true
        }
        _ => false,
    }
}

fn go_through(
    stepper: &mut Stepper,
    weaks: &[Weak],
    v: u8,
    dead: &mut [u32],
    many: &mut u32,
) -> Came
    requires none { many.old ≡ 0 }
    requires room { HasRoom weaks.now (length dead.old) }
    ensures goes { GoesThrough v weaks.now (take many.new dead.new) result stepper.old stepper.new }
    ensures within { many.new ≤ length dead.new }
{
    for k in 0..weaks.len() {
        let came = entry_came(stepper, weaks[k], v);
        if !counts(came, k as u32, dead, many) {
            return came;
        }
    }
    Came::Done
}

fn deaths_in(stepper: &mut Stepper, weaks: &[Weak], v: u8, dead: &mut [u32], many: &mut u32) -> Came
    ensures deaths { DeathsTo v weaks.now dead.old many.old dead.new many.new result stepper.old stepper.new }
{
    if !has_room(weaks, dead.len()) {
        return Came::OutOfRange;
    }
    match stepper.forget(v) {
        Came::Done => {
            *many = 0;
            go_through(stepper, weaks, v, dead, many)
        }
        refused => refused,
    }
}

pub fn deaths_by(hand: &mut Hand, weaks: &[Weak], v: u32, dead: &mut [u32], many: &mut u32) -> u32
    ensures answers { Answers (DeathsTo v weaks.now dead.old many.old dead.new many.new) result hand.old.stepper hand.new.stepper }
    ensures quiet { SparesGone hand.old.stepper dead.old dead.new }
    ensures spares { SparesGone hand.old.stepper many.old many.new }
{
    match &mut hand.stepper {
        None => GIVEN_BACK,
        Some(stepper) => {
            let v = byte_of(v);
            status(deaths_in(stepper, weaks, v, dead, many))
        }
    }
}
