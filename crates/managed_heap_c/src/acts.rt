//! What a call for a shared world does with the mutator behind a handle: that of the export of its name, or it answers
//! `GIVEN_BACK` if the handle is empty.
ghost use Rattle.seat_steps.specs.Acting.{TakesRoot};
ghost use Rattle.managed_heap_c.specs.Acting.{ExchangesTo, ExchangesValueTo, Fills, ForgetsSlots, NumbersTo, PlacesTo, Spills, WritesNumber, WritesPlace};
ghost use Rattle.managed_heap_c.specs.Answering.{Answers, SparesGone};

use crate::asked::write_answer;
use crate::bytes::{byte_beside, byte_of, half_of};
use crate::hands::Hand;
use crate::statuses::{GIVEN_BACK, status};
use seat_steps::Came;

pub fn root_by(hand: &mut Hand, v: u32) -> u32
    ensures answers { Answers (λ came. TakesRoot came v) result hand.old.stepper hand.new.stepper }
{
    match &mut hand.stepper {
        None => GIVEN_BACK,
        Some(stepper) => {
            let v = byte_of(v);
            status(stepper.root(v))
        }
    }
}

pub fn exchange_by(hand: &mut Hand, v: u32, i: u32, expected: u32, next: u32, won: &mut u32) -> u32
    ensures answers { Answers (ExchangesTo v i expected next won.old won.new) result hand.old.stepper hand.new.stepper }
    ensures quiet { SparesGone hand.old.stepper won.old won.new }
{
    match &mut hand.stepper {
        None => GIVEN_BACK,
        Some(stepper) => {
            let v = byte_of(v);
            let i = byte_of(i);
            let expected = byte_of(expected);
            let next = byte_of(next);
            status(write_answer(stepper.exchange(v, i, expected, next), won))
        }
    }
}

pub fn exchange_value_by(hand: &mut Hand, v: u32, expected: u32, next: u32, won: &mut u32) -> u32
    ensures answers { Answers (ExchangesValueTo v expected next won.old won.new) result hand.old.stepper hand.new.stepper }
    ensures quiet { SparesGone hand.old.stepper won.old won.new }
{
    match &mut hand.stepper {
        None => GIVEN_BACK,
        Some(stepper) => {
            let v = byte_of(v);
            status(write_answer(stepper.exchange_value(v, expected, next), won))
        }
    }
}

pub fn spill_by(hand: &mut Hand, v: u32, k: u32) -> u32
    ensures answers { Answers (Spills v k) result hand.old.stepper hand.new.stepper }
{
    match &mut hand.stepper {
        None => GIVEN_BACK,
        Some(stepper) => {
            let v = byte_beside(v, k);
            let k = half_of(k);
            status(stepper.spill(v, k))
        }
    }
}

pub fn fill_by(hand: &mut Hand, v: u32, k: u32) -> u32
    ensures answers { Answers (Fills v k) result hand.old.stepper hand.new.stepper }
{
    match &mut hand.stepper {
        None => GIVEN_BACK,
        Some(stepper) => {
            let v = byte_beside(v, k);
            let k = half_of(k);
            status(stepper.fill(v, k))
        }
    }
}

pub fn forget_slots_by(hand: &mut Hand, from: u32, to: u32) -> u32
    ensures answers { Answers (ForgetsSlots from to) result hand.old.stepper hand.new.stepper }
{
    match &mut hand.stepper {
        None => GIVEN_BACK,
        Some(stepper) => status(stepper.forget_slots(from, to)),
    }
}

fn write_place(answer: Result<u32, Came>, out: &mut u32) -> Came
    ensures writes { WritesPlace result answer out.old out.new }
{
    match answer {
        Ok(place) => {
            *out = place;
            Came::Done
        }
        Err(came) => came,
    }
}

pub fn place_by(hand: &mut Hand, v: u32, place: &mut u32) -> u32
    ensures answers { Answers (PlacesTo v place.old place.new) result hand.old.stepper hand.new.stepper }
    ensures quiet { SparesGone hand.old.stepper place.old place.new }
{
    match &mut hand.stepper {
        None => GIVEN_BACK,
        Some(stepper) => {
            let v = byte_of(v);
            status(write_place(stepper.place(v), place))
        }
    }
}

fn write_number(answer: Result<u64, Came>, section: &mut u32, number: &mut u32) -> Came
    ensures writes { WritesNumber result answer section.old number.old section.new number.new }
{
    match answer {
        Ok(n) => {
            *section = (n / 4_294_967_296) as u32;
            *number = (n % 4_294_967_296) as u32;
            Came::Done
        }
        Err(came) => came,
    }
}

pub fn number_by(hand: &mut Hand, v: u32, section: &mut u32, number: &mut u32) -> u32
    ensures answers { Answers (NumbersTo v section.old number.old section.new number.new) result hand.old.stepper hand.new.stepper }
    ensures quiet { SparesGone hand.old.stepper section.old section.new }
    ensures spares { SparesGone hand.old.stepper number.old number.new }
{
    match &mut hand.stepper {
        None => GIVEN_BACK,
        Some(stepper) => {
            let v = byte_of(v);
            status(write_number(stepper.number(v), section, number))
        }
    }
}
