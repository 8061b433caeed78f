//! The state of the core.
ghost use Rattle.std.specs.Prelude.{◌≡◌, ◌≤◌, if◌then◌else◌, is_ok, slice_get, IfOk, OnOk, IfErr, None, Some};
ghost use Rattle.std.specs.Option.{option_copied};
ghost use Rattle.mark_core.specs.Kinds.{kind_of};
ghost use Rattle.mark_core.specs.Shapes.{IsShape};
ghost use Rattle.mark_core.specs.Laws.{IsCore};
ghost use Rattle.mark_core.specs.Steps.{Core, failing_part, after_event, start_core, run_of, first_refused};
ghost use Rattle.mark_core.specs.Numbers.{most_seats};

use crate::addresses::address;
use crate::kinds::{Event, Shape};
use crate::records::{change_others, seat_at};
use crate::refused::{NotAllowed, Rule};
use crate::seat::SeatState;
use crate::start::{start_seats, start_words};
use crate::words::word_at;
use crate::{conditions, effects, passes};
use plain_heap::OutOfMemory;
use std::alloc::Global;
use std::marker::Model;

/// The sizes of a heap, its words, and a record for each seat, as allowed events made them from [`CoreState::start`].
/// There is room for [`SEATS`](crate::SEATS) seats, so only `start` takes memory.
#[derive(Drop)]
pub struct CoreState {
    pub(crate) shape: Shape,
    pub(crate) words: Vec<u64>,
    pub(crate) seats: Vec<SeatState>,
}

impl Model for CoreState {
    ghost use Rattle.std.specs.Prelude.{◌≤◌, vec_capacity};
    ghost use Rattle.mark_core.specs.Steps.{Core};
    ghost use Rattle.mark_core.specs.Bounds.{IsBounded};
    ghost use Rattle.mark_core.specs.Laws.{IsCore};
    ghost use Rattle.mark_core.specs.Numbers.{most_seats};

    ghost Value = { Core };

    ghost view = { λ a. record { shape = a.shape; words = a.words.items; seats = a.seats.items } };

    ghost invariant = { λ a. IsBounded (record { shape = a.shape; words = a.words.items; seats = a.seats.items }) × (most_seats ≤ vec_capacity a.seats)
        × IsCore (record { shape = a.shape; words = a.words.items; seats = a.seats.items }) };
}

impl CoreState {
    /// The state in which `seats` seats, 1 to [`SEATS`](crate::SEATS), have done nothing. Seat w has section w, and
    /// seats past the sections have none. It is refused only if memory runs out.
    pub fn start(alloc: Global, shape: Shape, seats: u32) -> Result<CoreState, OutOfMemory>
        requires shaped { IsShape shape }
        requires some { 1 ≤ seats }
        requires few { seats ≤ most_seats }
        ensures { IfOk result (λ c. c ≡ start_core shape seats) }
    {
        let words = match start_words(alloc, &shape) {
            Ok(words) => words,
            Err(_) => return Err(OutOfMemory),
        };
        match start_seats(alloc, &shape, seats) {
            Ok(seats) => Ok(CoreState {
                shape,
                words,
                seats,
            }),
            Err(_) => Err(OutOfMemory),
        }
    }

    fn failing(&self, event: &Event) -> Option<u8>
        ensures { result ≡ failing_part self.now event.now }
    {
        let i = event.seat as usize;
        if i >= self.seats.len() {
            return Some(0);
        }
        let s = &self.seats[i];
        if s.spent {
            return Some(0);
        }
        conditions::failing_part(
            &self.shape,
            self.words.as_slice(),
            self.seats.as_slice(),
            s,
            &event.step,
        )
    }

    fn act(&mut self, event: &Event)
        requires { failing_part self.old event.now ≡ None }
        ensures { self.new ≡ after_event self.old event.now }
    {
        let i = event.seat as usize;
        let mut s = self.seats[i];
        let at = address(&self.shape, &s, &event.step);
        let old = self.words[at];
        effects::has_value(&event.step);
        let word = effects::act(&self.shape, &mut s, &event.step, old);
        self.words[at] = word;
        self.seats[i] = s;
        change_others(&self.shape, &mut self.seats, &event.step);
    }

    /// Takes one step of one seat. An event is refused exactly if a part of its step's condition fails, with the step's
    /// kind and the least such part; the state then stays as it was.
    pub fn apply(&mut self, event: Event) -> Result<(), NotAllowed>
        ensures allowed { OnOk result (failing_part self.old event ≡ None) }
        ensures after { self.new ≡ (if is_ok result then after_event self.old event else self.old) }
        ensures refused { IfErr result (λ e. (e.rule.kind ≡ kind_of event.step) × (failing_part self.old event ≡ Some e.rule.part)) }
    {
        match self.failing(&event) {
            Some(part) => {
                let rule = Rule {
                    kind: passes::kind_of(&event.step),
                    part,
                };
                Err(NotAllowed { rule })
            }
            None => {
                self.act(&event);
                Ok(())
            }
        }
    }

    /// Takes the events in order, up to the first that is refused, and answers its index and what it broke.
    pub fn run(&mut self, events: &[Event]) -> Result<(), (usize, Rule)>
        ensures state { self.new ≡ run_of events.now self.old }
        ensures all { OnOk result (first_refused 0 events.now self.old ≡ None) }
        ensures refused { IfErr result (λ e. first_refused 0 events.now self.old ≡ Some (e.0, e.1.kind, e.1.part)) }
    {
        let mut i = 0;
        while i < events.len() {
            if let Err(refusal) = self.apply(events[i]) {
                return Err((i, refusal.rule));
            }
            i += 1;
        }
        Ok(())
    }

    /// The sizes of the heap. Whatever events led to it, the state is sound.
    pub fn shape(&self) -> &Shape
        ensures shape { result.now ≡ self.now.shape }
        ensures sound { IsCore self.now }
    {
        &self.shape
    }

    /// What the seat with this number knows and has in hand, if there is such a seat.
    pub fn seat(&self, seat: u32) -> Option<&SeatState>
        ensures { option_copied result ≡ slice_get self.now.seats seat }
    {
        seat_at(self.seats.as_slice(), seat)
    }

    /// The word at this index, in the order of `docs/STEPS.md`; None past the last word.
    pub fn word(&self, index: u32) -> Option<u64>
        ensures { result ≡ slice_get self.now.words index }
    {
        word_at(self.words.as_slice(), index as usize)
    }
}
