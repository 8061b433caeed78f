//! What plays a section.
ghost use Rattle.std.specs.Prelude.{◌≡◌, ◌≤◌, [], IfOk, IfErr};
ghost use Rattle.gc_table.specs.Seats.{Sits, state_of, view_of};
ghost use Rattle.plain_heap.specs.Sections.{joined};
ghost use Rattle.warehouse.specs.Playing.{HasRoomForCommands};
ghost use Rattle.gc_cycle.specs.Standing.{IsOut};
ghost use Rattle.warehouse.specs.Ending.{PlaySettles};
ghost use Rattle.warehouse.specs.Pacing.{EndsCyclesAlone};
ghost use Rattle.warehouse.specs.Turns.{KeepsPart, MayTurnSeason, TurnEnds};

use crate::season::{end_play, turn_season};
use gc_script::Section;
use gc_table::{Heap, HeapSeat};
use plain_heap::OutOfMemory;
use play_end::Played;
use play_report::Said;
use std::alloc::Global;
use std::sync::Wait;

/// A section's seat, with its lines so far and the cells of its objects. It goes from thread to thread.
#[derive(Drop)]
pub struct Mutator<'a> {
    pub(crate) seat: HeapSeat,
    pub(crate) said: Vec<Said<'a>>,
    /// The cell of each object, by its number.
    pub(crate) places: Vec<u32>,
    /// How many stores went to objects of the catalogue.
    pub(crate) dropped: u32,
    pub(crate) count: u32,
}

impl<'a> Mutator<'a> {
    /// Takes all the memory that the section needs. If that fails, the seat comes back.
    pub fn make(
        alloc: Global,
        seat: HeapSeat,
        section: &Section<'a>,
    ) -> Result<Mutator<'a>, (HeapSeat, OutOfMemory)>
        ensures made { IfOk result (λ m. (m.seat ≡ seat) × (m.said.items ≡ []) × (m.places.items ≡ []) × (m.dropped ≡ 0) × (m.count ≡ 0)) }
        ensures room { (state_of seat).made ≡ 0 → 2000000 ≤ (view_of seat).shape.objects → IfOk result (λ m. HasRoomForCommands (joined section.now.parts) m) }
        ensures refused { IfErr result (λ e. e.0 ≡ seat) }
    {
        section.commands();
        let Ok(said) = Vec::with_capacity(alloc, section.printed() as usize) else {
            return Err((seat, OutOfMemory));
        };
        match Vec::with_capacity(alloc, section.made() as usize) {
            Ok(places) => Ok(Mutator {
                seat,
                said,
                places,
                dropped: 0,
                count: 0,
            }),
            Err(_) => Err((seat, OutOfMemory)),
        }
    }

    /// The number of its seat.
    pub fn number(&self) -> u32
        ensures { result ≡ (view_of self.now.seat).state.number }
    {
        self.seat.number()
    }

    /// As [`turn_season`](crate::turn_season), with the catalogue's seat.
    pub fn next_turn<R: Wait>(&mut self, rt: &R, heap: &Heap) -> Played
        requires seat { Sits heap.now self.old.seat × IsOut (view_of self.old.seat) }
        requires turn { MayTurnSeason (view_of self.old.seat) }
        ensures kept { self.new ≡ record self.old { seat = self.new.seat } }
        ensures seat { Sits heap.now self.new.seat × IsOut (view_of self.new.seat) }
        ensures keeps { KeepsPart (view_of self.old.seat) (view_of self.new.seat) }
        ensures ends { TurnEnds result (view_of self.old.seat) (view_of self.new.seat) }
        ensures paces { EndsCyclesAlone (view_of self.old.seat) (view_of self.new.seat) }
    {
        turn_season(rt, heap, &mut self.seat)
    }

    /// As [`end_play`](crate::end_play), with the catalogue's seat.
    pub fn end_play<R: Wait>(&mut self, rt: &R, heap: &Heap) -> Played
        requires seat { Sits heap.now self.old.seat × IsOut (view_of self.old.seat) }
        requires turn { MayTurnSeason (view_of self.old.seat) }
        ensures kept { self.new ≡ record self.old { seat = self.new.seat } }
        ensures seat { Sits heap.now self.new.seat × IsOut (view_of self.new.seat) }
        ensures keeps { KeepsPart (view_of self.old.seat) (view_of self.new.seat) }
        ensures ends { TurnEnds result (view_of self.old.seat) (view_of self.new.seat) }
        ensures settles { PlaySettles result (view_of self.old.seat) (view_of self.new.seat) }
        ensures paces { EndsCyclesAlone (view_of self.old.seat) (view_of self.new.seat) }
    {
        end_play(rt, heap, &mut self.seat)
    }

    /// The seat, what was printed, each object's cell by its number, and how many stores were dropped.
    pub fn finish(self) -> (HeapSeat, Vec<Said<'a>>, Vec<u32>, u32)
        ensures { (result.0 ≡ self.entry.seat) × (result.1 ≡ self.entry.said) × (result.2 ≡ self.entry.places) × (result.3 ≡ self.entry.dropped) }
    {
        let Mutator {
            seat,
            said,
            places,
            dropped,
            count: _,
        } = self;
        (seat, said, places, dropped)
    }
}
