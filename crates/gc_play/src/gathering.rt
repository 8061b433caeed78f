ghost use Rattle.std.specs.Prelude.{◌≡◌, ◌+◌, ◌%◌, ◌<◌, ◌≤◌, [], ◌∷◌, IfOk, OnOk, length, slice_index_or, vec_len};
ghost use Rattle.plain_heap.specs.Sections.{seasons};
ghost use Rattle.gc_play.specs.declared.season.Ended.TheVariants as ends;
ghost use Rattle.gc_play.specs.Crews.{AreAfter, AreLeftBy, AreSaid, AreTracers, WarehouseEndsAt, HandsOver, IsSeatLeftBy, Numbered, PlayEnds, SomeKnows, SomeSeatKnows, seat_in};
ghost use Rattle.gc_play.specs.Dealing.{EachOne, IsDealt, TakesLast, seat_number};

use crate::crew::{Catalogue, Crew};
use crate::season::Ended;
use crate::workers::Worker;
use gc_script::Script;
use gc_table::{Heap, HeapSeat};
use plain_heap::OutOfMemory;
use play_report::{Part, Said};
use std::alloc::Global;
use warehouse::Mutator;

fn take_back<'a>(workers: &mut Vec<Worker<'a>>, at: usize) -> Mutator<'a>
    requires some { 0 < vec_len workers.old }
    requires dealt { IsDealt (vec_len workers.old) (at + 1) workers.old.items }
    ensures dealt { IsDealt (vec_len workers.old) at workers.new.items }
    ensures number { seat_number result ≡ at + 1 }
    ensures takes { TakesLast (at % vec_len workers.old) result workers.old.items workers.new.items }
{
    let turn = at % workers.len();
    let Some(mutator) = workers[turn].mutators.pop() else {
        unreachable!()
    };
    mutator
}

/// Puts what a section's player had before what later sections had.
fn hand_over<'a>(
    seats: &mut Vec<HeapSeat>,
    parts: &mut Vec<Part<'a>>,
    seat: HeapSeat,
    said: Vec<Said<'a>>,
    places: Vec<u32>,
    dropped: u32,
) -> Result<(), OutOfMemory>
    ensures seats { OnOk result (seats.new.items ≡ seat ∷ seats.old.items) }
    ensures parts { OnOk result (parts.new.items ≡ record { said = said.entry; dropped = dropped; places = places } ∷ parts.old.items) }
{
    match seats.insert(0, seat) {
        Ok(()) => {}
        Err(_) => return Err(OutOfMemory),
    }
    match parts.insert(
        0,
        Part {
            said,
            dropped,
            places,
        },
    ) {
        Ok(()) => Ok(()),
        Err(_) => Err(OutOfMemory),
    }
}

/// Puts the warehouses' seats back before the tracers', in order, with their parts of the report.
pub(crate) fn gather<'a>(
    heap: &Heap,
    script: &Script<'a>,
    workers: &mut Vec<Worker<'a>>,
    seats: &mut Vec<HeapSeat>,
    parts: &mut Vec<Part<'a>>,
    ended: Ended,
    season: u32,
) -> Result<(), OutOfMemory>
    requires some { 0 < vec_len workers.old }
    requires dealt { IsDealt (vec_len workers.old) (length script.now.sections.warehouses) workers.old.items }
    requires ends { EachOne (WarehouseEndsAt ended heap.now script.now.sections season) workers.old.items }
    requires season { 1 ≤ season }
    requires seats { AreTracers heap.now script.now.sections seats.old.items }
    requires parts { parts.old.items ≡ [] }
    ensures seats { OnOk result (Numbered (IsSeatLeftBy ended heap.now script.now.sections season) 1 seats.new.items) }
    ensures count { OnOk result (vec_len seats.new ≡ vec_len seats.old + length script.now.sections.warehouses) }
    ensures tracers { OnOk result (AreAfter (length script.now.sections.warehouses) seats.old.items seats.new.items) }
    ensures parts { OnOk result (length parts.new.items ≡ length script.now.sections.warehouses) }
    ensures said { OnOk result (AreSaid ended script.now.sections season 1 seats.new.items parts.new.items) }
    ensures knows { OnOk result (SomeKnows workers.old.items → SomeSeatKnows seats.new.items) }
{
    let warehouses = script.warehouses().len();
    for taken in 0..warehouses {
        let at = warehouses - 1 - taken;
        let mutator = take_back(workers, at);
        let (seat, said, places, dropped) = mutator.finish();
        match hand_over(seats, parts, seat, said, places, dropped) {
            Ok(()) => {}
            Err(e) => return Err(e),
        }
    }
    Ok(())
}

fn hand_catalogue<'a>(
    alloc: Global,
    catalogue: Catalogue<'a>,
) -> (HeapSeat, Vec<Said<'a>>, Vec<u32>, u32)
    ensures { HandsOver catalogue.entry result.0 result.1.items result.2.items result.3 }
{
    match catalogue {
        Catalogue::Playing(mutator) => mutator.finish(),
        Catalogue::Absent(seat) => (seat, Vec::new(alloc), Vec::new(alloc), 0),
    }
}

/// All seats of a play, by their numbers, and the parts of its report.
pub(crate) fn put_away<'a>(
    alloc: Global,
    heap: &Heap,
    script: &Script<'a>,
    crew: Crew<'a>,
    mut parts: Vec<Part<'a>>,
    ended: Ended,
    season: u32,
) -> Result<(Vec<HeapSeat>, Vec<Part<'a>>), OutOfMemory>
    requires season { 1 ≤ season }
    requires all { ended ≡ ends.Done → season ≡ seasons script.now.sections }
    requires crew { PlayEnds ended heap.now script.now.sections season crew }
    requires parts { parts.items ≡ [] }
    ensures left { IfOk result (λ r. AreLeftBy ended heap.now script.now.sections season r.0.items r.1.items) }
    ensures count { IfOk result (λ r. vec_len r.0 ≡ vec_len crew.entry.tracers + (1 + length script.now.sections.warehouses)) }
    ensures first { IfOk result (λ r. (d : HeapSeat) → slice_index_or r.0.items 0 d ≡ seat_in crew.entry.catalogue) }
    ensures tracers { IfOk result (λ r. AreAfter (1 + length script.now.sections.warehouses) crew.entry.tracers.items r.0.items) }
{
    let Crew {
        catalogue,
        mut workers,
        tracers: mut seats,
    } = crew;
    match gather(
        heap,
        script,
        &mut workers,
        &mut seats,
        &mut parts,
        ended,
        season,
    ) {
        Ok(()) => {}
        Err(e) => return Err(e),
    }
    let (first, said, places, dropped) = hand_catalogue(alloc, catalogue);
    match hand_over(&mut seats, &mut parts, first, said, places, dropped) {
        Ok(()) => Ok((seats, parts)),
        Err(e) => Err(e),
    }
}
