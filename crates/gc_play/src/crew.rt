ghost use Rattle.std.specs.Prelude.{◌≡◌, ◌+◌, ◌<◌, ◌≤◌, [], All, false, IfOk, OnOk, length, vec_len};
ghost use Rattle.gc_play.specs.Crews.{CatalogueAt, IsCrew, IsNewSeatOfPlay, Numbered};
ghost use Rattle.gc_play.specs.Dealing.{EachOne, IsDealt, StandsAt};

use crate::workers::Worker;
use gc_script::Script;
use gc_table::{Heap, HeapSeat};
use plain_heap::OutOfMemory;
use std::alloc::Global;
use warehouse::Mutator;

/// The seat of section 0, with its player if the script has a catalogue.
#[derive(Drop)]
pub(crate) enum Catalogue<'a> {
    Playing(Mutator<'a>),
    Absent(HeapSeat),
}

#[derive(Drop)]
pub(crate) struct Crew<'a> {
    pub(crate) catalogue: Catalogue<'a>,
    pub(crate) workers: Vec<Worker<'a>>,
    pub(crate) tracers: Vec<HeapSeat>,
}

fn make_catalogue<'a>(
    alloc: Global,
    script: &Script<'a>,
    seat: HeapSeat,
) -> Result<Catalogue<'a>, OutOfMemory>
    ensures { (heap : Heap) → IsNewSeatOfPlay heap script.now.sections 0 seat → IfOk result (CatalogueAt heap script.now.sections 0 0) }
{
    match script.catalogue() {
        None => Ok(Catalogue::Absent(seat)),
        Some(section) => match Mutator::make(alloc, seat, section) {
            Ok(mutator) => Ok(Catalogue::Playing(mutator)),
            Err(_) => Err(OutOfMemory),
        },
    }
}

fn hire<'a>(alloc: Global, workers: u32) -> Result<Vec<Worker<'a>>, OutOfMemory>
    ensures dealt { IfOk result (λ v. IsDealt workers 0 v.items) }
    ensures empty { IfOk result (λ v. All (λ x. (x.mutators.items ≡ []) × (x.full ≡ false)) v.items) }
{
    let mut all = Vec::new(alloc);
    for _worker in 0..workers {
        match all.push(Worker {
            mutators: Vec::new(alloc),
            full: false,
        }) {
            Ok(()) => {}
            Err(_) => return Err(OutOfMemory),
        }
    }
    Ok(all)
}

/// Gives warehouse `at`, counted from 0, to the worker whose turn it is.
fn deal_one<'a>(
    alloc: Global,
    _heap: &Heap,
    script: &Script<'a>,
    workers: &mut Vec<Worker<'a>>,
    at: usize,
    seat: HeapSeat,
) -> Result<(), OutOfMemory>
    requires some { 0 < vec_len workers.old }
    requires at { at < length script.now.sections.warehouses }
    requires seat { IsNewSeatOfPlay _heap.now script.now.sections (at + 1) seat }
    requires dealt { IsDealt (vec_len workers.old) at workers.old.items }
    requires played { EachOne (StandsAt _heap.now script.now.sections 0) workers.old.items }
    requires going { All (λ x. x.full ≡ false) workers.old.items }
    ensures dealt { OnOk result (IsDealt (vec_len workers.old) (at + 1) workers.new.items) }
    ensures played { OnOk result (EachOne (StandsAt _heap.now script.now.sections 0) workers.new.items) }
    ensures going { OnOk result (All (λ x. x.full ≡ false) workers.new.items) }
{
    let turn = at % workers.len();
    match Mutator::make(alloc, seat, &script.warehouses()[at]) {
        Ok(mutator) => match workers[turn].mutators.push(mutator) {
            Ok(()) => Ok(()),
            Err(_) => Err(OutOfMemory),
        },
        Err(_) => Err(OutOfMemory),
    }
}

fn deal<'a>(
    alloc: Global,
    heap: &Heap,
    script: &Script<'a>,
    workers: &mut Vec<Worker<'a>>,
    seats: &mut Vec<HeapSeat>,
) -> Result<(), OutOfMemory>
    requires some { 0 < vec_len workers.old }
    requires dealt { IsDealt (vec_len workers.old) 0 workers.old.items }
    requires played { EachOne (StandsAt heap.now script.now.sections 0) workers.old.items }
    requires going { All (λ x. x.full ≡ false) workers.old.items }
    requires seats { Numbered (IsNewSeatOfPlay heap.now script.now.sections) 1 seats.old.items }
    requires enough { length script.now.sections.warehouses ≤ vec_len seats.old }
    ensures some { OnOk result (0 < vec_len workers.new) }
    ensures same { OnOk result (vec_len workers.new ≡ vec_len workers.old) }
    ensures dealt { OnOk result (IsDealt (vec_len workers.new) (length script.now.sections.warehouses) workers.new.items) }
    ensures played { OnOk result (EachOne (StandsAt heap.now script.now.sections 0) workers.new.items) }
    ensures going { OnOk result (All (λ x. x.full ≡ false) workers.new.items) }
    ensures seats { OnOk result (Numbered (IsNewSeatOfPlay heap.now script.now.sections) (1 + length script.now.sections.warehouses) seats.new.items) }
    ensures rest { OnOk result (vec_len seats.new + length script.now.sections.warehouses ≡ vec_len seats.old) }
{
    for at in 0..script.warehouses().len() {
        let seat = seats.remove(0);
        match deal_one(alloc, heap, script, workers, at, seat) {
            Ok(()) => {}
            Err(e) => return Err(e),
        }
    }
    Ok(())
}

/// All seats of a heap, dealt out to so many workers, with the memory that playing needs.
pub(crate) fn muster<'a>(
    alloc: Global,
    heap: &Heap,
    script: &Script<'a>,
    workers: u32,
    mut seats: Vec<HeapSeat>,
) -> Result<Crew<'a>, OutOfMemory>
    requires some { 1 ≤ workers }
    requires seats { Numbered (IsNewSeatOfPlay heap.now script.now.sections) 0 seats.items }
    requires enough { 1 + length script.now.sections.warehouses ≤ vec_len seats }
    ensures crew { IfOk result (IsCrew heap.now script.now.sections 0 0) }
    ensures workers { IfOk result (λ c. vec_len c.workers ≡ workers) }
    ensures tracers { IfOk result (λ c. vec_len c.tracers + (1 + length script.now.sections.warehouses) ≡ vec_len seats) }
    ensures new { IfOk result (λ c. Numbered (IsNewSeatOfPlay heap.now script.now.sections) (1 + length script.now.sections.warehouses) c.tracers.items) }
{
    let catalogue = match make_catalogue(alloc, script, seats.remove(0)) {
        Ok(catalogue) => catalogue,
        Err(e) => return Err(e),
    };
    let mut workers = match hire(alloc, workers) {
        Ok(workers) => workers,
        Err(e) => return Err(e),
    };
    match deal(alloc, heap, script, &mut workers, &mut seats) {
        Ok(()) => Ok(Crew {
            catalogue,
            workers,
            tracers: seats,
        }),
        Err(e) => Err(e),
    }
}
