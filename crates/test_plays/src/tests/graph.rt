//! A script's objects on heaps that forget nothing, and how far each is from a variable.
ghost use Rattle.std.specs.Prelude.{IsTrue};
ghost use Rattle.plain_heap.specs.PlainStep.{IsInRange};

use gc_script::{Script, Section};
use plain_heap::{Op, PlainHeap, Ref};
use std::alloc::{AllocError, Global};

/// With the places of what its fields refer to and, if it is reached, the least number of references to it from a
/// variable and its place among the reached.
#[derive(Drop)]
pub struct Node {
    pub section: u32,
    pub number: u32,
    pub value: u32,
    pub refs: Vec<usize>,
    pub level: Option<u32>,
    pub record: u32,
}

/// The objects of all sections, how many are reached, and what the variables refer to: 0, or an object's place and 1.
#[derive(Drop)]
pub struct Graph {
    pub fields: u32,
    pub sections: u32,
    pub nodes: Vec<Node>,
    pub records: u32,
    pub roots: Vec<usize>,
}

fn is_in_range(op: Op, fields: u32) -> bool
    ensures { IsTrue result → IsInRange fields op }
{
    match op {
        Op::New { v, .. } => v < 32,
        Op::Let { v, w } => v < 32 && w < 32,
        Op::Nil { v } => v < 32,
        Op::Set { v, i, w } => v < 32 && u32::from(i) < fields && w < 32,
        Op::Get { v, w, i } => v < 32 && w < 32 && u32::from(i) < fields,
        Op::Cat { v, c } => v < 32 && c < 32,
        Op::Put { v, .. } => v < 32,
        Op::Say { v } => v < 32,
        Op::Sum { v, i, limit } => v < 32 && u32::from(i) < fields && limit <= 65_536,
        Op::Collect => true,
    }
}

fn step_once(heap: &mut PlainHeap, cat: Option<&PlainHeap>, op: Op) -> Option<()> {
    let has_room = heap.objects().len() < 2_000_000 && heap.dropped() < 2_000_000;
    if !has_room || !is_in_range(op, heap.fields()) {
        return None;
    }
    heap.step(cat, op).ok()?;
    Some(())
}

fn heap_of(alloc: Global, script: &Script<'_>, section: Option<&Section<'_>>) -> Option<PlainHeap> {
    let fields = script.fields();
    let mut catalogue = PlainHeap::new(alloc, 0, fields).ok()?;
    let number = match section {
        Some(section) => section.number(),
        None => 0,
    };
    let mut heap = PlainHeap::new(alloc, number, fields).ok()?;
    for season in 1..=script.seasons() {
        if let Some(lender) = script.catalogue() {
            for command in lender.commands_of(season) {
                step_once(&mut catalogue, None, command.op)?;
            }
        }
        if let Some(section) = section {
            for command in section.commands_of(season) {
                step_once(&mut heap, Some(&catalogue), command.op)?;
            }
        }
    }
    Some(if section.is_some() { heap } else { catalogue })
}

/// The place of what a reference names, if the section's objects begin at this place.
fn place_of(reference: Ref, start: usize) -> usize {
    match reference {
        Ref::Nil => 0,
        Ref::Own(n) => start.saturating_add(n as usize).saturating_add(1),
        Ref::Cat(n) => (n as usize).saturating_add(1),
    }
}

fn add_heap(alloc: Global, graph: &mut Graph, heap: &PlainHeap) -> Result<(), AllocError> {
    let start = graph.nodes.len();
    graph.sections = graph.sections.saturating_add(1);
    for v in 0..32u8 {
        graph.roots.push(place_of(heap.variable(v), start))?;
    }
    let mut number = 0u32;
    for object in heap.objects() {
        let mut refs = Vec::new(alloc);
        for reference in object.refs.iter().take(graph.fields as usize) {
            refs.push(place_of(*reference, start))?;
        }
        graph.nodes.push(Node {
            section: heap.section(),
            number,
            value: object.value,
            refs,
            level: None,
            record: 0,
        })?;
        number = number.saturating_add(1);
    }
    Ok(())
}

fn find_levels(alloc: Global, graph: &mut Graph) -> Result<(), AllocError> {
    let mut places = graph.roots.as_slice().to_vec(alloc)?;
    for level in 0..2_000_000u32 {
        let mut next = Vec::new(alloc);
        for place in places.iter() {
            if let Some(node) = graph.nodes.get_mut(place.wrapping_sub(1)) {
                if node.level.is_none() {
                    node.level = Some(level);
                    next.extend_from_slice(node.refs.as_slice())?;
                }
            }
        }
        if next.is_empty() {
            break;
        }
        places = next;
    }
    Ok(())
}

fn number_records(graph: &mut Graph) {
    let mut count = 0u32;
    for node in graph.nodes.iter_mut() {
        if node.level.is_some() {
            count = count.saturating_add(1);
            node.record = count;
        }
    }
    graph.records = count;
}

/// The objects that the script leaves. None if there is no memory.
pub fn graph_of(alloc: Global, script: &Script<'_>) -> Option<Graph> {
    let mut graph = Graph {
        fields: script.fields(),
        sections: 0,
        nodes: Vec::new(alloc),
        records: 0,
        roots: Vec::new(alloc),
    };
    add_heap(alloc, &mut graph, &heap_of(alloc, script, None)?).ok()?;
    for section in script.warehouses() {
        add_heap(alloc, &mut graph, &heap_of(alloc, script, Some(section))?).ok()?;
    }
    find_levels(alloc, &mut graph).ok()?;
    number_records(&mut graph);
    Some(graph)
}
