//! What `dump`, `undump`, `census` and `load` write, beside heaps that forget nothing.
use crate::tests::graph::{Graph, graph_of};
use crate::tests::outside::{answer_of, sure};
use gc_script::read;
use load_gen::generate;
use std::alloc::{AllocError, Global};
use std::sync::Wait;
use std::thread::Threads;

fn push_numbers(dump: &mut Vec<u8>, numbers: &[u32]) -> Result<(), AllocError> {
    for number in numbers {
        dump.extend_from_slice(&number.to_be_bytes())?;
    }
    Ok(())
}

/// References as in a dump: numbers of records, from 1 on.
fn push_references(dump: &mut Vec<u8>, graph: &Graph, places: &[usize]) -> Result<(), AllocError> {
    for place in places {
        let record = match graph.nodes.get(place.wrapping_sub(1)) {
            Some(node) => node.record,
            None => 0,
        };
        push_numbers(dump, &[record])?;
    }
    Ok(())
}

fn dump_of(alloc: Global, graph: &Graph) -> Result<Vec<u8>, AllocError> {
    let mut dump = Vec::from_slice(alloc, b"gcdump 1")?;
    push_numbers(&mut dump, &[graph.fields, graph.sections, graph.records])?;
    push_references(&mut dump, graph, graph.roots.as_slice())?;
    for node in graph.nodes.iter() {
        if node.level.is_some() {
            push_numbers(&mut dump, &[node.section, node.number, node.value])?;
            push_references(&mut dump, graph, node.refs.as_slice())?;
        }
    }
    Ok(dump)
}

fn undump_of(alloc: Global, graph: &Graph) -> Result<String, AllocError> {
    let (sections, fields, records) = (graph.sections, graph.fields, graph.records);
    let mut text = format!(in alloc; "sections {sections} fields {fields} records {records}\n")?;
    for node in graph.nodes.iter() {
        if node.level.is_some() {
            let line = format!(in alloc; "{} {} {}\n", node.section, node.number, node.value)?;
            text.push_str(line.as_str())?;
        }
    }
    Ok(text)
}

/// How many of this level, section and value are reached, and the sum of their values.
fn count_of(
    graph: &Graph,
    level: Option<u32>,
    section: Option<u32>,
    value: Option<u32>,
) -> (u64, u64) {
    let (mut count, mut total) = (0u64, 0u64);
    for node in graph.nodes.iter() {
        let is_of_level = level.is_none() || level == node.level;
        let is_of_section = section.is_none() || section == Some(node.section);
        let is_of_value = value.is_none() || value == Some(node.value);
        if node.level.is_some() && is_of_level && is_of_section && is_of_value {
            count = count.saturating_add(1);
            total = total.saturating_add(u64::from(node.value));
        }
    }
    (count, total)
}

fn levels_of(alloc: Global, graph: &Graph) -> Result<String, AllocError> {
    let mut lines = String::new(alloc);
    let mut depth = 0u32;
    for level in 0..2_000_000u32 {
        let (count, _) = count_of(graph, Some(level), None, None);
        if count == 0 {
            break;
        }
        depth = level.saturating_add(1);
        let line = format!(in alloc; "level {level} {count}\n")?;
        lines.push_str(line.as_str())?;
    }
    format!(in alloc; "levels {depth}\n{lines}")
}

fn census_of(alloc: Global, graph: &Graph) -> Result<String, AllocError> {
    let mut text = levels_of(alloc, graph)?;
    text.push_str("unreached 0\n")?;
    for section in 0..graph.sections {
        let (count, total) = count_of(graph, None, Some(section), None);
        let line = format!(in alloc; "section {section} {count} {total}\n")?;
        text.push_str(line.as_str())?;
    }
    for value in 0..=999u32 {
        let (count, _) = count_of(graph, None, None, Some(value));
        if count > 0 {
            let line = format!(in alloc; "value {value} {count}\n")?;
            text.push_str(line.as_str())?;
        }
    }
    Ok(text)
}

fn writes<R: AllocGlobal + Threads + Wait + Sync>(
    rt: &R,
    words: &str,
    source: &[u8],
    text: &[u8],
) -> Option<bool> {
    let (status, written) = answer_of(rt, words, &sure(source))?;
    Some(status == 0 && written.as_slice() == text)
}

/// Does so with each of these options, a line each.
fn writes_always<R: AllocGlobal + Threads + Wait + Sync>(
    rt: &R,
    command: &str,
    options: &str,
    source: &[u8],
    text: &[u8],
) -> Option<bool> {
    for options in options.lines() {
        let words = format!(in rt.alloc(); "{command} {options}").ok()?;
        if !writes(rt, words.as_str(), source, text)? {
            return Some(false);
        }
    }
    Some(true)
}

const OPTIONS: &str = "
--workers 1 --tracers 0
--cells=256 --workers=32 --tracers=8 --packets=2 --entries=2
";

fn is_dumped<R: AllocGlobal + Threads + Wait + Sync>(rt: &R, source: &[u8]) -> Option<bool> {
    let alloc = rt.alloc();
    let graph = graph_of(alloc, &read(alloc, source).ok()?)?;
    let dump = dump_of(alloc, &graph).ok()?;
    let listed = undump_of(alloc, &graph).ok()?;
    let counted = census_of(alloc, &graph).ok()?;
    let is_whole = writes_always(rt, "dump", OPTIONS, source, dump.as_slice())?
        && writes(rt, "undump", dump.as_slice(), listed.as_bytes())?
        && writes(rt, "census", dump.as_slice(), counted.as_bytes())?;
    Some(is_whole)
}

/// The scripts of the folder `examples`.
const EXAMPLES: &str = "$ gcscript 1
# A warehouse reads the shared catalogue, and cannot change it.
catalogue
new item 40
warehouse
cat i item
set i 0 i
put i 7
say a i
new o 1
set o 2 i
get j o 2
say b j
$ gcscript 1
# No warehouse: nothing is said and nothing survives.
$ gcscript 1
warehouse
new x 5
say a x
$ gcscript 1
# A chain of 65 objects, all reachable: one too many for 64 cells.
warehouse
nil x
repeat 65
new y 1
set y 0 x
let x y
end
sum s x 0 100
$ gcscript 1
# Objects refer to objects by their fields, and a walk may go round.
warehouse
new x 7
set x 0 x
sum a x 0 0
sum b x 0 3
nil y
sum c y 0 5
new p 1
new q 2
set p 0 q
sum d p 0 1
sum e p 0 9
$ gcscript 3
fields 4
# In its second part the catalogue has a new object; the warehouse sees it in its own second part.
catalogue
new a 1
season
new a 2
warehouse
cat x a
say p x
season
say q x
cat y a
say r y
$ gcscript 1
# Two objects. The name x goes on to another object, so its first one is lost.
warehouse
new x 1
new y 2
new x 3
say now x
say other y
";

#[test]
fn dumps_as_heaps_that_forget_nothing(rt: HostRuntime) {
    for source in EXAMPLES.split("$ ").skip(1) {
        assert!(rt; is_dumped(&rt, source.as_bytes()) == Some(true), "{source}");
    }
    for number in [1, 7, 4_294_967_295] {
        let Ok(source) = generate(rt.alloc(), number, 300) else {
            panic!(rt; "memory")
        };
        assert!(rt; is_dumped(&rt, source.as_bytes()) == Some(true), "{number}");
    }
}

const LOADS: &str = "
--workers=1 --tracers=0
--cells=256 --tracers=8
--cells=256 --packets=2 --entries=2
";

fn loads<R: AllocGlobal + Threads + Wait + Sync>(rt: &R) -> Option<bool> {
    let alloc = rt.alloc();
    let generated = generate(alloc, 7, 20_000).ok()?;
    let graph = graph_of(alloc, &read(alloc, generated.as_bytes()).ok()?)?;
    let objects = graph.nodes.len();
    let (survivors, total) = count_of(&graph, None, None, None);
    let text = format!(in alloc;
        "commands 80000\nobjects {objects}\nlines 1248\nsurvivors {survivors}\ntotal {total}\n"
    ).ok()?;
    writes_always(
        rt,
        "load --number=7 --size=20000",
        LOADS,
        b"",
        text.as_bytes(),
    )
}

#[test]
fn loads_as_heaps_that_forget_nothing(rt: HostRuntime) {
    assert!(rt; loads(&rt) == Some(true));
}
