//! The whole text.
ghost use Rattle.std.specs.Prelude.{◌≡◌, ◌≤◌, ◌++◌, IfOk, OnOk, codes, length};
ghost use Rattle.std.specs.String.{string_bytes};
ghost use Rattle.gc_script.specs.Script.{script};
ghost use Rattle.load_gen.specs.FewReachable.{HasFewReachable};
ghost use Rattle.load_gen.specs.FourWarehouses.{HasFourWarehouses};
ghost use Rattle.load_gen.specs.Generated.{generated, lines_text, last_state, generated_warehouses};

use crate::draws::Draws;
use crate::line::{BLOCK, push_line};
use plain_heap::OutOfMemory;
use std::alloc::{AllocError, Global};

const WAREHOUSES: u32 = 4;

/// The line `gcscript 1` and four lines `warehouse`, each with its LF.
const SECTION_BYTES: usize = 51;

/// The most bytes that a line of a warehouse has, with its LF.
const LINE_BYTES: usize = 10;

/// Appends a warehouse of `size` lines.
fn push_warehouse(text: &mut String, draws: &mut Draws, size: u32) -> Result<(), AllocError>
    ensures text { let state = draws.old.state in
        OnOk result (string_bytes text.new ≡ string_bytes text.old ++ codes "warehouse\n" ++ lines_text size 0 state) }
    ensures state { OnOk result (draws.new.state ≡ last_state size 0 draws.old.state) }
{
    text.push_str("warehouse\n")?;
    for line in 0..size {
        push_line(text, draws, line % BLOCK)?;
    }
    Ok(())
}

/// Appends the four warehouses.
fn push_warehouses(text: &mut String, draws: &mut Draws, size: u32) -> Result<(), AllocError>
    ensures { let state = draws.old.state in
        OnOk result (string_bytes text.new ≡ string_bytes text.old ++ generated_warehouses WAREHOUSES size state) }
{
    for _warehouse in 0..WAREHOUSES {
        push_warehouse(text, draws, size)?;
    }
    Ok(())
}

fn text_of(alloc: Global, number: u32, size: u32) -> Result<String, AllocError>
    requires { size ≤ 20000 }
    ensures { IfOk result (λ text. string_bytes text ≡ generated number size) }
{
    let most = WAREHOUSES as usize * size as usize * LINE_BYTES;
    let mut text = String::with_capacity(alloc, SECTION_BYTES + most)?;
    let mut draws = Draws {
        state: u64::from(number),
    };
    text.push_str("gcscript 1\n")?;
    push_warehouses(&mut text, &mut draws, size)?;
    Ok(text)
}

/// The text of a script of version 1: four warehouses of `size` lines each, drawn from `number` on.
///
/// It has no fault, and no warehouse ever has more than 55 reachable objects. The text's memory is taken at once.
pub fn generate(alloc: Global, number: u32, size: u32) -> Result<String, OutOfMemory>
    requires least { 1 ≤ size }
    requires most { size ≤ 20000 }
    ensures text { IfOk result (λ text. string_bytes text ≡ generated number size) }
    ensures short { length (generated number size) ≤ 800051 }
    // It is a script without a fault.
    ensures script { HasFourWarehouses size (script (generated number size)) }
    ensures few { HasFewReachable 55 (script (generated number size)) }
{
    text_of(alloc, number, size).map_err(|_| OutOfMemory)
}
