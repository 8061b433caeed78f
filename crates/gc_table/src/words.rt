//! The words of a closed heap that say what lies where.
ghost use Rattle.std.specs.Prelude.{◌≡◌, ◌-◌, ◌≤◌, IfOk, take, drop};
ghost use Rattle.std.specs.Slots.{slots_items, slots_len, IsFull};
ghost use Rattle.mark_core.specs.Layout.{region_sizes, total_words};
ghost use Rattle.gc_table.specs.Ends.{AreWords, HasRoom, IsRoomFor};

use atomic_table::Closed;
use mark_core::{Bases, NAMED, PHASE, Phase, phase_of, reference_in};
use std::alloc::{AllocError, Global};

/// The words of a heap when it was closed.
#[derive(Drop)]
pub struct Words {
    /// By cell: its object's section times [`mark_core::SECTION_SPAN`], and the object's number.
    pub idents: Vec<u64>,
    /// By cell: its value.
    pub values: Vec<u64>,
    /// Field i of cell c, at c times the fields of a cell plus i: 0 for nil, else a cell's number plus 1.
    pub fields: Vec<u64>,
    /// By block of 64 cells: a bit for each allocated cell.
    pub alloc: Vec<u64>,
    /// By section: how many commands it had done.
    pub positions: Vec<u64>,
    /// The phase.
    pub phase: Phase,
    /// The section that found the heap full, if the phase is `Full`.
    pub named: u32,
    /// Variable v of section w, at `VARIABLES * w + v`, in the form of a field.
    pub roots: Vec<u64>,
}

/// Room for the words of a heap when it is closed.
#[derive(Drop)]
pub struct Room {
    idents: Vec<u64>,
    values: Vec<u64>,
    fields: Vec<u64>,
    alloc: Vec<u64>,
    positions: Vec<u64>,
    roots: Vec<u64>,
}

fn room_between(alloc: Global, from: usize, to: usize) -> Result<Vec<u64>, AllocError>
    requires { from ≤ to }
    ensures { IfOk result (IsRoomFor (to - from)) }
{
    Vec::with_capacity(alloc, to - from)
}

pub(crate) fn room_of(alloc: Global, bases: &Bases) -> Result<Room, AllocError>
    ensures { IfOk result (HasRoom bases.now.shape) }
{
    Ok(Room {
        idents: room_between(alloc, bases.identity_at(0), bases.value_at(0))?,
        values: room_between(alloc, bases.value_at(0), bases.field_at(0, 0))?,
        fields: room_between(alloc, bases.field_at(0, 0), bases.pool_at(0, 0))?,
        alloc: room_between(alloc, bases.alloc_at(0), bases.mark_at(0))?,
        positions: room_between(alloc, bases.position_at(0), bases.root_at(0, 0))?,
        roots: room_between(alloc, bases.root_at(0, 0), bases.owner_at(0))?,
    })
}

#[tactic(auto, using(crate::proofs::Records::word_reads))]
fn region(room: Vec<u64>, closed: &Closed<(), Global>, from: usize, to: usize) -> Vec<u64>
    requires room { IsRoomFor (to - from) room }
    requires full { IsFull closed.now.words }
    requires within { (from ≤ to) × (to ≤ slots_len closed.now.words) }
    ensures { result.items ≡ take (to - from) (drop from (slots_items closed.now.words)) }
{
    let mut words = room;
    for i in from..to {
        words.push_reserved(closed.word(i));
    }
    words
}

pub(crate) fn words_of(room: Room, bases: &Bases, closed: &Closed<(), Global>) -> Words
    requires room { HasRoom bases.now.shape room }
    requires full { IsFull closed.now.words }
    requires whole { slots_len closed.now.words ≡ total_words (region_sizes bases.now.shape) }
    ensures { AreWords bases.now.shape (slots_items closed.now.words) result }
{
    let Room {
        idents,
        values,
        fields,
        alloc,
        positions,
        roots,
    } = room;
    Words {
        idents: region(idents, closed, bases.identity_at(0), bases.value_at(0)),
        values: region(values, closed, bases.value_at(0), bases.field_at(0, 0)),
        fields: region(fields, closed, bases.field_at(0, 0), bases.pool_at(0, 0)),
        alloc: region(alloc, closed, bases.alloc_at(0), bases.mark_at(0)),
        positions: region(positions, closed, bases.position_at(0), bases.root_at(0, 0)),
        phase: phase_of(closed.word(PHASE)),
        named: reference_in(closed.word(NAMED)),
        roots: region(roots, closed, bases.root_at(0, 0), bases.owner_at(0)),
    }
}
