//! The steps of tracing and of cleaning cards.
ghost use Rattle.std.specs.Prelude.{◌≡◌};
ghost use Rattle.mark_core.specs.Seats.{phase_of as phase_of_word};
ghost use Rattle.gc_table.specs.Seats.{Across, Answered, Found, Sits, Stored, view_of};
ghost use Rattle.gc_table.specs.Taking.{May, won};

use crate::masks::bit;
use crate::operations::Operation;
use crate::seat::{Heap, HeapSeat};
use mark_core::{BLOCK_CELLS, Cell, Phase, Step, has_bit, phase_of};

impl Heap {
    /// The allocation bits of block b. A popped cell whose bit is set is then in scan.
    pub fn read_alloc(&self, seat: &mut HeapSeat, b: u32) -> u64
        requires seat { Sits self.now seat.old }
        requires may { May (Step.ReadAlloc b) (view_of seat.old) }
        ensures seat { Sits self.now seat.new }
        ensures view { Across (Found (Step.ReadAlloc b) result) seat.old seat.new }
    {
        self.take_step(seat, Operation::Load, Step::ReadAlloc { b })
    }

    /// The next field of the cell in scan, or the first of a cell left in cleaning. What it names is in hand.
    pub fn read_field(&self, seat: &mut HeapSeat, c: Cell, i: u8) -> u64
        requires seat { Sits self.now seat.old }
        requires may { May (Step.ReadField c i) (view_of seat.old) }
        ensures seat { Sits self.now seat.new }
        ensures view { Across (Found (Step.ReadField c i) result) seat.old seat.new }
    {
        self.take_step(seat, Operation::Load, Step::ReadField { c, i })
    }

    /// Variable v of a section, 0 to 31. What it names is in hand.
    pub fn read_root(&self, seat: &mut HeapSeat, section: u32, v: u8) -> u64
        requires seat { Sits self.now seat.old }
        requires may { May (Step.ReadRoot section v) (view_of seat.old) }
        ensures seat { Sits self.now seat.new }
        ensures view { Across (Found (Step.ReadRoot section v) result) seat.old seat.new }
    {
        self.take_step(seat, Operation::Load, Step::ReadRoot { section, v })
    }

    /// Slot k of a section, likewise.
    pub fn load_slot(&self, seat: &mut HeapSeat, section: u32, k: u16) -> u64
        requires seat { Sits self.now seat.old }
        requires may { May (Step.LoadSlot section k) (view_of seat.old) }
        ensures seat { Sits self.now seat.new }
        ensures view { Across (Found (Step.LoadSlot section k) result) seat.old seat.new }
    {
        self.take_step(seat, Operation::Load, Step::LoadSlot { section, k })
    }

    /// Marks the cell that was loaded: true if it was white. It is in hand until it is pushed or its card is dirty.
    pub fn set_mark(&self, seat: &mut HeapSeat, c: Cell) -> bool
        requires seat { Sits self.now seat.old }
        requires may { May (Step.SetMark c) (view_of seat.old) }
        ensures seat { Sits self.now seat.new }
        ensures view { Across (Answered (Step.SetMark c) (λ n. result ≡ won (Step.SetMark c) n)) seat.old seat.new }
    {
        let found = self.take_step(
            seat,
            Operation::Set(bit(c.number() % BLOCK_CELLS)),
            Step::SetMark { c },
        );
        !has_bit(found, c.number() % BLOCK_CELLS)
    }

    /// Dirties a card, which answers for what the seat owes it and has in hand of it.
    pub fn dirty_card(&self, seat: &mut HeapSeat, card: u32)
        requires seat { Sits self.now seat.old }
        requires may { May (Step.DirtyCard card) (view_of seat.old) }
        ensures seat { Sits self.now seat.new }
        ensures view { Across (Stored (Step.DirtyCard card)) seat.old seat.new }
    {
        self.store_step(seat, Step::DirtyCard { card });
    }

    /// Checks a card that the seat owes: true if it is dirty already. Then the seat owes it no more, and else it owes
    /// what it owed.
    #[inline(always)]
    pub fn check_card(&self, seat: &mut HeapSeat, card: u32) -> bool
        requires seat { Sits self.now seat.old }
        requires may { May (Step.CheckCard card) (view_of seat.old) }
        ensures seat { Sits self.now seat.new }
        ensures view { Across (Answered (Step.CheckCard card) (λ n. result ≡ won (Step.CheckCard card) n)) seat.old seat.new }
    {
        let found = self.take_step(seat, Operation::Load, Step::CheckCard { card });
        found == 1
    }

    /// Clears a card: true if it was dirty, and its marked cells are to be scanned.
    pub fn clear_card(&self, seat: &mut HeapSeat, card: u32) -> bool
        requires seat { Sits self.now seat.old }
        requires may { May (Step.ClearCard card) (view_of seat.old) }
        ensures seat { Sits self.now seat.new }
        ensures view { Across (Answered (Step.ClearCard card) (λ n. result ≡ won (Step.ClearCard card) n)) seat.old seat.new }
    {
        let found = self.take_step(seat, Operation::Swap(0), Step::ClearCard { card });
        found == 1
    }

    /// The mark bits of block b. If the seat cleans a card of the block, they tell the cells to scan.
    pub fn read_marks(&self, seat: &mut HeapSeat, b: u32) -> u64
        requires seat { Sits self.now seat.old }
        requires may { May (Step.ReadMarks b) (view_of seat.old) }
        ensures seat { Sits self.now seat.new }
        ensures view { Across (Found (Step.ReadMarks b) result) seat.old seat.new }
    {
        self.take_step(seat, Operation::Load, Step::ReadMarks { b })
    }

    /// Whether a card is dirty.
    pub fn read_card(&self, seat: &mut HeapSeat, card: u32) -> bool
        requires seat { Sits self.now seat.old }
        requires may { May (Step.ReadCard card) (view_of seat.old) }
        ensures seat { Sits self.now seat.new }
        ensures view { Across (Answered (Step.ReadCard card) (λ n. result ≡ won (Step.ReadCard card) n)) seat.old seat.new }
    {
        let found = self.take_step(seat, Operation::Load, Step::ReadCard { card });
        found == 1
    }

    /// The phase of the cycle.
    pub fn read_phase(&self, seat: &mut HeapSeat) -> Phase
        requires seat { Sits self.now seat.old }
        requires may { May Step.ReadPhase (view_of seat.old) }
        ensures seat { Sits self.now seat.new }
        ensures view { Across (Answered Step.ReadPhase (λ n. result ≡ phase_of_word n)) seat.old seat.new }
    {
        phase_of(self.take_step(seat, Operation::Load, Step::ReadPhase))
    }
}
