//! The steps on packets.
ghost use Rattle.std.specs.Prelude.{◌≡◌};
ghost use Rattle.mark_core.specs.Bits.{cell_of as cell_of_word};
ghost use Rattle.mark_core.specs.Held.{length_in_hand};
ghost use Rattle.gc_table.specs.Seats.{Across, Answered, Found, Sits, state_of, Stored, Took, view_of};
ghost use Rattle.gc_table.specs.Taking.{May, won};

use crate::masks::{all_but, bit};
use crate::operations::Operation;
use crate::seat::{Heap, HeapSeat};
use mark_core::{Cell, Step, WORD_BITS, cell_of, has_bit, pop_at, push_at};
use std::marker::Brand;

impl Heap {
    /// Takes one from the count of empty packets, before one is looked for.
    pub fn reserve(&self, seat: &mut HeapSeat)
        requires seat { Sits self.now seat.old }
        requires may { May Step.Reserve (view_of seat.old) }
        ensures seat { Sits self.now seat.new }
        ensures view { Across (Took Step.Reserve) seat.old seat.new }
    {
        self.take_step(seat, Operation::Sub(1), Step::Reserve);
    }

    /// Takes packet p out of pool q: true if it was there.
    pub fn take(&self, seat: &mut HeapSeat, q: u8, p: u32) -> bool
        requires seat { Sits self.now seat.old }
        requires may { May (Step.Take q p) (view_of seat.old) }
        ensures seat { Sits self.now seat.new }
        ensures view { Across (Answered (Step.Take q p) (λ n. result ≡ won (Step.Take q p) n)) seat.old seat.new }
    {
        let found = self.take_step(
            seat,
            Operation::Keep(all_but(p % WORD_BITS)),
            Step::Take { q, p },
        );
        has_bit(found, p % WORD_BITS)
    }

    /// Gives packet p back to the pool of its length, or to the deferred pool.
    pub fn give(&self, seat: &mut HeapSeat, p: u32, deferred: bool)
        requires seat { Sits self.now seat.old }
        requires may { May (Step.Give p deferred) (view_of seat.old) }
        ensures seat { Sits self.now seat.new }
        ensures view { Across (Took (Step.Give p deferred)) seat.old seat.new }
    {
        self.take_step(
            seat,
            Operation::Set(bit(p % WORD_BITS)),
            Step::Give { p, deferred },
        );
    }

    /// Counts the empty packet that the seat gave back, or reserved and found none of.
    pub fn credit(&self, seat: &mut HeapSeat)
        requires seat { Sits self.now seat.old }
        requires may { May Step.Credit (view_of seat.old) }
        ensures seat { Sits self.now seat.new }
        ensures view { Across (Took Step.Credit) seat.old seat.new }
    {
        self.take_step(seat, Operation::Add(1), Step::Credit);
    }

    /// Puts a grey cell into packet p.
    pub fn push(&self, seat: &mut HeapSeat, p: u32, cell: Cell)
        requires seat { Sits self.now seat.old }
        requires may { May (Step.Push p cell) (view_of seat.old) }
        ensures seat { Sits self.now seat.new }
        ensures view { Across (Stored (Step.Push p cell)) seat.old seat.new }
    {
        self.store_step(seat, Step::Push { p, cell });
    }

    /// [`Heap::push`], if the packet's length is known.
    #[inline(always)]
    pub fn push_at(&self, seat: &mut HeapSeat, p: u32, length: u32, cell: Cell)
        requires seat { Sits self.now seat.old }
        requires may { May (Step.Push p cell) (view_of seat.old) }
        requires known { length ≡ length_in_hand (state_of seat.old).held p }
        ensures seat { Sits self.now seat.new }
        ensures view { Across (Stored (Step.Push p cell)) seat.old seat.new }
    {
        let word = self.bases.entry_at(p, length);
        let new = u64::from(cell.number()) + 1;
        self.store_told::<Brand>(&mut seat.token, word, new, Step::Push { p, cell });
        push_at(&mut seat.state, p, length, cell);
    }

    /// Takes the grey cell that was put in last.
    pub fn pop(&self, seat: &mut HeapSeat, p: u32) -> Cell
        requires seat { Sits self.now seat.old }
        requires may { May (Step.Pop p) (view_of seat.old) }
        ensures seat { Sits self.now seat.new }
        ensures view { Across (Answered (Step.Pop p) (λ n. result ≡ cell_of_word n)) seat.old seat.new }
    {
        cell_of(self.take_step(seat, Operation::Load, Step::Pop { p }))
    }

    /// [`Heap::pop`], if the packet's length is known.
    #[inline(always)]
    pub fn pop_at(&self, seat: &mut HeapSeat, p: u32, length: u32) -> Cell
        requires seat { Sits self.now seat.old }
        requires may { May (Step.Pop p) (view_of seat.old) }
        requires known { length ≡ length_in_hand (state_of seat.old).held p }
        ensures seat { Sits self.now seat.new }
        ensures view { Across (Answered (Step.Pop p) (λ n. result ≡ cell_of_word n)) seat.old seat.new }
    {
        let word = self.bases.entry_at(p, length.saturating_sub(1));
        let cell = cell_of(self.take_told::<Brand>(
            &mut seat.token,
            word,
            Operation::Load,
            Step::Pop { p },
        ));
        pop_at(&mut seat.state, p, length, cell);
        cell
    }

    /// Word g of pool q.
    pub fn look(&self, seat: &mut HeapSeat, q: u8, g: u32) -> u64
        requires seat { Sits self.now seat.old }
        requires may { May (Step.Look q g) (view_of seat.old) }
        ensures seat { Sits self.now seat.new }
        ensures view { Across (Found (Step.Look q g) result) seat.old seat.new }
    {
        self.take_step(seat, Operation::Load, Step::Look { q, g })
    }

    /// The count of empty packets, plus [`mark_core::EMPTY_OFFSET`].
    pub fn read_count(&self, seat: &mut HeapSeat) -> u64
        requires seat { Sits self.now seat.old }
        requires may { May Step.ReadCount (view_of seat.old) }
        ensures seat { Sits self.now seat.new }
        ensures view { Across (Found Step.ReadCount result) seat.old seat.new }
    {
        self.take_step(seat, Operation::Load, Step::ReadCount)
    }

    /// Stores the length of packet p in its head.
    pub fn store_length(&self, seat: &mut HeapSeat, p: u32)
        requires seat { Sits self.now seat.old }
        requires may { May (Step.StoreLength p) (view_of seat.old) }
        ensures seat { Sits self.now seat.new }
        ensures view { Across (Stored (Step.StoreLength p)) seat.old seat.new }
    {
        self.store_step(seat, Step::StoreLength { p });
    }

    /// The length of packet p, as its head has it.
    pub fn read_length(&self, seat: &mut HeapSeat, p: u32) -> u64
        requires seat { Sits self.now seat.old }
        requires may { May (Step.ReadLength p) (view_of seat.old) }
        ensures seat { Sits self.now seat.new }
        ensures view { Across (Found (Step.ReadLength p) result) seat.old seat.new }
    {
        self.take_step(seat, Operation::Load, Step::ReadLength { p })
    }
}
