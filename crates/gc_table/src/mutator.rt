//! The steps of a mutator on its objects, its variables and its block.
ghost use Rattle.std.specs.Prelude.{◌≡◌};
ghost use Rattle.gc_table.specs.Seats.{Across, Answered, Found, IsPlainStep, Sits, Stored, view_of};
ghost use Rattle.gc_table.specs.Taking.{Asked, May, won};

use crate::operations::Operation;
use crate::seat::{Heap, HeapSeat};
use mark_core::{Cell, Step, used_bits, variable_or_nil};

impl Heap {
    /// Field i of an object that the seat's variables or register name. The register gets it.
    pub fn read_own(&self, seat: &mut HeapSeat, c: Cell, i: u8) -> u64
        requires seat { Sits self.now seat.old }
        requires may { May (Step.ReadOwn c i) (view_of seat.old) }
        ensures seat { Sits self.now seat.new }
        ensures view { Across (Found (Step.ReadOwn c i) result) seat.old seat.new }
    {
        self.take_step(seat, Operation::Load, Step::ReadOwn { c, i })
    }

    /// The value of an object that the seat's variables or register name.
    pub fn read_value(&self, seat: &mut HeapSeat, c: Cell) -> u64
        requires seat { Sits self.now seat.old }
        requires may { May (Step.ReadValue c) (view_of seat.old) }
        ensures seat { Sits self.now seat.new }
        ensures view { Across (Found (Step.ReadValue c) result) seat.old seat.new }
    {
        self.take_step(seat, Operation::Load, Step::ReadValue { c })
    }

    /// Which object it is: its section and number, in one word.
    pub fn read_ident(&self, seat: &mut HeapSeat, c: Cell) -> u64
        requires seat { Sits self.now seat.old }
        requires may { May (Step.ReadIdent c) (view_of seat.old) }
        ensures seat { Sits self.now seat.new }
        ensures view { Across (Found (Step.ReadIdent c) result) seat.old seat.new }
    {
        self.take_step(seat, Operation::Load, Step::ReadIdent { c })
    }

    /// Variable v of the catalogue, 0 to 31, for a warehouse. The register gets it.
    pub fn read_cat(&self, seat: &mut HeapSeat, v: u8) -> u64
        requires seat { Sits self.now seat.old }
        requires may { May (Step.ReadCat v) (view_of seat.old) }
        ensures seat { Sits self.now seat.new }
        ensures view { Across (Found (Step.ReadCat v) result) seat.old seat.new }
    {
        self.take_step(seat, Operation::Load, Step::ReadCat { v })
    }

    /// Stores variable w, or nil, in field i of variable v's object. The seat owes the object's card, unless it made the
    /// object and hasn't published it.
    pub fn store_field(&self, seat: &mut HeapSeat, v: u8, i: u8, w: Option<u8>)
        requires seat { Sits self.now seat.old }
        requires may { May (Step.StoreField v i w) (view_of seat.old) }
        requires asked { Asked (Step.StoreField v i w) (view_of seat.old) }
        ensures seat { Sits self.now seat.new }
        ensures view { Across (Stored (Step.StoreField v i w)) seat.old seat.new }
        ensures plain { Across (IsPlainStep (Step.StoreField v i w)) seat.old seat.new }
    {
        self.store_step(seat, Step::StoreField { v, i, w });
    }

    /// Stores a value in variable v's object. No card is owed, since a value refers to nothing.
    pub fn store_value(&self, seat: &mut HeapSeat, v: u8, n: u32)
        requires seat { Sits self.now seat.old }
        requires may { May (Step.StoreValue v n) (view_of seat.old) }
        requires asked { Asked (Step.StoreValue v n) (view_of seat.old) }
        ensures seat { Sits self.now seat.new }
        ensures view { Across (Stored (Step.StoreValue v n)) seat.old seat.new }
        ensures plain { Across (IsPlainStep (Step.StoreValue v n)) seat.old seat.new }
    {
        self.store_step(seat, Step::StoreValue { v, n });
    }

    /// Stores variable `new`, or nil, in field i of variable v's object, if that is what variable `expected` is, or
    /// nil. Answers the word that it found; if it is that of `expected` the exchange is won, and the card owed as after a
    /// store. Objects must be shared.
    pub fn exchange_field(
        &self,
        seat: &mut HeapSeat,
        v: u8,
        i: u8,
        expected: Option<u8>,
        new: Option<u8>,
    ) -> u64
        requires seat { Sits self.now seat.old }
        requires may { May (Step.ExchangeField v i expected new) (view_of seat.old) }
        requires asked { Asked (Step.ExchangeField v i expected new) (view_of seat.old) }
        ensures seat { Sits self.now seat.new }
        ensures view { Across (Found (Step.ExchangeField v i expected new) result) seat.old seat.new }
    {
        let old = u64::from(variable_or_nil(&seat.state, expected));
        let word = u64::from(variable_or_nil(&seat.state, new));
        let step = Step::ExchangeField {
            v,
            i,
            expected,
            new,
        };
        self.take_step(seat, Operation::Exchange { old, new: word }, step)
    }

    /// Stores a value in variable v's object, if its value is the expected one: true if it was. Objects must be shared.
    pub fn exchange_value(&self, seat: &mut HeapSeat, v: u8, expected: u32, new: u32) -> bool
        requires seat { Sits self.now seat.old }
        requires may { May (Step.ExchangeValue v expected new) (view_of seat.old) }
        requires asked { Asked (Step.ExchangeValue v expected new) (view_of seat.old) }
        ensures seat { Sits self.now seat.new }
        ensures view { Across (Answered (Step.ExchangeValue v expected new) (λ n. result ≡ won (Step.ExchangeValue v expected new) n)) seat.old seat.new }
    {
        let step = Step::ExchangeValue { v, expected, new };
        let found = self.take_step(
            seat,
            Operation::Exchange {
                old: u64::from(expected),
                new: u64::from(new),
            },
            step,
        );
        found == u64::from(expected)
    }

    /// Stores a reference in variable v: nil, or that of a variable, of the register, or of the cell made last. No card
    /// may be owed.
    pub fn store_root(&self, seat: &mut HeapSeat, v: u8, r: u64)
        requires seat { Sits self.now seat.old }
        requires may { May (Step.StoreRoot v r) (view_of seat.old) }
        requires asked { Asked (Step.StoreRoot v r) (view_of seat.old) }
        ensures seat { Sits self.now seat.new }
        ensures view { Across (Stored (Step.StoreRoot v r)) seat.old seat.new }
        ensures plain { Across (IsPlainStep (Step.StoreRoot v r)) seat.old seat.new }
    {
        self.store_step(seat, Step::StoreRoot { v, r });
    }

    /// Puts a reference into variable v, as `store_root` does, but not into its root, which lags until `flush_root`.
    /// Answers what the root has.
    pub fn hold_root(&self, seat: &mut HeapSeat, v: u8, r: u64) -> u64
        requires seat { Sits self.now seat.old }
        requires may { May (Step.HoldRoot v r) (view_of seat.old) }
        requires asked { Asked (Step.HoldRoot v r) (view_of seat.old) }
        ensures seat { Sits self.now seat.new }
        ensures view { Across (Found (Step.HoldRoot v r) result) seat.old seat.new }
        ensures plain { Across (IsPlainStep (Step.HoldRoot v r)) seat.old seat.new }
    {
        self.take_step(seat, Operation::Load, Step::HoldRoot { v, r })
    }

    /// Stores variable v in its root. A seat leaves the world once no root lags.
    pub fn flush_root(&self, seat: &mut HeapSeat, v: u8)
        requires seat { Sits self.now seat.old }
        requires may { May (Step.FlushRoot v) (view_of seat.old) }
        ensures seat { Sits self.now seat.new }
        ensures view { Across (Stored (Step.FlushRoot v)) seat.old seat.new }
    {
        self.store_step(seat, Step::FlushRoot { v });
    }

    /// Stores a reference in slot k of the seat's section, as in a variable. Objects must be shared.
    pub fn store_slot(&self, seat: &mut HeapSeat, k: u16, r: u64)
        requires seat { Sits self.now seat.old }
        requires may { May (Step.StoreSlot k r) (view_of seat.old) }
        requires asked { Asked (Step.StoreSlot k r) (view_of seat.old) }
        ensures seat { Sits self.now seat.new }
        ensures view { Across (Stored (Step.StoreSlot k r)) seat.old seat.new }
    {
        self.store_step(seat, Step::StoreSlot { k, r });
    }

    /// Slot k of the seat's section. The register gets it.
    pub fn read_slot(&self, seat: &mut HeapSeat, k: u16) -> u64
        requires seat { Sits self.now seat.old }
        requires may { May (Step.ReadSlot k) (view_of seat.old) }
        ensures seat { Sits self.now seat.new }
        ensures view { Across (Found (Step.ReadSlot k) result) seat.old seat.new }
    {
        self.take_step(seat, Operation::Load, Step::ReadSlot { k })
    }

    /// The allocation bits of cell c's block. The register names c if its bit is set, or if the seat made it and hasn't
    /// published it; else the register is nil. Objects must be shared.
    pub fn read_weak(&self, seat: &mut HeapSeat, c: Cell) -> u64
        requires seat { Sits self.now seat.old }
        requires may { May (Step.ReadWeak c) (view_of seat.old) }
        requires asked { Asked (Step.ReadWeak c) (view_of seat.old) }
        ensures seat { Sits self.now seat.new }
        ensures view { Across (Found (Step.ReadWeak c) result) seat.old seat.new }
    {
        self.take_step(seat, Operation::Load, Step::ReadWeak { c })
    }

    /// Claims block b to make cells in: true if nobody had it.
    pub fn claim_block(&self, seat: &mut HeapSeat, b: u32) -> bool
        requires seat { Sits self.now seat.old }
        requires may { May (Step.ClaimBlock b) (view_of seat.old) }
        ensures seat { Sits self.now seat.new }
        ensures view { Across (Answered (Step.ClaimBlock b) (λ n. result ≡ won (Step.ClaimBlock b) n)) seat.old seat.new }
    {
        let found = self.take_step(
            seat,
            Operation::Exchange {
                old: 0,
                new: u64::from(seat.state.number) + 1,
            },
            Step::ClaimBlock { b },
        );
        found == 0
    }

    /// Gives the block up, once each cell that the seat made in it is published.
    pub fn release_block(&self, seat: &mut HeapSeat)
        requires seat { Sits self.now seat.old }
        requires may { May Step.ReleaseBlock (view_of seat.old) }
        ensures seat { Sits self.now seat.new }
        ensures view { Across (Stored Step.ReleaseBlock) seat.old seat.new }
    {
        self.store_step(seat, Step::ReleaseBlock);
    }

    /// The allocation bits of the seat's block, which tell its free cells.
    pub fn read_free(&self, seat: &mut HeapSeat) -> u64
        requires seat { Sits self.now seat.old }
        requires may { May Step.ReadFree (view_of seat.old) }
        ensures seat { Sits self.now seat.new }
        ensures view { Across (Found Step.ReadFree result) seat.old seat.new }
    {
        self.take_step(seat, Operation::Load, Step::ReadFree)
    }

    /// Stores a word of a new cell: the fields, then the value, then the identity.
    pub fn store_new(&self, seat: &mut HeapSeat, c: Cell, part: u8, word: u64)
        requires seat { Sits self.now seat.old }
        requires may { May (Step.StoreNew c part word) (view_of seat.old) }
        requires asked { Asked (Step.StoreNew c part word) (view_of seat.old) }
        ensures seat { Sits self.now seat.new }
        ensures view { Across (Stored (Step.StoreNew c part word)) seat.old seat.new }
    {
        self.store_step(seat, Step::StoreNew { c, part, word });
    }

    /// Publishes the cells that the seat made: they may be scanned, and a store in them owes their card.
    pub fn publish_cells(&self, seat: &mut HeapSeat) -> u64
        requires seat { Sits self.now seat.old }
        requires may { May Step.PublishCells (view_of seat.old) }
        ensures seat { Sits self.now seat.new }
        ensures view { Across (Found Step.PublishCells result) seat.old seat.new }
    {
        self.take_step(
            seat,
            Operation::Set(used_bits(seat.state.cache)),
            Step::PublishCells,
        )
    }
}
