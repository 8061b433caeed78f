//! The steps of the sweep and of the counters.
ghost use Rattle.std.specs.Prelude.{◌≡◌};
ghost use Rattle.mark_core.specs.Steps.SweepSteps.{survivors};
ghost use Rattle.gc_table.specs.Seats.{Across, Found, Sits, state_of, Stored, Took, view_of};
ghost use Rattle.gc_table.specs.Taking.{May};

use crate::operations::Operation;
use crate::seat::{Heap, HeapSeat};
use mark_core::Step;

impl Heap {
    /// Draws the next stretch of blocks by the number of its first; it is in hand, unless the counter was at its end.
    /// The counter has to be read first, below its end.
    pub fn next_block(&self, seat: &mut HeapSeat) -> u64
        requires seat { Sits self.now seat.old }
        requires may { May Step.NextBlock (view_of seat.old) }
        ensures seat { Sits self.now seat.new }
        ensures view { Across (Found Step.NextBlock result) seat.old seat.new }
    {
        self.take_step(
            seat,
            Operation::Add(u64::from(self.shape.stretch)),
            Step::NextBlock,
        )
    }

    /// Draws the next card of the pass; the counter may be at its end already. It has to be read first, below its end.
    pub fn next_of_cards(&self, seat: &mut HeapSeat) -> u64
        requires seat { Sits self.now seat.old }
        requires may { May Step.NextOfCards (view_of seat.old) }
        ensures seat { Sits self.now seat.new }
        ensures view { Across (Found Step.NextOfCards result) seat.old seat.new }
    {
        self.take_step(seat, Operation::Add(1), Step::NextOfCards)
    }

    /// The mark bits of the block in hand.
    pub fn read_block_marks(&self, seat: &mut HeapSeat) -> u64
        requires seat { Sits self.now seat.old }
        requires may { May Step.ReadBlockMarks (view_of seat.old) }
        ensures seat { Sits self.now seat.new }
        ensures view { Across (Found Step.ReadBlockMarks result) seat.old seat.new }
    {
        self.take_step(seat, Operation::Load, Step::ReadBlockMarks)
    }

    /// Frees the white cells of the block in hand, and answers the bits of those that stay.
    pub fn store_alloc(&self, seat: &mut HeapSeat) -> u64
        requires seat { Sits self.now seat.old }
        requires may { May Step.StoreAlloc (view_of seat.old) }
        ensures seat { Sits self.now seat.new }
        ensures view { Across (Stored Step.StoreAlloc) seat.old seat.new }
        ensures word { result ≡ survivors (state_of seat.old).block }
    {
        self.store_step(seat, Step::StoreAlloc)
    }

    /// Clears the marks of the block in hand, and goes on to the next of its stretch, if there is one.
    pub fn clear_marks(&self, seat: &mut HeapSeat)
        requires seat { Sits self.now seat.old }
        requires may { May Step.ClearMarks (view_of seat.old) }
        ensures seat { Sits self.now seat.new }
        ensures view { Across (Stored Step.ClearMarks) seat.old seat.new }
    {
        self.store_step(seat, Step::ClearMarks);
    }

    /// Cleans a card in Sweep or Clear.
    pub fn wipe_card(&self, seat: &mut HeapSeat, card: u32)
        requires seat { Sits self.now seat.old }
        requires may { May (Step.WipeCard card) (view_of seat.old) }
        ensures seat { Sits self.now seat.new }
        ensures view { Across (Stored (Step.WipeCard card)) seat.old seat.new }
    {
        self.store_step(seat, Step::WipeCard { card });
    }

    /// Stores how many commands the section has done.
    pub fn store_position(&self, seat: &mut HeapSeat, done: u32)
        requires seat { Sits self.now seat.old }
        requires may { May (Step.StorePosition done) (view_of seat.old) }
        ensures seat { Sits self.now seat.new }
        ensures view { Across (Stored (Step.StorePosition done)) seat.old seat.new }
    {
        self.store_step(seat, Step::StorePosition { done });
    }

    /// Names the seat's section, before it finds the heap full.
    pub fn store_named(&self, seat: &mut HeapSeat)
        requires seat { Sits self.now seat.old }
        requires may { May Step.StoreNamed (view_of seat.old) }
        ensures seat { Sits self.now seat.new }
        ensures view { Across (Stored Step.StoreNamed) seat.old seat.new }
    {
        self.store_step(seat, Step::StoreNamed);
    }

    /// Sets a counter or statistic, `CARD_COUNTER` to `FREE`, to 0.
    pub fn reset(&self, seat: &mut HeapSeat, which: u8)
        requires seat { Sits self.now seat.old }
        requires may { May (Step.Reset which) (view_of seat.old) }
        ensures seat { Sits self.now seat.new }
        ensures view { Across (Stored (Step.Reset which)) seat.old seat.new }
    {
        self.store_step(seat, Step::Reset { which });
    }

    /// A counter, a statistic, the named section (`NAMED_SECTION`), or a position (`FIRST_POSITION` and the
    /// section's number).
    pub fn read_stat(&self, seat: &mut HeapSeat, which: u8) -> u64
        requires seat { Sits self.now seat.old }
        requires may { May (Step.ReadStat which) (view_of seat.old) }
        ensures seat { Sits self.now seat.new }
        ensures view { Across (Found (Step.ReadStat which) result) seat.old seat.new }
    {
        self.take_step(seat, Operation::Load, Step::ReadStat { which })
    }

    /// Adds to a statistic, `LAST` to `DONE`, or takes from it.
    pub fn add_stat(&self, seat: &mut HeapSeat, which: u8, by: u32, down: bool)
        requires seat { Sits self.now seat.old }
        requires may { May (Step.AddStat which by down) (view_of seat.old) }
        ensures seat { Sits self.now seat.new }
        ensures view { Across (Took (Step.AddStat which by down)) seat.old seat.new }
    {
        if down {
            self.take_step(
                seat,
                Operation::Sub(u64::from(by)),
                Step::AddStat { which, by, down },
            );
        } else {
            self.take_step(
                seat,
                Operation::Add(u64::from(by)),
                Step::AddStat { which, by, down },
            );
        }
    }
}
