//! A heap is made with all its seats, and closed with all of them.
ghost use Rattle.std.specs.Prelude.{◌≡◌, ◌≢◌, ◌∷◌, ℕ, ◌<◌, ◌≤◌, slice_get, Some, IfOk, vec_len};
ghost use Rattle.mark_core.specs.Shapes.{IsShape};
ghost use Rattle.mark_core.specs.Start.{start_seat as start_seat_of};
ghost use Rattle.gc_table.specs.Ends.{HasRoom, IsEnd, IsLeft};
ghost use Rattle.gc_table.specs.Rule.{newcomer, opens, takes_in, HasLog, HasSection, KnowsFull};
ghost use Rattle.gc_table.specs.Seen.{HasSeen, newcomer_token, opened_in, opens_in, nobody_token, takes_in_token};
ghost use Rattle.gc_table.specs.Seats.{IsFresh, IsOutside, seen_of, Sits, state_of, view_of};
ghost use Rattle.mark_core.specs.Numbers.{most_seats};

use crate::plan::{PlanTag, tag_of};
use crate::rule::{Key, Rule};
use crate::seat::{Heap, HeapSeat};
use crate::view::TokenState;
use crate::words::{Room, Words, room_of, words_of};
use atomic_table::{Join, Seat, Split, Table};
use mark_core::{Bases, SeatState, Shape, start_seat, start_words};
use plain_heap::{OutOfMemory, Plan};
use std::alloc::{AllocError, Global};

pub struct Opens;

impl Split<TokenState> for Opens {
    ghost left = { opens_in };

    ghost right = { opened_in };
}

pub struct TakesIn;

impl Join<TokenState> for TakesIn {
    ghost both = { takes_in_token };

    ghost spent = { nobody_token };
}

impl Heap {
    fn first(alloc: Global, shape: Shape, plan: PlanTag) -> Result<(Heap, HeapSeat), AllocError>
        requires { IsShape shape }
        ensures { IfOk result (λ r. (r.0.shape ≡ shape) × Sits r.0 r.1 × (view_of r.1 ≡ newcomer shape plan.parts 0) × (r.0.table.shared.key.plan ≡ plan)) }
    {
        let words = start_words(alloc, &shape)?;
        let key = Key { shape, plan };
        let (table, token) = Table::<(), TokenState, Key, Rule, Global>::of_words(
            alloc,
            words.as_slice(),
            &key,
        )?;
        let state = start_seat(&shape, 0);
        let bases = Bases::of(&shape);
        Ok((
            Heap {
                table,
                shape,
                bases,
            },
            HeapSeat {
                state,
                token,
                hint: 0,
            },
        ))
    }

    fn open_seat(&self, first: &mut HeapSeat, number: u32) -> HeapSeat
        requires seat { Sits self.now first.old × (state_of first.old ≡ start_seat_of self.now.shape 0) }
        requires number { ((view_of first.old).opened ≡ number) × (number < most_seats) }
        requires plan { (view_of first.old).plan ≡ self.now.table.shared.key.plan.parts }
        ensures first { Sits self.now first.new × (view_of first.new ≡ opens (view_of first.old)) }
        ensures new { Sits self.now result × (view_of result ≡ newcomer self.now.shape (view_of first.old).plan number) }
    {
        let token = self.table.shared.split_seat::<Opens>(&mut first.token);
        HeapSeat {
            state: start_seat(&self.shape, number),
            token,
            hint: 0,
        }
    }

    fn create_all(
        alloc: Global,
        shape: Shape,
        seats: u32,
        plan: PlanTag,
    ) -> Result<(Heap, Vec<HeapSeat>), AllocError>
        requires { IsShape shape × (1 ≤ seats) × (seats ≤ most_seats) }
        ensures { IfOk result (λ r. (r.0.shape ≡ shape) × (vec_len r.1 ≡ seats) × ((i : ℕ) (s : HeapSeat) → slice_get r.1.items i ≡ Some s → Sits r.0 s × IsFresh shape plan.parts i (view_of s)) × ((s : HeapSeat) → slice_get r.1.items 0 ≡ Some s → (view_of s).opened ≡ seats)) }
    {
        let (heap, mut first) = Heap::first(alloc, shape, plan)?;
        let mut all = Vec::with_capacity(alloc, seats as usize)?;
        for number in 1..seats {
            all.push_reserved(heap.open_seat(&mut first, number));
        }
        all.insert(0, first)?;
        Ok((heap, all))
    }

    /// A heap in which nothing has happened, with all its seats in the order of their numbers. Seat w has section w,
    /// and seats past the sections have none. It is refused only if memory runs out.
    pub fn create<P: Plan>(
        alloc: Global,
        shape: Shape,
        seats: u32,
        plan: &P,
    ) -> Result<(Heap, Vec<HeapSeat>), OutOfMemory>
        requires { IsShape shape × (1 ≤ seats) × (seats ≤ most_seats) }
        ensures { IfOk result (λ r. (r.0.shape ≡ shape) × (vec_len r.1 ≡ seats) × ((i : ℕ) (s : HeapSeat) → slice_get r.1.items i ≡ Some s → Sits r.0 s × IsFresh shape (P.plan plan.now) i (view_of s)) × ((s : HeapSeat) → slice_get r.1.items 0 ≡ Some s → (view_of s).opened ≡ seats)) }
    {
        match Heap::create_all(alloc, shape, seats, tag_of(plan)) {
            Ok(made) => Ok(made),
            Err(_) => Err(OutOfMemory),
        }
    }

    fn absorb(&self, first: &mut Seat<(), TokenState>, other: HeapSeat)
        requires first { IsLeft self.now first.old }
        requires other { Sits self.now other × IsOutside (view_of other) × ((state_of other).number ≢ 0) }
        ensures left { IsLeft self.now first.new }
        ensures both { first.new.me.0.view ≡ takes_in first.old.me.0.view (view_of other) }
        ensures told { (first.new.me.0.seen ≡ first.old.me.0.seen) × (first.new.me.0.heard ≡ seen_of other ∷ first.old.me.0.heard) }
    {
        let HeapSeat {
            state: _,
            token,
            hint: _,
        } = other;
        self.table.shared.join_seat::<TakesIn>(first, token);
    }

    fn join_all(&self, mut seats: Vec<HeapSeat>) -> Seat<(), TokenState>
        requires some { 0 < vec_len seats }
        requires seats { (i : ℕ) (s : HeapSeat) → slice_get seats.items i ≡ Some s → Sits self.now s × ((state_of s).number ≡ i) × IsOutside (view_of s) }
        ensures left { IsLeft self.now result }
        ensures first { (s : HeapSeat) → slice_get seats.items 0 ≡ Some s → (result.me.0.view.state ≡ state_of s) × (result.me.0.view.plan ≡ (view_of s).plan) × (result.me.0.view.opened ≡ (view_of s).opened) }
        ensures sections { (i : ℕ) (s : HeapSeat) (w : ℕ) → slice_get seats.items i ≡ Some s → (state_of s).section ≡ Some w → HasSection result.me.0.view w (view_of s).own }
        ensures logs { (i : ℕ) (s : HeapSeat) → slice_get seats.items i ≡ Some s → HasLog result.me.0.view i (view_of s).log }
        ensures seen { (i : ℕ) (s : HeapSeat) → slice_get seats.items i ≡ Some s → HasSeen result.me.0 (seen_of s) }
        ensures full { (i : ℕ) (s : HeapSeat) → slice_get seats.items i ≡ Some s → KnowsFull (view_of s) → KnowsFull result.me.0.view }
    {
        let HeapSeat {
            state: _,
            token: mut first,
            hint: _,
        } = seats.remove(0);
        while let Some(seat) = seats.pop() {
            self.absorb(&mut first, seat);
        }
        first
    }

    /// Room for the words of the heap, for [`Heap::close_into`].
    pub fn room(&self, alloc: Global) -> Result<Room, OutOfMemory>
        ensures { IfOk result (HasRoom self.now.shape) }
    {
        match room_of(alloc, &self.bases) {
            Ok(room) => Ok(room),
            Err(_) => Err(OutOfMemory),
        }
    }

    /// Joins all seats, and gives the words that say what lies where. The seats are all the heap's, in order, each
    /// outside the world, its stop and its help.
    pub fn close_into(self, room: Room, seats: Vec<HeapSeat>) -> Words
        requires room { HasRoom self.shape room }
        requires some { 0 < vec_len seats }
        requires seats { (i : ℕ) (s : HeapSeat) → slice_get seats.items i ≡ Some s → Sits self s × ((state_of s).number ≡ i) × IsOutside (view_of s) }
        ensures { IsEnd self.shape seats.items result }
    {
        let first = self.join_all(seats);
        let Heap {
            table,
            shape: _,
            bases,
        } = self;
        let closed = table.close_with(first);
        let words = words_of(room, &bases, &closed);
        closed.free();
        words
    }

    /// [`Heap::close_into`] with room of its own. If memory runs out the heap and the seats are gone.
    pub fn close(self, alloc: Global, seats: Vec<HeapSeat>) -> Result<Words, OutOfMemory>
        requires some { 0 < vec_len seats }
        requires seats { (i : ℕ) (s : HeapSeat) → slice_get seats.items i ≡ Some s → Sits self s × ((state_of s).number ≡ i) × IsOutside (view_of s) }
        ensures { IfOk result (λ w. IsEnd self.shape seats.items w) }
    {
        let room = self.room(alloc)?;
        Ok(self.close_into(room, seats))
    }

    /// The sizes of the heap.
    pub fn shape(&self) -> Shape
        ensures { result ≡ self.now.shape }
    {
        self.shape
    }
}

impl HeapSeat {
    /// Where a search of the seat ended last; no contract rests on it.
    pub fn hint(&self) -> u32 {
        self.hint
    }

    /// Remembers where a search ended.
    pub fn remember(&mut self, hint: u32)
        ensures sits { (h : Heap) → Sits h self.old → Sits h self.new }
        ensures view { view_of self.new ≡ view_of self.old }
    {
        self.hint = hint;
    }

    /// The seat's number.
    pub fn number(&self) -> u32
        ensures { result ≡ (state_of self.now).number }
    {
        self.state.number
    }

    /// What the seat knows and has in hand.
    pub fn state(&self) -> &SeatState
        ensures { result.now ≡ state_of self.now }
    {
        &self.state
    }
}
