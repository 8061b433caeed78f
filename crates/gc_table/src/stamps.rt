//! Stamps: what a seat has seen, for others to go on from.
//!
//! A stamp does what a vector clock's timestamp does: it tells which events came before a moment. In place of counts it
//! has the events themselves, which only contracts see; so it takes no memory, and can't be wrong.
ghost use Rattle.std.specs.Prelude.{◌≡◌};
ghost use Rattle.gc_table.specs.Seats.{seen_of, Sits, view_of};
ghost use Rattle.gc_table.specs.Seen.{Begins, hears, no_stamp, same_token, stamped};
ghost use Rattle.gc_table.specs.Stamps.{IsSameStamp, IsStampOf, seen_by_stamp, SeesAll, StampFits};

use crate::rule::Learning;
use crate::seat::{Heap, HeapSeat, Stamp};
use crate::view::TokenState;
use atomic_table::{Join, Split};

/// A stamp is split off a token, which stays as it was.
pub struct Stamping;

impl Split<TokenState> for Stamping {
    ghost left = { same_token };

    ghost right = { stamped };
}

/// A seat's token is told the history of a stamp, of which nothing is left.
pub struct Hearing;

impl Join<TokenState> for Hearing {
    ghost both = { hears };

    ghost spent = { no_stamp };
}

impl Heap {
    /// A stamp of all that the seat has seen: its own steps up to the last, and what came before them. It costs one load
    /// of a word, and is no step of the core: no record, word or log changes.
    pub fn take_stamp(&self, seat: &mut HeapSeat) -> Stamp
        requires seat { Sits self.now seat.old }
        ensures seat { Sits self.now seat.new }
        ensures view { view_of seat.new ≡ view_of seat.old }
        ensures seen { seen_of seat.new ≡ seen_of seat.old }
        ensures fits { StampFits self.now result }
        ensures stamp { IsStampOf seat.old result }
    {
        let token = self.table.shared.split_seat::<Stamping>(&mut seat.token);
        Stamp { token }
    }

    /// Another stamp of the same moment, for one more thread. It costs one load.
    pub fn copy_stamp(&self, stamp: &mut Stamp) -> Stamp
        requires stamp { StampFits self.now stamp.old }
        ensures fits { StampFits self.now stamp.new × StampFits self.now result }
        ensures stamp { IsSameStamp stamp.old stamp.new }
        ensures copy { IsSameStamp stamp.old result }
    {
        let token = self.table.shared.split_seat::<Stamping>(&mut stamp.token);
        Stamp { token }
    }

    /// From now on the seat has seen all that had happened at a moment of this call, whoever did it. It costs one load of a
    /// word, and is no step of the core.
    pub fn see_all(&self, seat: &mut HeapSeat)
        requires seat { Sits self.now seat.old }
        ensures seat { Sits self.now seat.new }
        ensures sees { SeesAll seat.old seat.new }
    {
        self.table.shared.load::<Learning>(&mut seat.token, 0);
    }

    /// From now on what the seat has seen goes on from what the stamp has: each later step of the seat comes after all
    /// steps that the stamp's seat had taken (`order_kept`). It costs two loads, and is no step of the core.
    pub fn learn(&self, seat: &mut HeapSeat, stamp: Stamp)
        requires seat { Sits self.now seat.old }
        requires stamp { StampFits self.now stamp }
        ensures seat { Sits self.now seat.new }
        ensures sees { SeesAll seat.old seat.new }
        ensures told { Begins (seen_by_stamp stamp) (seen_of seat.new) }
    {
        let Stamp { token } = stamp;
        self.table
            .shared
            .join_seat::<Hearing>(&mut seat.token, token);
        self.table.shared.load::<Learning>(&mut seat.token, 0);
    }
}
