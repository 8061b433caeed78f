//! The steps that stop and resume the world, admit helpers and turn the season.
ghost use Rattle.std.specs.Prelude.{◌≡◌};
ghost use Rattle.gc_table.specs.Seats.{Across, Answered, Found, Sits, Took, view_of};
ghost use Rattle.gc_table.specs.Taking.{Asked, May, won};

use crate::operations::Operation;
use crate::seat::{Heap, HeapSeat};
use mark_core::{FLAG, Phase, Step, has_flag, phase_number};

impl Heap {
    /// Enters the world: true if the seat is active. Otherwise a stop is under way, and it has to leave again.
    pub fn enter_step(&self, seat: &mut HeapSeat) -> bool
        requires seat { Sits self.now seat.old }
        requires may { May Step.EnterStep (view_of seat.old) }
        ensures seat { Sits self.now seat.new }
        ensures view { Across (Answered Step.EnterStep (λ n. result ≡ won Step.EnterStep n)) seat.old seat.new }
    {
        let found = self.take_step(seat, Operation::Add(1), Step::EnterStep);
        !has_flag(found)
    }

    /// Leaves the world, with nothing in hand and no card owed. The phase and the season are forgotten.
    pub fn leave_step(&self, seat: &mut HeapSeat)
        requires seat { Sits self.now seat.old }
        requires may { May Step.LeaveStep (view_of seat.old) }
        ensures seat { Sits self.now seat.new }
        ensures view { Across (Took Step.LeaveStep) seat.old seat.new }
    {
        self.take_step(seat, Operation::Sub(1), Step::LeaveStep);
    }

    /// Raises the stop flag: true if it is now the seat's own, false if another's was up.
    pub fn raise_step(&self, seat: &mut HeapSeat) -> bool
        requires seat { Sits self.now seat.old }
        requires may { May Step.RaiseStep (view_of seat.old) }
        ensures seat { Sits self.now seat.new }
        ensures view { Across (Answered Step.RaiseStep (λ n. result ≡ won Step.RaiseStep n)) seat.old seat.new }
    {
        let found = self.take_step(seat, Operation::Set(FLAG), Step::RaiseStep);
        !has_flag(found)
    }

    /// The word of the world. By it the seat whose flag it is learns that the world has stopped.
    pub fn observe(&self, seat: &mut HeapSeat) -> u64
        requires seat { Sits self.now seat.old }
        requires may { May Step.Observe (view_of seat.old) }
        ensures seat { Sits self.now seat.new }
        ensures view { Across (Found Step.Observe result) seat.old seat.new }
    {
        self.take_step(seat, Operation::Load, Step::Observe)
    }

    /// Resumes the world. The flag falls and the seat runs in one step, so that no other stop comes between.
    pub fn drop_step(&self, seat: &mut HeapSeat)
        requires seat { Sits self.now seat.old }
        requires may { May Step.DropStep (view_of seat.old) }
        ensures seat { Sits self.now seat.new }
        ensures view { Across (Took Step.DropStep) seat.old seat.new }
    {
        self.take_step(seat, Operation::Sub(FLAG - 1), Step::DropStep);
    }

    /// Opens the stopped world to helpers. The seat isn't alone until it has closed help and seen that no helper is
    /// left.
    pub fn open_step(&self, seat: &mut HeapSeat)
        requires seat { Sits self.now seat.old }
        requires may { May Step.OpenStep (view_of seat.old) }
        ensures seat { Sits self.now seat.new }
        ensures view { Across (Took Step.OpenStep) seat.old seat.new }
    {
        self.take_step(seat, Operation::Set(FLAG), Step::OpenStep);
    }

    /// Joins the helpers: true if help is open. Otherwise the seat has to leave them again.
    pub fn join_help_step(&self, seat: &mut HeapSeat) -> bool
        requires seat { Sits self.now seat.old }
        requires may { May Step.JoinHelpStep (view_of seat.old) }
        ensures seat { Sits self.now seat.new }
        ensures view { Across (Answered Step.JoinHelpStep (λ n. result ≡ won Step.JoinHelpStep n)) seat.old seat.new }
    {
        let found = self.take_step(seat, Operation::Add(1), Step::JoinHelpStep);
        has_flag(found)
    }

    /// Leaves the helpers, with no packet, no work and no block in hand.
    pub fn leave_help_step(&self, seat: &mut HeapSeat)
        requires seat { Sits self.now seat.old }
        requires may { May Step.LeaveHelpStep (view_of seat.old) }
        ensures seat { Sits self.now seat.new }
        ensures view { Across (Took Step.LeaveHelpStep) seat.old seat.new }
    {
        self.take_step(seat, Operation::Sub(1), Step::LeaveHelpStep);
    }

    /// Closes help. Helpers that were admitted may go on.
    pub fn close_step(&self, seat: &mut HeapSeat)
        requires seat { Sits self.now seat.old }
        requires may { May Step.CloseStep (view_of seat.old) }
        ensures seat { Sits self.now seat.new }
        ensures view { Across (Took Step.CloseStep) seat.old seat.new }
    {
        self.take_step(seat, Operation::Sub(FLAG), Step::CloseStep);
    }

    /// The word of help. By it the seat that stopped the world learns that no helper is left.
    pub fn see_help(&self, seat: &mut HeapSeat) -> u64
        requires seat { Sits self.now seat.old }
        requires may { May Step.SeeHelp (view_of seat.old) }
        ensures seat { Sits self.now seat.new }
        ensures view { Across (Found Step.SeeHelp result) seat.old seat.new }
    {
        self.take_step(seat, Operation::Load, Step::SeeHelp)
    }

    /// The season, even in the catalogue's turn and odd in the warehouses'. It holds until the seat leaves.
    pub fn read_season(&self, seat: &mut HeapSeat) -> u64
        requires seat { Sits self.now seat.old }
        requires may { May Step.ReadSeason (view_of seat.old) }
        ensures seat { Sits self.now seat.new }
        ensures view { Across (Found Step.ReadSeason result) seat.old seat.new }
    {
        self.take_step(seat, Operation::Load, Step::ReadSeason)
    }

    /// Turns the season, at most 128 times.
    pub fn next_season(&self, seat: &mut HeapSeat)
        requires seat { Sits self.now seat.old }
        requires may { May Step.NextSeason (view_of seat.old) }
        requires asked { Asked Step.NextSeason (view_of seat.old) }
        ensures seat { Sits self.now seat.new }
        ensures view { Across (Took Step.NextSeason) seat.old seat.new }
    {
        self.take_step(seat, Operation::Add(1), Step::NextSeason);
    }

    /// Moves the phase. The move to Marking is a mutator's try: false if the phase wasn't Idle.
    pub fn store_phase(&self, seat: &mut HeapSeat, to: Phase) -> bool
        requires seat { Sits self.now seat.old }
        requires may { May (Step.StorePhase to) (view_of seat.old) }
        requires asked { Asked (Step.StorePhase to) (view_of seat.old) }
        ensures seat { Sits self.now seat.new }
        ensures view { Across (Answered (Step.StorePhase to) (λ n. result ≡ won (Step.StorePhase to) n)) seat.old seat.new }
    {
        match to {
            Phase::Marking => {
                let found = self.take_step(
                    seat,
                    Operation::Exchange { old: 0, new: 1 },
                    Step::StorePhase { to },
                );
                found == 0
            }
            _ => {
                self.take_step(
                    seat,
                    Operation::Swap(phase_number(to)),
                    Step::StorePhase { to },
                );
                true
            }
        }
    }
}
