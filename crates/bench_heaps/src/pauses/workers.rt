//! A worker fills its directory, replaces orders, and looks at all of them at the end.

use crate::pauses::clock::{Log, nanos_between};
use crate::pauses::orders::{Hand, OBJECTS, levels_for};
use crate::seen::Seen;
use managed_heap::{Mutator, Refused};
use std::alloc::{AllocError, Global};
use std::mem;
use std::rt::Clock;
use std::sync::Wait;
use std::time::Instant;

/// The nanoseconds after which a round of transactions ends.
const ROUND: u64 = 600_000_000;

#[derive(Clone, Copy, Drop)]
pub enum Part {
    /// It fills its directory.
    Fill,
    /// It collects once: the collector then knows how large the live set is.
    Settle,
    /// It plays a round of transactions.
    Play,
    /// It looks at all of its orders.
    Look,
}

/// The transactions of a worker.
#[derive(Drop)]
pub struct Ledger {
    /// How many it is to make, and has made.
    pub transactions: u32,
    pub made: u32,
    /// Where its choice of orders goes on.
    pub number: u64,
    /// The nanoseconds that each took, and 0 for those that are to be made.
    pub times: Vec<u64>,
}

impl Ledger {
    /// The places for times are written, so that timing touches no fresh page.
    pub fn new(alloc: Global, transactions: u32, number: u64) -> Result<Ledger, AllocError> {
        Ok(Ledger {
            transactions,
            made: 0,
            number,
            times: vec![in alloc; 0u64; transactions as usize]?,
        })
    }

    /// Notes a transaction.
    pub fn note(&mut self, took: u64) {
        if let Some(place) = self.times.get_mut(self.made as usize) {
            *place = took;
        }
        self.made = self.made.saturating_add(1);
    }

    pub fn is_open(&self) -> bool {
        self.made < self.transactions
    }
}

/// A mutator, what it is to do, and what it found.
#[derive(Drop)]
pub struct Worker {
    pub mutator: Mutator,
    /// How many orders it keeps.
    pub orders: u32,
    pub ledger: Ledger,
    /// How many nodes its directory has.
    pub nodes: u64,
    pub log: Log,
    /// The objects that it looked at.
    pub seen: Seen,
    /// Why it ended, if it was refused.
    pub ended: Result<(), Refused>,
}

/// The next of a row of numbers that look random.
fn next(number: u64) -> u64 {
    let a = number ^ (number << 13);
    let b = a ^ (a >> 7);
    b ^ (b << 17)
}

/// An order of so many.
fn choose(number: u64, orders: u32) -> u32 {
    let chosen = (number >> 20).checked_rem(u64::from(orders)).unwrap_or(0);
    u32::try_from(chosen).unwrap_or(0)
}

/// How many orders take so many cells, with their share of the directory.
pub fn orders_in(cells: u32) -> u32 {
    let orders = u64::from(cells).wrapping_mul(3) / u64::from(3 * OBJECTS + 1);
    u32::try_from(orders).unwrap_or(0)
}

impl<'a, R: Wait + Clock> Hand<'a, R> {
    fn fill(&mut self, orders: u32) -> Result<u64, Refused> {
        let levels = levels_for(orders);
        self.open()?;
        let mut nodes: u64 = 1;
        for at in 0..orders {
            let made = self.replace(at, levels, at)?;
            nodes = nodes.wrapping_add(u64::from(made));
        }
        Ok(nodes)
    }

    fn transact(&mut self, orders: u32, at: u32, number: u64) -> Result<Seen, Refused> {
        let levels = levels_for(orders);
        self.replace(choose(number, orders), levels, at)?;
        self.look_at(choose(next(number), orders), levels)
    }

    fn churn(&mut self, orders: u32, ledger: &mut Ledger) -> Result<Seen, Refused> {
        let began = Instant::now(self.clock.rt).ok();
        let mut before = began;
        let mut seen = Seen::nothing();
        for at in ledger.made..ledger.transactions {
            let number = next(ledger.number);
            seen = seen.and(self.transact(orders, at, number)?);
            ledger.number = next(number);
            let now = Instant::now(self.clock.rt).ok();
            ledger.note(nanos_between(before, now).unwrap_or(0));
            before = now;
            if nanos_between(began, now).unwrap_or(0) >= ROUND {
                break;
            }
        }
        Ok(seen)
    }

    fn churn_with(
        &mut self,
        orders: u32,
        ledger: &mut Ledger,
        log: &mut Log,
    ) -> Result<Seen, Refused> {
        mem::swap(&mut self.clock.log, log);
        let seen = self.churn(orders, ledger);
        mem::swap(&mut self.clock.log, log);
        seen
    }

    fn look_at_all(&mut self, orders: u32) -> Result<Seen, Refused> {
        let levels = levels_for(orders);
        let mut seen = Seen::nothing();
        for at in 0..orders {
            seen = seen.and(self.look_at(at, levels)?);
        }
        Ok(seen)
    }
}

impl Worker {
    fn fill<R: Wait + Clock>(&mut self, rt: &R, alloc: Global) -> Result<(), Refused> {
        let mut hand = Hand::new(rt, &mut self.mutator, Log::empty(alloc, None));
        self.nodes = hand.fill(self.orders)?;
        Ok(())
    }

    fn churn<R: Wait + Clock>(&mut self, rt: &R, alloc: Global) -> Result<(), Refused> {
        let mut hand = Hand::new(rt, &mut self.mutator, Log::empty(alloc, None));
        let seen = hand.churn_with(self.orders, &mut self.ledger, &mut self.log)?;
        self.seen = self.seen.and(seen);
        Ok(())
    }

    fn look<R: Wait + Clock>(&mut self, rt: &R, alloc: Global) -> Result<(), Refused> {
        let mut hand = Hand::new(rt, &mut self.mutator, Log::empty(alloc, None));
        let all = hand.look_at_all(self.orders)?;
        self.seen = self.seen.and(all);
        Ok(())
    }

    fn enter<R: Wait + Clock>(&mut self, rt: &R, alloc: Global, part: Part) -> Result<(), Refused> {
        self.mutator.enter(rt)?;
        match part {
            Part::Fill => self.fill(rt, alloc),
            Part::Settle => self.mutator.collect(rt),
            Part::Play => self.churn(rt, alloc),
            Part::Look => self.look(rt, alloc),
        }
    }

    /// Plays one part, and leaves.
    pub fn play<R: Wait + Clock>(&mut self, rt: &R, alloc: Global, part: Part) {
        if self.ended.is_ok() {
            self.ended = self.enter(rt, alloc, part);
            self.mutator.leave();
        }
    }
}
