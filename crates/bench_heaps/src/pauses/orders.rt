//! An order, and the directory of all orders of a worker.
//!
//! An order has 16 objects, whose value is its number. Reference 0 is a list of five lines, each with an item, and
//! reference 1 a tree with four leaves. The directory is a tree with a fan-out of four.

use crate::pauses::clock::{Log, StopClock};
use crate::seen::Seen;
use managed_heap::{Mutator, Refused};
use std::rt::Clock;
use std::sync::Wait;

/// How many objects an order has.
pub const OBJECTS: u32 = 16;

/// How many lines an order has, and how many leaves its tree.
const LINES: u32 = 5;

const LEAVES: u8 = 4;

/// The variables: the directory, a node of it and the next below; an order, a line, what was made last, its item, and a
/// tree.
const DIRECTORY: u8 = 0;

const NODE: u8 = 1;

const NEXT: u8 = 2;

const ORDER: u8 = 3;

const LINE: u8 = 4;

const MADE: u8 = 5;

const ITEM: u8 = 6;

const TREE: u8 = 7;

/// How many levels of nodes are above so many orders.
pub fn levels_for(orders: u32) -> u32 {
    for levels in 1..16u32 {
        if orders.wrapping_shr(2 * levels) == 0 {
            return levels;
        }
    }
    16
}

fn way(at: u32, level: u32) -> u8 {
    (at.wrapping_shr(level.wrapping_mul(2)) % 4) as u8
}

fn look_at_lines(m: &mut Mutator, seen: Seen) -> Result<Seen, Refused> {
    let mut seen = seen;
    m.get(LINE, ORDER, 0)?;
    for _ in 0..LINES {
        seen = seen.object(u64::from(m.value(LINE)?));
        m.get(ITEM, LINE, 1)?;
        seen = seen.object(u64::from(m.value(ITEM)?));
        m.get(LINE, LINE, 0)?;
    }
    Ok(seen)
}

fn look_at_tree(m: &mut Mutator, seen: Seen) -> Result<Seen, Refused> {
    m.get(TREE, ORDER, 1)?;
    let mut seen = seen.object(u64::from(m.value(TREE)?));
    for leaf in 0..LEAVES {
        m.get(ITEM, TREE, leaf)?;
        seen = seen.object(u64::from(m.value(ITEM)?));
    }
    Ok(seen)
}

fn let_go(m: &mut Mutator) -> Result<(), Refused> {
    for v in 1..8u8 {
        m.forget(v)?;
    }
    Ok(())
}

/// A worker's mutator, and the clock that watches it.
#[derive(Drop)]
pub struct Hand<'a, R: Clock> {
    pub mutator: &'a mut Mutator,
    pub clock: StopClock<'a, R>,
}

impl<'a, R: Wait + Clock> Hand<'a, R> {
    /// A mutator, whose clock goes on with this log.
    pub fn new(rt: &'a R, mutator: &'a mut Mutator, log: Log) -> Hand<'a, R> {
        Hand {
            mutator,
            clock: StopClock::new(rt, log),
        }
    }

    fn make(&mut self, v: u8, value: u32) -> Result<(), Refused> {
        let rt = self.clock.rt;
        self.clock.comes();
        let made = self.mutator.make_watched(rt, v, value, &mut self.clock);
        self.clock.goes();
        made
    }

    fn come_to_safe_point(&mut self) -> Result<(), Refused> {
        self.clock.comes();
        let passed = self.mutator.safe_point(self.clock.rt);
        self.clock.goes();
        passed
    }

    /// Begins an empty directory.
    pub fn open(&mut self) -> Result<(), Refused> {
        self.make(DIRECTORY, 0)
    }

    /// Goes one level down, to a node that is made if there is none.
    fn step_down(&mut self, way: u8) -> Result<bool, Refused> {
        self.mutator.get(NEXT, NODE, way)?;
        let made = self.mutator.is_nil(NEXT)?;
        if made {
            self.make(NEXT, 0)?;
            self.mutator.set(NODE, way, NEXT)?;
        }
        self.mutator.copy(NODE, NEXT)?;
        Ok(made)
    }

    /// Comes to the lowest node above an order: how many nodes were made.
    fn come_to(&mut self, at: u32, levels: u32) -> Result<u32, Refused> {
        self.mutator.copy(NODE, DIRECTORY)?;
        let mut nodes: u32 = 0;
        for level in (1..levels).rev() {
            if self.step_down(way(at, level))? {
                nodes = nodes.wrapping_add(1);
            }
        }
        Ok(nodes)
    }

    fn make_lines(&mut self, number: u32) -> Result<(), Refused> {
        self.mutator.forget(LINE)?;
        for _ in 0..LINES {
            self.make(ITEM, number)?;
            self.make(MADE, number)?;
            self.mutator.set(MADE, 0, LINE)?;
            self.mutator.set(MADE, 1, ITEM)?;
            self.mutator.copy(LINE, MADE)?;
        }
        self.mutator.set(ORDER, 0, LINE)
    }

    fn make_tree(&mut self, number: u32) -> Result<(), Refused> {
        self.make(TREE, number)?;
        for leaf in 0..LEAVES {
            self.make(ITEM, number)?;
            self.mutator.set(TREE, leaf, ITEM)?;
        }
        self.mutator.set(ORDER, 1, TREE)
    }

    /// Puts a new order in the place of another, or of none: how many nodes were made.
    pub fn replace(&mut self, at: u32, levels: u32, number: u32) -> Result<u32, Refused> {
        self.make(ORDER, number)?;
        self.make_lines(number)?;
        self.make_tree(number)?;
        let nodes = self.come_to(at, levels)?;
        self.mutator.set(NODE, way(at, 0), ORDER)?;
        let_go(self.mutator)?;
        Ok(nodes)
    }

    /// Looks at all objects of an order.
    pub fn look_at(&mut self, at: u32, levels: u32) -> Result<Seen, Refused> {
        self.come_to_safe_point()?;
        self.come_to(at, levels)?;
        self.mutator.get(ORDER, NODE, way(at, 0))?;
        let seen = Seen::nothing().object(u64::from(self.mutator.value(ORDER)?));
        let seen = look_at_lines(self.mutator, seen)?;
        let seen = look_at_tree(self.mutator, seen)?;
        let_go(self.mutator)?;
        Ok(seen)
    }
}
