//! What a thread of the torture does.

ghost use Rattle.std.specs.Prelude.{◌<◌};

use super::logs::{FIELDS, Log, NOTHING};
use shared_heap::SharedMutator;
use std::alloc::Global;
use std::sync::Wait;

/// How many threads there are, and how many objects each makes in a round at most.
pub const THREADS: u32 = 3;

pub const MOST: u32 = 70;

const STEPS: u32 = 300;

/// What stands for the root.
pub const ROOTED: u32 = 1;

/// The variables: the root, nothing, what the thread keeps, and what it finds.
pub const ROOT: u8 = 0;

const NIL: u8 = 1;

pub const OWN: u8 = 2;

pub const FOUND: u8 = 12;

pub const OTHER: u8 = 13;

/// In the slots behind these, objects wait to be looked at.
pub const SLOTS: u16 = 4;

/// How many objects a round has at most, with the root, and how many slots a thread needs.
pub const OBJECTS: u32 = THREADS * MOST + 2;

pub const PLACES: u32 = 4 + OBJECTS;

/// A thread of the torture.
#[derive(Drop)]
pub struct Player {
    /// It is outside before and after a round.
    pub mutator: SharedMutator,
    thread: u32,
    /// How many it made in this round, and each thread before.
    pub made: u32,
    before: [u64; 3],
    /// The last number drawn.
    drawn: u32,
    /// What its variables and slots refer to.
    own: [u32; 13],
    slots: [u32; 4],
    pub log: Log,
    /// How many answers were wrong.
    pub wrong: u64,
    /// Whether it did all of its rounds.
    pub ended: bool,
}

impl Player {
    /// None if there is no memory.
    pub fn new(alloc: Global, mutator: SharedMutator, thread: u32) -> Option<Player> {
        Some(Player {
            mutator,
            thread,
            made: 0,
            before: [0; 3],
            drawn: thread,
            own: [NOTHING; 13],
            slots: [NOTHING; 4],
            log: Log::new(alloc, OBJECTS)?,
            wrong: 0,
            ended: true,
        })
    }

    /// Notes whether an answer is right.
    pub fn expect(&mut self, right: bool) {
        if !right {
            self.wrong = self.wrong.wrapping_add(1);
        }
    }

    fn draw(&mut self, bound: u8) -> u8
        requires some { 0 < bound }
        ensures below { result < bound }
    {
        self.drawn = self
            .drawn
            .wrapping_mul(1_664_525)
            .wrapping_add(1_013_904_223);
        ((self.drawn >> 12) % u32::from(bound)) as u8
    }

    /// What a variable refers to, as the thread keeps it.
    pub fn kept(&self, v: u8) -> u32 {
        self.own.get(usize::from(v)).copied().unwrap_or(NOTHING)
    }

    /// Keeps what a variable refers to.
    pub fn keep(&mut self, v: u8, what: u32) {
        if let Some(own) = self.own.get_mut(usize::from(v)) {
            *own = what;
        }
    }

    /// What a slot has, as the thread keeps it.
    pub fn in_slot(&self, k: u16) -> u32 {
        self.slots.get(usize::from(k)).copied().unwrap_or(NOTHING)
    }

    /// Keeps what a slot has.
    pub fn keep_in_slot(&mut self, k: u16, what: u32) {
        if let Some(slot) = self.slots.get_mut(usize::from(k)) {
            *slot = what;
        }
    }

    fn number_of(&self, value: u32) -> u64 {
        if value == 0 {
            return 0;
        }
        let maker = (value - 1) % THREADS;
        let before = self.before.get(maker as usize).copied().unwrap_or(0);
        u64::from(maker + 1)
            .wrapping_mul(4_294_967_296)
            .wrapping_add(before)
            .wrapping_add(u64::from((value - 1) / THREADS))
    }

    /// What a variable's object stands for, with whose value its number has to agree.
    pub fn which(&mut self, v: u8) -> Option<u32> {
        if self.mutator.is_nil(v).ok()? {
            return Some(NOTHING);
        }
        let value = u32::try_from(self.mutator.value(v).ok()?).ok()?;
        let number = self.mutator.number(v).ok()?;
        let right = number == self.number_of(value);
        self.expect(right);
        Some(value.wrapping_add(1))
    }

    /// Makes an object, but no more than `MOST`.
    fn make<R: Wait>(&mut self, rt: &R, v: u8) -> Option<()> {
        if self.made >= MOST {
            return Some(());
        }
        let value = self
            .made
            .wrapping_mul(THREADS)
            .wrapping_add(self.thread)
            .wrapping_add(1);
        self.mutator.make(rt, v, value).ok()?;
        self.made = self.made.wrapping_add(1);
        self.keep(v, value.wrapping_add(1));
        Some(())
    }

    fn link(&mut self, v: u8, i: u8, w: u8) -> Option<()> {
        let (object, what) = (self.kept(v), self.kept(w));
        self.mutator.set(v, i, w).ok()?;
        if object == NOTHING {
            return Some(());
        }
        self.log.stored(object, i, what)
    }

    fn follow(&mut self, w: u8, v: u8, i: u8) -> Option<u32> {
        let object = self.kept(v);
        self.mutator.get(w, v, i).ok()?;
        let what = self.which(w)?;
        self.keep(w, what);
        self.expect(object != NOTHING || what == NOTHING);
        self.log.read(object, i, what)?;
        Some(what)
    }

    fn goes_on(&mut self, w: u8, v: u8, i: u8) -> Option<()> {
        self.follow(w, v, i)?;
        Some(())
    }

    /// Hands variable v's object over in field i of the root, for what was there, if no other is faster.
    fn hand_over(&mut self, w: u8, v: u8, i: u8) -> Option<()> {
        let (from, what) = (self.follow(FOUND, ROOT, i)?, self.kept(v));
        if self.mutator.exchange(ROOT, i, FOUND, v).ok()? {
            self.log.exchanged(ROOTED, i, from, what)?;
            self.mutator.copy(w, FOUND).ok()?;
            self.keep(w, from);
        }
        Some(())
    }

    /// The same in a field of any object, in which others only store.
    fn swap(&mut self, w: u8, v: u8, i: u8) -> Option<()> {
        let (object, what) = (self.kept(v), self.kept(w));
        if object == NOTHING {
            return Some(());
        }
        self.follow(FOUND, v, i)?;
        if self.mutator.exchange(v, i, FOUND, w).ok()? {
            self.log.stored(object, i, what)?;
        }
        Some(())
    }

    fn spill(&mut self, v: u8, k: u16) -> Option<()> {
        self.mutator.spill(v, k).ok()?;
        let what = self.kept(v);
        self.keep_in_slot(k, what);
        Some(())
    }

    fn fill(&mut self, v: u8, k: u16) -> Option<()> {
        self.mutator.fill(v, k).ok()?;
        let what = self.which(v)?;
        let kept = self.in_slot(k);
        self.expect(what == kept);
        self.keep(v, what);
        Some(())
    }

    fn copy(&mut self, w: u8, v: u8) -> Option<()> {
        self.mutator.copy(w, v).ok()?;
        let what = self.kept(v);
        self.keep(w, what);
        Some(())
    }

    fn step<R: Wait>(&mut self, rt: &R) -> Option<()> {
        let what = self.draw(100);
        let v = OWN + self.draw(FOUND - OWN);
        let w = OWN + self.draw(FOUND - OWN);
        let i = self.draw(FIELDS as u8);
        let k = u16::from(self.draw(SLOTS as u8));
        match what {
            0..=24 => self.make(rt, v),
            25..=44 => self.link(v, i, w),
            45..=52 => self.link(v, i, NIL),
            53..=66 => self.goes_on(w, v, i),
            67..=78 => self.hand_over(w, v, i),
            79..=81 => self.hand_over(w, NIL, i),
            82..=87 => self.swap(w, v, i),
            88..=90 => self.copy(w, v),
            91..=93 => self.copy(v, NIL),
            94..=96 => self.spill(v, k),
            _ => self.fill(v, k),
        }
    }

    fn steps<R: Wait>(&mut self, rt: &R) -> Option<()> {
        self.mutator.enter(rt).ok()?;
        self.mutator.root(ROOT).ok()?;
        self.keep(ROOT, ROOTED);
        for _ in 0..STEPS {
            self.step(rt)?;
            self.mutator.safe_point(rt).ok()?;
        }
        self.mutator.leave();
        Some(())
    }

    /// A round.
    pub fn play<R: Wait>(&mut self, rt: &R) {
        self.ended = self.ended && self.steps(rt).is_some();
    }

    /// Begins a round, before which the threads had made so many objects.
    pub fn begin(&mut self, before: [u64; 3]) {
        self.before = before;
        self.made = 0;
        self.log.clear();
    }
}
