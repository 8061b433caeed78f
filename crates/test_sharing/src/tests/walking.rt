//! What a thread of the torture reaches at the end of a round.

use super::logs::{FIELDS, NOTHING};
use super::players::{FOUND, OTHER, OWN, Player, ROOT, SLOTS};
use std::sync::Wait;

#[derive(Drop)]
struct Waiting {
    next: u16,
    seen: [bool; 256],
}

impl Player {
    /// What a variable refers to waits, if it wasn't seen before.
    fn wait_for(&mut self, v: u8, waiting: &mut Waiting) -> Option<u32> {
        let what = self.which(v)?;
        let seen = waiting.seen.get_mut(what as usize)?;
        if what != NOTHING && !*seen {
            *seen = true;
            self.mutator.spill(v, waiting.next).ok()?;
            waiting.next = waiting.next.wrapping_add(1);
        }
        Some(what)
    }

    /// Checks that variables and slots have what the thread keeps.
    fn look_at_own(&mut self, waiting: &mut Waiting) -> Option<()> {
        for v in ROOT..FOUND {
            let what = self.wait_for(v, waiting)?;
            let kept = self.kept(v);
            self.expect(what == kept);
        }
        for k in 0..SLOTS {
            self.mutator.fill(FOUND, k).ok()?;
            let what = self.wait_for(FOUND, waiting)?;
            let kept = self.in_slot(k);
            self.expect(what == kept);
        }
        Some(())
    }

    fn look_at_next(&mut self, waiting: &mut Waiting) -> Option<()> {
        waiting.next = waiting.next.wrapping_sub(1);
        self.mutator.fill(OTHER, waiting.next).ok()?;
        let object = self.which(OTHER)?;
        for i in 0..FIELDS as u8 {
            self.mutator.get(FOUND, OTHER, i).ok()?;
            let what = self.wait_for(FOUND, waiting)?;
            self.log.ended(object, i, what)?;
        }
        Some(())
    }

    /// Goes to each object that the thread reaches, once.
    pub fn walk<R: Wait>(&mut self, rt: &R) -> Option<()> {
        self.mutator.enter(rt).ok()?;
        let mut waiting = Waiting {
            next: SLOTS,
            seen: [false; 256],
        };
        self.look_at_own(&mut waiting)?;
        for _ in rt.forever() {
            if waiting.next <= SLOTS {
                break;
            }
            self.look_at_next(&mut waiting)?;
        }
        self.mutator.leave();
        Some(())
    }

    /// Lets go of all, and empties the root's fields.
    pub fn let_go<R: Wait>(&mut self, rt: &R) -> Option<()> {
        self.mutator.enter(rt).ok()?;
        for i in 0..FIELDS as u8 {
            self.mutator.forget(FOUND).ok()?;
            self.mutator.set(ROOT, i, FOUND).ok()?;
        }
        for v in OWN..OTHER + 1 {
            self.mutator.forget(v).ok()?;
            self.keep(v, NOTHING);
        }
        for k in 0..SLOTS {
            self.mutator.spill(OTHER, k).ok()?;
            self.keep_in_slot(k, NOTHING);
        }
        self.mutator.leave();
        Some(())
    }
}
