//! Whether what the threads of the torture read and left is what they stored.

use super::logs::{Entry, FIELDS, NEVER, NOTHING};
use super::players::{Player, ROOTED};
use std::alloc::Global;

/// How many reads found what no thread had stored there.
fn not_stored(alloc: Global, players: &[Player]) -> Option<u64> {
    let mut all = Vec::new(alloc);
    for player in players {
        for entry in &player.log.stores {
            all.push(*entry).ok()?;
        }
    }
    all.as_mut_slice().sort_unstable();
    let mut wrong = 0u64;
    for player in players {
        for entry in &player.log.reads {
            if all.as_slice().binary_search(entry).is_err() {
                wrong = wrong.wrapping_add(1);
            }
        }
    }
    Some(wrong)
}

/// What a field of the root has at the end. Each exchange goes on from what another left, so all that came went again,
/// but the last.
fn left_in_root(players: &[Player], i: u32) -> u32 {
    let mut left = NOTHING;
    for player in players {
        left ^= player.log.left.get(i as usize).copied().unwrap_or(NEVER);
    }
    left
}

/// Whether a field may have this at the end: what some thread stored there last, or nothing.
fn may_have(players: &[Player], entry: Entry) -> bool {
    let (field, what) = entry;
    if field / FIELDS == ROOTED {
        return what == left_in_root(players, field % FIELDS);
    }
    let mut is_never = true;
    for player in players {
        let last = player.log.last.get(field as usize).copied();
        if last == Some(what) {
            return true;
        }
        is_never = is_never && last == Some(NEVER);
    }
    is_never && what == NOTHING
}

/// How many answers and fields were wrong in a round.
pub fn wrongs(alloc: Global, players: &[Player]) -> Option<u64> {
    let mut wrong = not_stored(alloc, players)?;
    for player in players {
        wrong = wrong.wrapping_add(player.wrong);
        for entry in &player.log.ends {
            if !may_have(players, *entry) {
                wrong = wrong.wrapping_add(1);
            }
        }
    }
    Some(wrong)
}
