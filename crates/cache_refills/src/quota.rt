//! How many objects are owed for a cache.

ghost use Rattle.std.specs.Prelude.{◌≡◌, ◌≤◌};
ghost use Rattle.mark_core.specs.Cards.{block_cells};
ghost use Rattle.cache_refills.specs.Pace.Pacing.{most_told};
ghost use Rattle.cache_refills.specs.Pace.Quota.{floor, quota, share};

fn share_of(cells: u32, left: u32, free: u32) -> u32
    requires cells { cells ≤ block_cells }
    ensures share { result ≡ share cells left free }
    ensures most { result ≤ 1024 }
{
    let free = free.max(1);
    let share = (u64::from(cells) * u64::from(left)).div_ceil(u64::from(free));
    u64::from(16 * cells).min(share) as u32
}

/// How many objects a mutator traces for a cache of `cells` free cells, at most 64: the cache's share, by the `free`
/// free cells, of what is left to trace, rounded up, and at most sixteen objects a cell. Left are the `last` cells
/// marked and the `rescanned` objects scanned again in the last cycle, less `traced` in this one.
pub fn quota_of(cells: u32, last: u32, rescanned: u32, traced: u32, free: u32) -> u32
    requires cells { cells ≤ block_cells }
    requires last { last ≤ most_told }
    requires rescanned { rescanned ≤ most_told }
    ensures share { result ≡ quota cells last rescanned traced free }
    ensures most { result ≤ 1024 }
{
    share_of(cells, (last + rescanned).saturating_sub(traced), free)
}

/// How many objects it traces at least, if it finds as many: the cache's share of a sixteenth of the `last` cells
/// marked in the last cycle. By the quota alone nothing would be owed once the old objects are done, though new ones
/// are left.
pub fn floor_of(cells: u32, last: u32, free: u32) -> u32
    requires cells { cells ≤ block_cells }
    ensures share { result ≡ floor cells last free }
    ensures most { result ≤ 1024 }
{
    share_of(cells, last / 16, free)
}
