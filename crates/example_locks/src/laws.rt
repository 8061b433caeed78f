//! What is so of threads that visit the lock while their world is open.
ghost use Rattle.example_locks.specs.Open.{GuardedOpen};

use gc_table::seats_share_run;
use heap_laws::{lock_by_log, pair_by_log};

/// At each moment of an open world whose threads visit the lock, no two of them have had it at once, and who came in
/// found the pair whole until it stored in it.
pub fn guarded_open()
    ensures { GuardedOpen }
{
    seats_share_run();
    lock_by_log();
    pair_by_log();
}
