//! What is traced for caches is counted.
ghost use Rattle.std.specs.Prelude.{◌≡◌};
ghost use Rattle.seat_steps.specs.PaidTries.{counts_more};

use gc_cycle::Paid;

/// Adds what was traced for a cache to the count, as far as 64 bits hold.
pub fn count_paid(count: &mut u64, paid: Paid)
    ensures counts { count.new ≡ counts_more count.old paid.done }
{
    *count = count.saturating_add(u64::from(paid.done));
}
