//! What is so of threads that fill and read the two words while their world is open.
ghost use Rattle.example_orders.specs.Open.{OrdersOpen};

use gc_table::seats_share_run;
use heap_laws::{lent_by_log, variables_read};

/// At each moment of an open world whose threads take nothing back, no two of them have seen the two words filled in
/// different orders.
pub fn orders_open()
    ensures { OrdersOpen }
{
    seats_share_run();
    lent_by_log();
    variables_read();
}
