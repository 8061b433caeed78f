//! What is so of threads that share a queue while their world is open.
ghost use Rattle.example_queues.specs.Open.{QueueOpen};

use gc_table::seats_share_run;
use queue_laws::{queue_by_lending, queue_by_name};

/// At each moment of an open world whose threads use the root as a queue, it has been first in, first out.
pub fn queue_open()
    ensures { QueueOpen }
{
    seats_share_run();
    queue_by_lending();
    queue_by_name();
}
