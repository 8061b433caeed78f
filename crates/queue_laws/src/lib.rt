//! Laws about queues whose nodes are objects of a heap that threads share.
#![tactic(auto)]

ghost use Rattle.queue_laws.specs.Kinds.{KindsByLog};
ghost use Rattle.queue_laws.specs.LentQueues.{QueueByLending};
ghost use Rattle.queue_laws.specs.Making.{MadeByLog};
ghost use Rattle.queue_laws.specs.Orders.{QueueByName};
ghost use Rattle.queue_laws.specs.QueueLogs.{QueueByLog};
ghost use Rattle.queue_laws.specs.Reads.{ReadByLog};
ghost use Rattle.queue_laws.specs.TakenNumbers.{NumbersByLog};

/// If threads change a queue only as the calls of Michael and Scott's queue do, all that is taken was put in, in the same
/// order, and none is taken twice.
pub fn queue_by_name()
    ensures { QueueByName }
{}

/// Which of a seat's variables has what was read in a field of another one's object, its log tells.
pub fn read_by_log()
    ensures { ReadByLog }
{}

/// So the log tells which exchanges make the next node the first or the last one.
pub fn kinds_by_log()
    ensures { KindsByLog }
{}

/// Which of a seat's variables has an object that the seat made, and that is in no field that the seat exchanged, its log
/// tells.
pub fn made_by_log()
    ensures { MadeByLog }
{}

/// If the logs of threads say that they change a queue only as its calls do, it is first in, first out.
pub fn queue_by_log()
    ensures { QueueByLog }
{}

/// If one thread lays out what section 0 lends, and the logs of the others say that they change it only as a queue's calls
/// do, it is a queue from there on.
pub fn queue_by_lending()
    ensures { QueueByLending }
{}

/// Then the numbers of what each thread puts in and takes out are those that its log tells: those with which it made its
/// nodes, and those that it read.
pub fn numbers_by_log()
    ensures { NumbersByLog }
{}
