//! What holds of every table of queues, for the layers above: each function's contract is a law.
//!
//! Their bodies do nothing; a function calls one where its proof needs the law.
ghost use Rattle.msg_queues.specs.Laws.{CallsKeepTheTable, CallsSpareOthers, CreatedIsThere, RemovedIsGone, PushedBackIsLast, PushedFrontIsFirst, PoppedLeavesTheRest, FlushedIsEmpty, SizesStay, FirstInFirstOut};
ghost use Rattle.msg_queues.specs.Queues.{IsQueueTable, no_queues};

/// Each call keeps what holds of every table.
pub fn calls_keep_the_table()
    ensures new { IsQueueTable no_queues }
    ensures calls { CallsKeepTheTable }
{}

/// A call changes the queue of its own object alone.
pub fn a_call_changes_its_queue_alone()
    ensures { CallsSpareOthers }
{}

/// What a call leaves of its own queue: the messages as the call says, and its sizes as they were.
pub fn what_a_call_leaves_of_its_queue()
    ensures created { CreatedIsThere }
    ensures removed { RemovedIsGone }
    ensures pushed_back { PushedBackIsLast }
    ensures pushed_front { PushedFrontIsFirst }
    ensures popped { PoppedLeavesTheRest }
    ensures flushed { FlushedIsEmpty }
    ensures sizes { SizesStay }
{}

/// Messages that are sent last and received first come out in the order in which they were sent.
pub fn first_sent_is_first_received()
    ensures { FirstInFirstOut }
{}
