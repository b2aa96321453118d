//! What holds of every queue, as laws over the definitions: each function's contract is the law,
//! and its body cites the laws below.
ghost use Rattle.lb_queue.specs.Laws.{EmptyIsSound, CallsKeepSound, ClockRises, OwedIsPending, CallsMove, TestsLast, CallsKeepRest, TakenMayRun, PullsFollowPicks, AskedIsNext, NextMayBeTaken};

use lb_detach::laws::picked_is_sound;
use lb_pelt::laws::advanced_is_bounded;

/// Whatever calls are made on an empty queue, or on one that is sound: each known task stands exactly
/// once among those awake, asleep and gone; one task runs exactly where somebody is awake; an awake
/// task is asked to leave exactly where its mask lacks the CPU; and every task's id, nice value, mask
/// and signal keep their bounds.
pub fn sound()
    ensures empty { EmptyIsSound }
    ensures kept { CallsKeepSound }
{
    // signals stay bounded as they are advanced
    advanced_is_bounded();
    // what a pull picks differs, waits, and may run at the destination
    picked_is_sound();
}

/// The clock never falls, whatever calls are made.
pub fn clock_rises()
    ensures { ClockRises }
{}

/// A stop request that is owed is pending.
pub fn owed_is_pending()
    ensures { OwedIsPending }
{}

/// Each call moves the tasks that it says from one side to another (awake, asleep, gone, or on hand with
/// the caller), and no other: each other id stands where it stood.
pub fn calls_move()
    ensures { CallsMove }
{}

/// What holds of each task of a queue, by tests that neither time nor leaving ends, holds of each after
/// a call too, and of those that leave by it; only of what comes in, and of a task that is changed, it
/// has to be asked. So each other task stays what it was, but for its signal and when it ran.
pub fn tests_last()
    ensures { TestsLast }
{}

/// A queue stays that of its CPU and its machine. A call of tasks leaves the version, the counters, the
/// open turn and the flag of a kick, and makes no active request; each other call leaves all tasks.
pub fn calls_keep_rest()
    ensures { CallsKeepRest }
{}

/// Each task that leaves by a call may run where it goes.
pub fn taken_may_run()
    ensures { TakenMayRun }
{
    // what a pull picks may run at the destination
    picked_is_sound();
}

/// By a pull those tasks leave that docs/rules/picked-list.md picks, in that order and no more than one
/// pull examines; the others stand in the order that the examination left.
pub fn pulls_follow_picks()
    ensures { PullsFollowPicks }
{
    // no more are picked than one pull examines
    picked_is_sound();
}

/// A stop request is next exactly where a task is asked to leave (`asked`), and it may be taken where no
/// awake task's mask is empty (`taken`).
pub fn next_stops()
    ensures asked { AskedIsNext }
    ensures taken { NextMayBeTaken }
{}
