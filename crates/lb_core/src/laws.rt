//! Laws of every legal front and history, over the definitions alone: each function's contract is the
//! law, and its body calls the laws below that it stands on.
ghost use Rattle.lb_core.specs.Placed.{PlacedAlways, PlacedOpens, PlacedStays};
ghost use Rattle.lb_core.specs.Permitted.{PermittedAlways, PermittedOpens, PermittedStays};
ghost use Rattle.lb_core.specs.Passes.{PassesAlways};
ghost use Rattle.lb_core.specs.TurnCounters.{TurnsFitAlways};
ghost use Rattle.lb_core.specs.OpenTurns.{TurnsStayOpen};
ghost use Rattle.lb_core.specs.Replies.{RepliesAlways, NextAlways};
ghost use Rattle.lb_core.specs.Choices.{ChoicesAreAll};
ghost use Rattle.lb_core.specs.Serial.{OneSerialHistory};

use lb_domain::laws::domains_stand_in_order;
use lb_queue::laws::{
    calls_keep_rest, calls_move, next_stops, pulls_follow_picks, taken_may_run, tests_last,
};

/// After every legal front of an accepted header, each declared task stands at exactly one place, once:
/// in one list of one queue or in one hand, where the map has it; and no other number stands anywhere, in
/// no hand either (docs/rules/lanes.md).
pub fn placed()
    ensures { PlacedAlways }
{
    // which tasks a queue's call moves, and from where to where
    calls_move();
}

/// The opening state of an accepted header has each declared task at its one place, and each hand is empty
/// unless its lane is in flight; each entry that may be added keeps both.
pub fn placed_stays()
    ensures opens { PlacedOpens }
    ensures stays { PlacedStays }
{
    // which tasks a queue's call moves, and from where to where
    calls_move();
}

/// After every legal front of an accepted header, each awake task may run where it is or is asked
/// to leave, and each task in a hand may run where the hand goes (docs/rules/queue.md).
///
/// And each look of a legal front is a pass: of the open turn of its lane's last `use`, over the version
/// that this took up, at one of its positions; over the figures of just the CPUs of the domain's span that
/// are no source of a pull before at this position, each that of its named entry; with the decision that
/// these give. Where it pulls, the lane's next entry takes exactly what the rules pick from the source as
/// it then is. Once that has landed, a further look at this position follows exactly where something was
/// examined, all of it was pinned, and a CPU outside the local group is left that was no source
/// (docs/rules/lanes.md).
pub fn permitted()
    ensures permitted { PermittedAlways }
    ensures passes { PassesAlways }
{
    // no id stands twice among the tasks of a queue
    calls_move();
    // what a call leaves of masks and stop requests, and that the queue stays its CPU's
    tests_last();
    // what else it leaves: a queue's counters and open turn, where it is a call of tasks
    calls_keep_rest();
    // the domains of a CPU stand at their positions
    domains_stand_in_order();
    // where tasks that leave may go, and that the stop that is due may be taken
    taken_may_run();
    next_stops();
    // what a pull takes, and in which order it leaves the rest
    pulls_follow_picks();
}

/// In the opening state of an accepted header each awake task may run where it is or is asked to leave, and
/// each task in a hand may run where the hand goes; and each queue is its CPU's, and no task's mask is empty.
/// Each entry that may be added keeps both, where each task is at its one place and each hand empty unless
/// its lane is in flight, which `placed_stays` keeps.
pub fn permitted_stays()
    ensures opens { PermittedOpens }
    ensures stays { PermittedStays }
{
    // what a call leaves of masks and stop requests, and that the queue stays its CPU's
    tests_last();
    calls_keep_rest();
    // where tasks that leave may go, and that the stop that is due may be taken
    taken_may_run();
    next_stops();
}

/// After every legal front a queue's counters are as many as its CPU has domains in the version that
/// they are kept for, and an open turn has counters and balances positions of these domains alone
/// (docs/rules/counters.md).
pub fn turns_fit()
    ensures { TurnsFitAlways }
{
    // calls of tasks leave a queue's counters and open turn
    calls_keep_rest();
    // the domains of a CPU stand at their positions
    domains_stand_in_order();
}

/// After every legal front, a lane that is in a turn took up a published version, and its turn stays open
/// at the queue of its CPU until the lane ends it; the position in work is one of the turn's, and each of
/// these is one of the CPU's domains (docs/rules/lanes.md).
pub fn turns_stay_open()
    ensures { TurnsStayOpen }
{
    // a call of tasks leaves a queue's counters and its open turn
    calls_keep_rest();
    // the domains of a CPU stand at their positions
    domains_stand_in_order();
}

/// In a legal history each row has the next number of its lane, from 1, and its reply: the lane's next
/// entry, drawn by the queue where the row's task stands, or whose CPU it ticks, or by the publisher,
/// with the value that the queue then answers, or with the next version. And no lane is left at work:
/// it has a next entry until the end (docs/rules/lanes.md).
pub fn replies()
    ensures replied { RepliesAlways }
    ensures goes_on { NextAlways }
{
    // calls of tasks leave a queue's counters and open turn, which the invariant of rows and turns keeps
    calls_keep_rest();
    // the domains of a CPU stand at their positions
    domains_stand_in_order();
}

/// The choices that the machine leaves a lane are which row comes at rest, or for lane 0 that the
/// closing begins; which version a `use` names; and which figures a look or a scan names. Two
/// entries of one lane that may both be added to a state, and that agree on these, are equal.
#[tactic(auto, using(crate::proofs::Agreeing::choices_are_all))]
pub fn choices()
    ensures { ChoicesAreAll }
{}

/// A trace has at most one serial history: with the newest versions and figures, and the rows in file
/// order, each served to its end before the next, the rules leave one entry at each place.
pub fn one_serial_history()
    ensures { OneSerialHistory }
{}
