//! Laws of the machine's states, over the definitions alone: each function's contract is the law,
//! and its body calls the laws that it stands on.
ghost use Rattle.lb_ready.specs.Lanes.{LanesSuit};
ghost use Rattle.lb_ready.specs.Laws.{OpensReady, StaysReady, ReadsInRange, EntriesFall, CallsMayBeTried, CallsMayBeMade, LooksMayBeDecided, StopsMayBeTaken, TasksStand, ServiceGoesOn, RowsAreTaken, ClosingGoesOn, NextIsSerial, SerialIsNext, TracesHaveRuns, HistoriesEnd, EntriesFit, EntryFits};

use lb_core::laws::{choices, permitted, placed_stays, turns_fit, turns_stay_open};
use lb_domain::laws::{
    domains_are_few, domains_stand_in_order, groups_part_the_span, spans_lie_inside,
};
use lb_levels::laws::a_partition_has_no_fault;
use lb_pelt::laws::{advanced_is_bounded, value_is_bounded};
use lb_queue::laws::{calls_keep_rest, calls_move, next_stops, tests_last};

/// What every reachable state of the machine keeps: the opening machine of an accepted header is
/// ready, and every entry that may be added keeps it so, where the nice value of its row, if it takes
/// up one, is in range. No other field of an entry is asked to be in range, and what is read from a
/// text is (clause `reads`).
pub fn ready()
    ensures opens { OpensReady }
    ensures stays { StaysReady }
    ensures reads { ReadsInRange }
{
    // signals stay bounded, and figures so small
    advanced_is_bounded();
    value_is_bounded();
    // what the calls of a queue keep of its tasks, and of the rest
    calls_move();
    tests_last();
    calls_keep_rest();
    next_stops();
    // the groups of a domain part its span
    domains_are_few();
    domains_stand_in_order();
    spans_lie_inside();
    groups_part_the_span();
    // what holds after every legal front
    placed_stays();
    permitted();
    turns_stay_open();
    turns_fit();
}

/// Every entry that may be added lowers the number of entries that are left, whichever lane draws it.
/// So a history of so many rows ends.
pub fn entries_fall()
    ensures { EntriesFall }
{
    // what the calls of a queue keep of its tasks
    advanced_is_bounded();
    value_is_bounded();
    calls_move();
    tests_last();
    calls_keep_rest();
    next_stops();
}

/// An entry that may be added to a ready machine meets what the calls of its queue ask, with the
/// values that the course of its lane fixes; all but what a command asks it meets as soon as its lane may
/// draw it (`tried`). A look that names the figures that are due meets what a decision asks, and a scan
/// what the search for a target asks; the next stop of each queue may be taken; and each task stands in the
/// list of its place alone, if no lane has it in its hand.
pub fn calls_may_be_made()
    ensures tried { CallsMayBeTried }
    ensures calls { CallsMayBeMade }
    ensures looks { LooksMayBeDecided }
    ensures stops { StopsMayBeTaken }
    ensures stand { TasksStand }
{
    // the domains of a turn are few, in order and parted
    domains_are_few();
    domains_stand_in_order();
    spans_lie_inside();
    groups_part_the_span();
    // the next stop may be taken
    next_stops();
}

/// A serial run is never stuck: a lane that serves its row while the others rest has a next entry;
/// where all rest, each accepted row may be taken up, or else lane 0 goes on closing the history. So
/// every accepted trace has a serial history (docs/rules/lanes.md).
pub fn serial_runs()
    ensures service { ServiceGoesOn }
    ensures rows { RowsAreTaken }
    ensures closing { ClosingGoesOn }
    ensures traces { TracesHaveRuns }
{
    // the masks of an accepted row are a partition
    a_partition_has_no_fault();
    // where a task is asked to leave, a stop is next
    next_stops();
    // a run stays ready, and ends
    ready();
    entries_fall();
}

/// The entry that a lane draws next with the newest version and figures, as it is computed, may be added;
/// and it is the only serial entry of the lane that may. So where none is computed, the lane has to wait
/// for others, or has nothing to draw.
pub fn next_entries()
    ensures serial { NextIsSerial }
    ensures all { SerialIsNext }
{
    // where a task is asked to leave, a stop is next
    next_stops();
    // which choices an entry makes
    choices();
}

/// A history of an accepted trace has at most 811,405 entries for each row of the trace, and its end.
pub fn histories_end()
    ensures { HistoriesEnd }
{
    // each entry keeps the machine ready and lowers what is left
    ready();
    entries_fall();
}

/// What the entries of a history of an accepted trace say is in the ranges of its text
/// (docs/rules/history-text.md), tickets and previous tickets too; and so does each entry that may be
/// added to a ready machine that has not drawn [`lb_core::MAX_TICKET`] entries.
pub fn entries_fit()
    ensures histories { EntriesFit }
    ensures entries { EntryFits }
{
    // every reachable machine is ready
    ready();
    // a look is over the figures of a parted span
    calls_may_be_made();
    domains_are_few();
    domains_stand_in_order();
    spans_lie_inside();
    groups_part_the_span();
    // so tickets are few
    histories_end();
}

/// Each lane of a reachable state has the number of a figure for each CPU, and a position that a mask has
/// room for; and where it is to publish masks, they part the CPUs.
pub fn lanes_suit()
    ensures { LanesSuit }
{
    // the masks of a row that may be taken up are a partition
    a_partition_has_no_fault();
}
