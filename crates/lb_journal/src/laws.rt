//! The law of the merge and the laws over lists that lead to it, over the definitions alone: each function's
//! contract is the law, and its body calls the laws below that it stands on.
//!
//! The lists are those of a closed ticket book, by the numbers of the owners. The closing entries are each `out`
//! that lane 0 draws at rest, the `in` that quotes it, and the end (docs/rules/lanes.md).
ghost use Rattle.lb_journal.specs.Known.{KnownRest};
ghost use Rattle.lb_journal.specs.Owners.{ClosesNow, ClosingGoesOn, ClosingIsLast, ClosingStarts, FiguresAreRead, GrowthKeeps, MasksAreRead, OwnersMerge, QueueGrows, RowsAreOwn, UsesStay};
ghost use Rattle.lb_journal.specs.Merge.{MergeIsRun, OrderIsLog, UnquotedRest};

use lb_core::laws::placed;

/// The entries of the lists of a closed ticket book, put in the order of their tickets, are a legal
/// history, where the lists meet the premises: their items carry one header, which is that of an accepted trace;
/// the figures and masks that they carry are those of earlier entries; each CPU is ticked by one lane; the
/// closing entries come last and find every lane at rest, as the queues then ask for them; and one of them lacks
/// a quote only where lane 0 drew nothing before it.
pub fn merge_is_run()
    ensures { MergeIsRun }
{
    // each task stands at one place, so the queue that knows it is where it is
    placed();
}

/// A list that has the entry of each ticket at that ticket's place is the entries of a closed book in the order
/// of their tickets.
pub fn order_is_log()
    ensures { OrderIsLog }
{}

/// What the owners keep of their lists, and the closed book, give all premises of the merge, and that the
/// entries in the order of their tickets are a history of the trace.
pub fn owners_merge()
    ensures { OwnersMerge }
{
    // the premises give a legal history
    merge_is_run();
}

/// The closing finds all lanes at rest where each entry that nobody quotes, and that closes nothing, leaves its
/// lane at rest.
pub fn unquoted_rest()
    ensures { UnquotedRest }
{}

/// The closing finds all lanes at rest where, of what the seats hold when the book is closed, one fact is of
/// each declared lane but lane 0 that drew a row, and says that it is left at rest.
pub fn known_rest()
    ensures { KnownRest }
{}

/// Where each lane had read the `pub` of each version that it uses, and what was read stands in the closed
/// lists, the masks that a `use` carries are those of an earlier `pub`.
pub fn masks_are_read()
    ensures { MasksAreRead }
{}

/// What a lane's items say of the versions that they use stays true as its seat reads more.
pub fn uses_stay()
    ensures { UsesStay }
{}

/// Where each carried figure is the one that its queue published under its number, and its ticket is an earlier
/// one, the figures are those of earlier entries.
pub fn figures_are_read()
    ensures { FiguresAreRead }
{}

/// Each entry of a queue is one step of it, and adds its figure to those that the queue published.
pub fn queue_grows()
    ensures { QueueGrows }
{}

/// The rows that a lane takes up are those of its own list, in their order.
pub fn rows_are_own()
    ensures { RowsAreOwn }
{}

/// The closing starts where nothing closes.
pub fn closing_starts()
    ensures { ClosingStarts }
{}

/// It goes on by an entry above all others that closes something, and that lacks a quote only as the first of
/// the closing ones, where lane 0's own list is empty.
pub fn closing_goes_on()
    ensures { ClosingGoesOn }
{}

/// Where all tickets so far are below one, the queues before it are the replays of their whole lists.
pub fn closes_now()
    ensures { ClosesNow }
{}

/// Where the closing entries are those after a ticket, they come after all others, and one of them lacks a quote
/// only where lane 0 drew nothing before it.
pub fn closing_is_last()
    ensures { ClosingIsLast }
{}

/// What is said of the figures that items carry, and of closing entries before the further items, stays true as
/// the lists grow.
pub fn growth_keeps()
    ensures { GrowthKeeps }
{}
