//! One entry of a queue is drawn: it gets its ticket, joins the list, and the new figure is published.
ghost use Rattle.std.specs.Prelude.{◌≡◌, ◌<◌, ◌≤◌, ◌+◌, ◌^◌, ◌++◌, ◌∷◌, [], length, map, IfSome};
ghost use mathlib.Core.List.{IsPrefix};
ghost use Rattle.lb_ticket.specs.Seats.{KeepsList};
ghost use Rattle.lb_ticket.specs.Tickets.{pair};
ghost use Rattle.lb_journal.specs.Journal.{Fits, number_of, replay, queue_by_item};
ghost use Rattle.lb_journal.specs.Owners.{published};
ghost use Rattle.lb_board.specs.Board.{IsOfBoard, add_figure, see, seen_at};
ghost use Rattle.lb_queue.specs.Figures.{figure};
ghost use Rattle.lb_cell.specs.LastEntries.{DrewOne, Leaves, Quotes, facts_of};

use crate::known::Known;
use crate::log::Log;
use lb_board::Board;
use lb_journal::laws::queue_grows;
use lb_journal::{Journal, Left};
use lb_queue::Queue;
use lb_ticket::{Book, Coding, Seat};
use std::sync::Wait;

/// A seat learns that the lane's last entry was drawn.
pub(crate) fn learn_last(book: &Book<Journal>, seat: &mut Seat<Journal>, known: &mut Known)
    requires book { seat.old.table ≡ book.now.table }
    requires note { IfSome known.old.note (λ n. n.table ≡ book.now.table) }
    ensures seat { KeepsList seat.old seat.new × (seat.new.read ≡ seat.old.read) × (seat.new.fresh ≡ seat.old.fresh) }
    ensures learnt { seat.new.known ≡ seat.old.known ++ facts_of known.old.note }
    ensures later { seat.old.next ≤ seat.new.next }
    ensures known { (known.new.ticket ≡ known.old.ticket) × (known.new.reader ≡ known.old.reader) }
{
    let Some(note) = known.note.take() else {
        return;
    };
    seat.learn(book, note);
}

/// Draws an entry of any owner for a lane, and answers its ticket. It quotes the lane's last entry, and is that from
/// now on.
pub(crate) fn draw_noted(
    book: &Book<Journal>,
    seat: &mut Seat<Journal>,
    known: &mut Known,
    item: Journal,
) -> u64
    requires book { seat.old.table ≡ book.now.table }
    requires spare { 0 < seat.old.spare }
    requires owner { number_of item.entry.owner ≡ seat.old.number }
    requires fits { Fits (map pair seat.old.list) item }
    requires quotes { Quotes book.now.table ⟦<Left as Coding>⟧.coding item known.old.ticket known.old.note }
    ensures list { seat.new.list ≡ seat.old.list ++ record { ticket = result; item = item } ∷ [] }
    ensures seat { DrewOne seat.old seat.new }
    ensures later { (seat.old.next ≤ result) × (seat.new.next ≡ result + 1) }
    ensures leaves { Leaves book.now.table ⟦<Left as Coding>⟧.coding item result known.new.note }
    ensures known { (known.new.ticket ≡ result) × (known.new.reader ≡ known.old.reader) }
    ensures some { 0 < result }
{
    learn_last(book, seat, known);
    let ticket = seat.draw(book, item);
    known.note = Some(seat.note(book, ticket));
    known.ticket = ticket;
    ticket
}

/// Draws an entry of a queue for a lane, and answers its ticket: the queue has made its step. Its figure is published,
/// and the lane is told of it.
pub(crate) fn draw_at<R: Wait>(
    rt: &R,
    book: &Book<Journal>,
    board: &Board,
    queue: &Queue,
    log: &mut Log,
    known: &mut Known,
    item: Journal,
) -> u64
    requires book { log.old.seat.table ≡ book.now.table }
    requires spare { 0 < log.old.seat.spare }
    requires owner { number_of item.entry.owner ≡ log.old.seat.number }
    requires fits { Fits (map pair log.old.seat.list) item }
    requires quotes { Quotes book.now.table ⟦<Left as Coding>⟧.coding item known.old.ticket known.old.note }
    requires board { IsOfBoard board.now log.old.writer × (known.old.reader.cells ≡ board.now) }
    requires short { length log.old.seat.list + 1 < 2 ^ 40 }
    requires published { log.old.writer.figures ≡ published item.header log.old.writer.cpu (map pair log.old.seat.list) }
    requires step { queue.now.state
        ≡ queue_by_item (replay item.header log.old.writer.cpu (map pair log.old.seat.list)) (length log.old.seat.list) item }
    ensures list { log.new.seat.list ≡ log.old.seat.list ++ record { ticket = result; item = item } ∷ [] }
    ensures seat { DrewOne log.old.seat log.new.seat }
    ensures leaves { Leaves book.now.table ⟦<Left as Coding>⟧.coding item result known.new.note }
    ensures ticket { (known.new.ticket ≡ result) × (0 < result) }
    ensures replay { queue.now.state ≡ replay item.header log.old.writer.cpu (map pair log.new.seat.list) }
    ensures published { log.new.writer.figures ≡ published item.header log.old.writer.cpu (map pair log.new.seat.list) }
    ensures figure { log.new.writer ≡ add_figure log.old.writer (figure queue.now.state (length log.old.seat.list + 1) result) }
    ensures told { IsPrefix log.new.writer.figures (seen_at known.new.reader log.old.writer.cpu) }
    ensures seen { known.new.reader ≡ see known.old.reader log.old.writer.cpu (seen_at known.new.reader log.old.writer.cpu) }
    ensures seen_more { IsPrefix (seen_at known.old.reader log.old.writer.cpu) (seen_at known.new.reader log.old.writer.cpu) }
{
    // the list has one item more, the queue one step, and its figures the one after that
    queue_grows();
    let ticket = draw_noted(book, &mut log.seat, known, item);
    let fig = queue.figure(log.seat.len(), ticket);
    log.writer.publish(rt, board, fig);
    known.reader.told(rt, board, &mut log.writer);
    ticket
}
