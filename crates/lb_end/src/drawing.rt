//! The draw of one entry of lane 0, in the list of any owner.
ghost use Rattle.std.specs.Prelude.{◌≡◌, ◌<◌, ◌≤◌, ◌+◌, ◌^◌, ◌++◌, ◌∷◌, [], length, map, IfSome};
ghost use Rattle.lb_ticket.specs.Seats.{KeepsList};
ghost use Rattle.lb_ticket.specs.Tickets.{pair};
ghost use Rattle.lb_journal.specs.Journal.{Fits, number_of};
ghost use Rattle.lb_core.specs.declared.entry.Owner.TheVariants as owner;
ghost use Rattle.lb_cell.specs.LastEntries.{IsLast, Quotes, facts_of};
ghost use Rattle.lb_cell.specs.Draws.{counted_at};
ghost use Rattle.lb_end.specs.Drawing.{DrewItem, item_of};

use lb_base::Items;
use lb_core::{Course, Entry, Owner, What};
use lb_course::drew;
use lb_journal::{Journal, Left};
use lb_ticket::{Book, Coding, Note, Seat};
use lb_trace::Header;
use std::alloc::Global;
use std::snapshot::Snapshot;

// A seat learns that the lane's last entry was drawn.
fn learn_last(book: &Book<Journal>, seat: &mut Seat<Journal>, note: &mut Option<Note>)
    requires book { seat.old.table ≡ book.now.table }
    requires note { IfSome note.old (λ n. n.table ≡ book.now.table) }
    ensures seat { KeepsList seat.old seat.new × (seat.new.read ≡ seat.old.read) × (seat.new.fresh ≡ seat.old.fresh) }
    ensures learnt { seat.new.known ≡ seat.old.known ++ facts_of note.old }
    ensures later { seat.old.next ≤ seat.new.next }
{
    let Some(last) = note.take() else {
        return;
    };
    seat.learn(book, last);
}

/// Draws an entry of any owner for lane 0. It quotes the lane's last entry, and is that from now on.
pub(crate) fn draw_noted(
    book: &Book<Journal>,
    seat: &mut Seat<Journal>,
    last: &mut u64,
    note: &mut Option<Note>,
    item: Journal,
)
    requires book { seat.old.table ≡ book.now.table }
    requires spare { 0 < seat.old.spare }
    requires owner { number_of item.entry.owner ≡ seat.old.number }
    requires fits { Fits (map pair seat.old.list) item }
    requires quotes { Quotes book.now.table ⟦<Left as Coding>⟧.coding item last.old note.old }
    ensures { DrewItem book.now.table ⟦<Left as Coding>⟧.coding item seat.old seat.new last.new note.new }
{
    learn_last(book, seat, note);
    let ticket = seat.draw(book, item);
    *note = Some(seat.note(book, ticket));
    *last = ticket;
}

/// Draws an entry of any owner for lane 0, whose course it quotes and leaves.
pub(crate) fn draw(
    alloc: Global,
    header: &Header,
    book: &Book<Journal>,
    owner: Owner,
    seat: &mut Seat<Journal>,
    quoted: Snapshot<Course>,
    course: &Course,
    last: &mut u64,
    note: &mut Option<Note>,
    what: What,
)
    requires book { seat.old.table ≡ book.now.table }
    requires spare { 0 < seat.old.spare }
    requires owner { (number_of owner ≡ seat.old.number) × (number_of owner < 2 ^ 32) }
    requires fits { Fits (map pair seat.old.list) (item_of header.now owner quoted.value course.now last.old what) }
    requires quotes { IsLast book.now.table ⟦<Left as Coding>⟧.coding (length header.now.cpus) 0 quoted.value last.old note.old }
    ensures { DrewItem book.now.table ⟦<Left as Coding>⟧.coding
        (item_of header.now owner quoted.value course.now last.old what) seat.old seat.new last.new note.new }
{
    let masks = Items::new(alloc);
    let figs = Items::new(alloc);
    let entry = Entry {
        owner,
        lane: 0,
        prev: *last,
        what,
    };
    let item = Journal::new(
        entry,
        Snapshot::of(header),
        quoted,
        Snapshot::of(course),
        Snapshot::of(&masks),
        Snapshot::of(&figs),
    );
    draw_noted(book, seat, last, note, item);
}

/// Draws an entry of a queue for lane 0, whose course has made its step but for the number of the entry.
pub(crate) fn enter(
    alloc: Global,
    header: &Header,
    book: &Book<Journal>,
    cpu: u32,
    seat: &mut Seat<Journal>,
    quoted: Snapshot<Course>,
    course: &mut Course,
    last: &mut u64,
    note: &mut Option<Note>,
    what: What,
)
    requires book { seat.old.table ≡ book.now.table }
    requires spare { 0 < seat.old.spare }
    requires owner { (seat.old.number ≡ 17 + cpu) × (17 + cpu < 2 ^ 32) × (cpu < length course.old.named) }
    requires short { length seat.old.list + 1 < 2 ^ 40 }
    requires fits { Fits (map pair seat.old.list) (item_of header.now (owner.Queue cpu) quoted.value
        (counted_at cpu (length seat.old.list + 1) course.old) last.old what) }
    requires quotes { IsLast book.now.table ⟦<Left as Coding>⟧.coding (length header.now.cpus) 0 quoted.value last.old note.old }
    ensures course { course.new ≡ counted_at cpu (length seat.old.list + 1) course.old }
    ensures drew { DrewItem book.now.table ⟦<Left as Coding>⟧.coding
        (item_of header.now (owner.Queue cpu) quoted.value course.new last.old what) seat.old seat.new last.new note.new }
{
    drew(course, cpu, seat.len() + 1);
    let owner = Owner::Queue(cpu);
    draw(
        alloc, header, book, owner, seat, quoted, course, last, note, what,
    );
}
