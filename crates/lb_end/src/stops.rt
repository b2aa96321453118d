//! The `out` of a stop request and its `in`, for lane 0, at a queue that is out of its lock; and the end, in its own list.
ghost use Rattle.std.specs.Prelude.{◌≡◌, ◌<◌, ◌≤◌, ◌+◌, ◌-◌, ◌^◌, ◌∷◌, [], None, Some, false, length, map, All};
ghost use Rattle.lb_queue.specs.declared.answers.OutCause.TheVariants as cause;
ghost use Rattle.lb_queue.specs.Hands.{stop_to};
ghost use Rattle.lb_queue.specs.Requests.{next_stop};
ghost use Rattle.lb_queue.specs.Tasks.{ids};
ghost use Rattle.lb_core.specs.declared.course.Form.TheVariants as form;
ghost use Rattle.lb_core.specs.declared.entry.Owner.TheVariants as owner;
ghost use Rattle.lb_core.specs.declared.entry.What.TheVariants as what;
ghost use Rattle.lb_core.specs.Asks.{LandingAsks};
ghost use Rattle.lb_act.specs.Hands.{IsLoaded};
ghost use Rattle.lb_ticket.specs.Tickets.{pair};
ghost use Rattle.lb_journal.specs.Journal.{queue_by_item, replay};
ghost use Rattle.lb_cell.specs.LastEntries.{IsLast};
ghost use Rattle.lb_end.specs.Ends.{IsFirstCourse};
ghost use Rattle.lb_end.specs.Drawing.{DrewItem, item_of};

use crate::drawing::{draw, enter};
use lb_act::{arrive, note_records};
use lb_base::Mask;
use lb_core::{Course, Ids, Owner, TaskRecords, What};
use lb_course::{ended, taken_off};
use lb_journal::{Journal, Left};
use lb_queue::{Hand, OutCause, Queue, Stop};
use lb_ticket::{Book, Coding, Note, Seat};
use lb_trace::Header;
use std::alloc::Global;
use std::snapshot::Snapshot;

/// The task of the queue's next pending stop request leaves in a hand that goes where it does, by an `out stop`. The lists
/// were made for one task.
pub(crate) fn draw_out(
    alloc: Global,
    header: &Header,
    book: &Book<Journal>,
    cpu: u32,
    queue: &mut Queue,
    seat: &mut Seat<Journal>,
    course: &mut Course,
    last: &mut u64,
    note: &mut Option<Note>,
    stop: Stop,
    hand: &mut Hand,
    mut records: TaskRecords,
    out: Ids,
)
    requires book { seat.old.table ≡ book.now.table }
    requires spare { (0 < seat.old.spare) × (length seat.old.list + 1 < 2 ^ 40) }
    requires owner { (seat.old.number ≡ 17 + cpu) × (17 + cpu < 2 ^ 32) }
    requires declared { (0 < header.now.lanes) × (cpu < length header.now.cpus) }
    requires headers { All (λ d. d.item.header ≡ header.now) seat.old.list }
    requires quotes { IsLast book.now.table ⟦<Left as Coding>⟧.coding (length header.now.cpus) 0 course.old last.old note.old }
    requires queue { queue.old.state ≡ replay header.now cpu (map pair seat.old.list) }
    requires course { (course.old.form ≡ form.Rest) × IsFirstCourse header.now course.old }
    requires stop { (next_stop queue.old.state false ≡ Some stop) × (stop_to queue.old.state stop.id ≡ Some hand.old.to)
        × (stop.to ≡ hand.old.to) }
    requires hand { (hand.old.tasks ≡ []) × (0 < hand.old.room) }
    requires lists { (length records ≡ 1) × (out ≡ stop.id ∷ []) }
    ensures drew { DrewItem book.now.table ⟦<Left as Coding>⟧.coding
        (item_of header.now (owner.Queue cpu) course.old course.new last.old (what.Out cause.Stop hand.new.to out))
        seat.old seat.new last.new note.new }
    ensures step { queue.new.state ≡ queue_by_item queue.old.state (length seat.old.list)
        (item_of header.now (owner.Queue cpu) course.old course.new last.old (what.Out cause.Stop hand.new.to out)) }
    ensures booked { queue.new.booked ≡ queue.old.booked }
    ensures course { (course.new.form ≡ form.Flight) × (course.new.cause ≡ Some cause.Stop) × (course.new.command ≡ None)
        × (course.new.decision ≡ None) × IsFirstCourse header.now course.new }
    ensures loaded { IsLoaded hand.new course.new }
    ensures hand { (hand.new.to ≡ hand.old.to) × (ids hand.new.tasks ≡ stop.id ∷ []) }
{
    let quoted = Snapshot::of(course);
    queue.take_stop(course.at, stop.id, hand);
    note_records(&mut records, hand);
    let to = hand.to();
    taken_off(course, OutCause::Stop, to, hand.moment(), records, None);
    let what = What::Out {
        cause: OutCause::Stop,
        to,
        ids: out,
    };
    enter(
        alloc, header, book, cpu, seat, quoted, course, last, note, what,
    );
}

/// The task of lane 0's hand lands at the queue where it goes, by an `in`, and lane 0 is at rest again. The landing is booked.
pub(crate) fn draw_in(
    alloc: Global,
    header: &Header,
    book: &Book<Journal>,
    cpu: u32,
    queue: &mut Queue,
    seat: &mut Seat<Journal>,
    course: &mut Course,
    last: &mut u64,
    note: &mut Option<Note>,
    hand: Hand,
    landing: Ids,
)
    requires book { seat.old.table ≡ book.now.table }
    requires spare { (0 < seat.old.spare) × (length seat.old.list + 1 < 2 ^ 40) }
    requires owner { (seat.old.number ≡ 17 + cpu) × (17 + cpu < 2 ^ 32) }
    requires declared { (0 < header.now.lanes) × (cpu < length header.now.cpus) }
    requires headers { All (λ d. d.item.header ≡ header.now) seat.old.list }
    requires quotes { IsLast book.now.table ⟦<Left as Coding>⟧.coding (length header.now.cpus) 0 course.old last.old note.old }
    requires queue { queue.old.state ≡ replay header.now cpu (map pair seat.old.list) }
    requires course { (course.old.form ≡ form.Flight) × (course.old.cause ≡ Some cause.Stop) × (course.old.command ≡ None)
        × (course.old.decision ≡ None) × IsFirstCourse header.now course.old }
    requires to { course.old.to ≡ cpu }
    requires loaded { IsLoaded hand course.old }
    requires asks { LandingAsks course.old queue.old.state }
    requires booked { length hand.tasks ≤ queue.old.booked }
    requires list { landing ≡ ids course.old.hand }
    ensures drew { DrewItem book.now.table ⟦<Left as Coding>⟧.coding
        (item_of header.now (owner.Queue cpu) course.old course.new last.old (what.Landed landing))
        seat.old seat.new last.new note.new }
    ensures step { queue.new.state ≡ queue_by_item queue.old.state (length seat.old.list)
        (item_of header.now (owner.Queue cpu) course.old course.new last.old (what.Landed landing)) }
    ensures course { (course.new.form ≡ form.Rest) × IsFirstCourse header.now course.new }
{
    let quoted = Snapshot::of(course);
    arrive(alloc, queue, course, hand);
    let what = What::Landed { ids: landing };
    enter(
        alloc, header, book, cpu, seat, quoted, course, last, note, what,
    );
}

/// Lane 0, which is at rest, ends the history with the CPUs whose active request is unserved.
pub(crate) fn draw_end(
    alloc: Global,
    header: &Header,
    book: &Book<Journal>,
    seat: &mut Seat<Journal>,
    course: &mut Course,
    last: &mut u64,
    note: &mut Option<Note>,
    unserved: Mask,
)
    requires book { seat.old.table ≡ book.now.table }
    requires spare { 0 < seat.old.spare }
    requires owner { seat.old.number ≡ 1 }
    requires declared { 0 < header.now.lanes }
    requires headers { All (λ d. d.item.header ≡ header.now) seat.old.list }
    requires quotes { IsLast book.now.table ⟦<Left as Coding>⟧.coding (length header.now.cpus) 0 course.old last.old note.old }
    requires first { last.old ≡ 0 → seat.old.list ≡ [] }
    requires course { (course.old.form ≡ form.Rest) × IsFirstCourse header.now course.old }
    ensures drew { DrewItem book.now.table ⟦<Left as Coding>⟧.coding
        (item_of header.now (owner.Lane 0) course.old course.new last.old (what.End unserved))
        seat.old seat.new last.new note.new }
    ensures course { IsFirstCourse header.now course.new }
{
    let quoted = Snapshot::of(course);
    ended(course);
    let what = What::End { unserved };
    let owner = Owner::Lane(0);
    draw(
        alloc, header, book, owner, seat, quoted, course, last, note, what,
    );
}
