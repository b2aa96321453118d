//! A lane and the publisher draw an entry each, and the closed book gives them by their tickets.
ghost use Rattle.std.specs.Prelude.{◌≡◌, ◌<◌, [], Some, length};
ghost use Rattle.lb_trace.specs.declared.trace.Command.TheVariants.{Rebuild};
ghost use Rattle.lb_core.specs.declared.entry.Owner.TheVariants.{Lane, Publisher};
ghost use Rattle.lb_core.specs.Course.{opening_course};
ghost use Rattle.lb_journal.specs.Journal.{Fits};
ghost use Rattle.lb_thread_tests.specs.Drawing.{asked_course};

use crate::seats::{in_order, two_seats};
use lb_base::Items;
use lb_core::{Course, Entries, Entry, Owner, What};
use lb_course::{asked, opening_course, published};
use lb_journal::{Journal, close_in_order};
use lb_trace::{Command, Header};
use std::alloc::Global;
use std::snapshot::Snapshot;

// The header of a machine of one lane, without CPUs.
fn one_lane(alloc: Global) -> Header
    ensures { (result.lanes ≡ 1) × (result.cpus ≡ []) }
{
    Header {
        cpus: Items::new(alloc),
        distances: Items::new(alloc),
        parts: Items::new(alloc),
        lanes: 1,
        tasks: Items::new(alloc),
    }
}

// A rebuild that leaves all CPUs apart.
fn rebuild(alloc: Global) -> Command
    ensures { result ≡ Rebuild [] }
{
    Command::Rebuild {
        parts: Items::new(alloc),
    }
}

// Lane 0 takes up its first row.
fn row_item(alloc: Global, header: &Header, course: &mut Course) -> Journal
    requires lanes { header.now.lanes ≡ 1 }
    requires course { course.old ≡ opening_course (length header.now.cpus) }
    ensures fits { Fits [] result }
    ensures entry { (result.entry.owner ≡ Lane 0) × (result.entry.lane ≡ 0) × (result.entry.prev ≡ 0) }
    ensures course { (course.new ≡ asked_course (length header.now.cpus)) × (result.after ≡ course.new) }
{
    let before = Snapshot::of(course);
    asked(course, 1, 0, rebuild(alloc));
    let what = What::Row {
        number: 1,
        at: 0,
        command: rebuild(alloc),
    };
    let entry = Entry {
        owner: Owner::Lane(0),
        lane: 0,
        prev: 0,
        what,
    };
    let masks = Items::new(alloc);
    let figs = Items::new(alloc);
    Journal::new(
        entry,
        Snapshot::of(header),
        before,
        Snapshot::of(course),
        Snapshot::of(&masks),
        Snapshot::of(&figs),
    )
}

// The publisher answers it.
fn pub_item(alloc: Global, header: &Header, course: &mut Course, row: u64) -> Journal
    requires lanes { header.now.lanes ≡ 1 }
    requires course { course.old ≡ asked_course (length header.now.cpus) }
    requires row { 0 < row }
    ensures fits { Fits [] result }
    ensures entry { (result.entry.owner ≡ Publisher) × (result.entry.lane ≡ 0) × (result.entry.prev ≡ row) }
    ensures course { result.course ≡ course.old }
{
    let before = Snapshot::of(course);
    published(alloc, course, 2);
    let entry = Entry {
        owner: Owner::Publisher,
        lane: 0,
        prev: row,
        what: What::Pub { version: 2 },
    };
    let masks = Items::new(alloc);
    let figs = Items::new(alloc);
    Journal::new(
        entry,
        Snapshot::of(header),
        before,
        Snapshot::of(course),
        Snapshot::of(&masks),
        Snapshot::of(&figs),
    )
}

#[test]
fn entries_come_by_their_tickets(rt: HostRuntime) {
    let (book, mut of_publisher, mut of_lane) = two_seats(&rt, rt.alloc(), 1);
    let header = one_lane(rt.alloc());
    let Ok(mut course) = opening_course(rt.alloc(), 0) else {
        panic!(rt; "no course")
    };
    let item = row_item(rt.alloc(), &header, &mut course);
    let row = of_lane.draw(&book, item);
    let note = of_lane.note(&book, row);
    of_publisher.learn(&book, note);
    let item = pub_item(rt.alloc(), &header, &mut course, row);
    let answer = of_publisher.draw(&book, item);
    assert!(rt; row == 1 && answer == 2);
    let seats = in_order(&rt, rt.alloc(), of_publisher, of_lane);
    let Ok(entries) = close_in_order(rt.alloc(), book, seats) else {
        panic!(rt; "no room")
    };
    assert!(rt; are_row_and_answer(&entries));
}

// The publisher's list comes first, and its ticket second.
fn are_row_and_answer(entries: &Entries) -> bool {
    match entries.as_slice() {
        [first, second] => first.prev == 0 && second.prev == 1,
        _ => false,
    }
}
