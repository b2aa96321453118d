//! The entry of a queue that has made its step, for a lane whose course has made its own.
ghost use Rattle.std.specs.Prelude.{◌≡◌, ◌<◌, ◌+◌, ◌^◌, true, length, map};
ghost use Rattle.lb_base.specs.declared.mask.TheConstants.{MAX_CPUS};
ghost use Rattle.lb_queue.specs.Tasks.{ids};
ghost use Rattle.lb_core.specs.QueueAfter.{queue_by};
ghost use Rattle.lb_core.specs.CourseAfter.{course_by};
ghost use Rattle.lb_ticket.specs.Tickets.{pair};
ghost use Rattle.lb_journal.specs.Journal.{Fits, queue_by_item, replay};
ghost use Rattle.lb_cell.specs.Kinds.{is_out};
ghost use Rattle.lb_cell.specs.Cells.{CellKeeps, LaneKeeps, cell_of, lane_of};
ghost use Rattle.lb_cell.specs.Draws.{Drew, MayDraw, counted_at, course_left, item_at, queue_left, sight_at};

use crate::before::Before;
use crate::draw::draw_at;
use crate::known::Known;
use crate::names::Names;
use crate::parts::{CellParts, LaneParts};
use crate::shared::Shared;
use lb_base::Items;
use lb_core::{Course, Entry, Owner, What};
use lb_course::drew;
use lb_journal::{Journal, Left};
use lb_ticket::Coding;
use std::alloc::Global;
use std::snapshot::Snapshot;
use std::sync::Wait;

// The item of an entry: the course counts it as its lane's greatest number at the queue, and with that is what the
// entry leaves.
fn item_of<N: Names>(
    alloc: Global,
    shared: &Shared<'_, N>,
    before: Before<N>,
    cell: &CellParts,
    number: u32,
    course: &mut Course,
    known: &Known,
    what: What,
) -> Journal
    requires log { cell.now.log ≡ before.cell.log }
    requires lane { (number ≡ before.lane.number) × (known.now ≡ before.lane.known) }
    requires may { MayDraw N.header before.cell before.lane what }
    requires queue { cell.now.queue.state ≡ queue_by what (sight_at N.header before.cell before.lane) before.lane.number }
    requires course { course.old
        ≡ course_by what (sight_at N.header before.cell before.lane) before.cell.log.writer.cpu cell.now.queue.state }
    ensures cell { CellKeeps N.header N.book N.board before.cell }
    ensures lane { LaneKeeps N.header N.book N.board ⟦<Left as Coding>⟧.coding before.lane }
    ensures shared { (shared.now.book ≡ N.book) × (shared.now.board ≡ N.board) }
    ensures small { before.cell.log.writer.cpu < MAX_CPUS }
    ensures item { result ≡ item_at N.header before.cell before.lane what }
    ensures fits { Fits (map pair cell.now.log.seat.list) result }
    ensures step { cell.now.queue.state
        ≡ queue_by_item (replay result.header cell.now.log.writer.cpu (map pair cell.now.log.seat.list))
        (length cell.now.log.seat.list) result }
    ensures queue { cell.now.queue.state ≡ queue_left N.header before.cell before.lane what }
    ensures course { course.new ≡ course_left N.header before.cell before.lane what }
    ensures counted { course.new ≡ counted_at cell.now.log.writer.cpu (length cell.now.log.seat.list + 1) course.old }
{
    let Before {
        cell: _,
        lane: _,
        course: quoted,
    } = before;
    let cpu = cell.log.writer.cpu();
    drew(course, cpu, cell.log.seat.len() + 1);
    let masks = Items::new(alloc);
    let figs = Items::new(alloc);
    let entry = Entry {
        owner: Owner::Queue(cpu),
        lane: number,
        prev: known.ticket,
        what,
    };
    Journal::new(
        entry,
        Snapshot::of(shared.header),
        quoted,
        Snapshot::of(course),
        Snapshot::of(&masks),
        Snapshot::of(&figs),
    )
}

impl<N: Names> Before<N> {
    /// Draws the entry of a queue for a lane, upon the cell and the lane as they were before it. The queue has made its
    /// step, and the course its own, but for the number of the entry; the cell's room is what is booked after it.
    pub(crate) fn enter<R: Wait>(
        self,
        rt: &R,
        alloc: Global,
        shared: &Shared<'_, N>,
        cell: &mut CellParts,
        lane: &mut LaneParts,
        what: What,
    )
        requires log { cell.old.log ≡ self.cell.log }
        requires room { (cell.old.room < self.cell.log.seat.spare)
            × (length self.cell.log.seat.list + cell.old.room + 1 < 2 ^ 40) }
        requires lane { (lane.old.number ≡ self.lane.number) × (lane.old.known ≡ self.lane.known)
            × (lane.old.seat ≡ self.lane.seat) }
        requires may { MayDraw N.header self.cell self.lane what }
        requires queue { cell.old.queue.state ≡ queue_by what (sight_at N.header self.cell self.lane) self.lane.number }
        requires course { lane.old.course
            ≡ course_by what (sight_at N.header self.cell self.lane) self.cell.log.writer.cpu cell.old.queue.state }
        requires landing { is_out what ≡ true → lane.old.landing ≡ ids lane.old.course.hand }
        ensures cell { CellKeeps N.header N.book N.board (cell_of cell.new) }
        ensures lane { LaneKeeps N.header N.book N.board ⟦<Left as Coding>⟧.coding (lane_of lane.new) }
        ensures drew { Drew N.header self.cell (cell_of cell.new) self.lane (lane_of lane.new) what }
        ensures same { (cell.new.queue ≡ cell.old.queue) × (cell.new.room ≡ cell.old.room) }
        ensures counted { lane.new.course
            ≡ counted_at cell.old.log.writer.cpu (length cell.old.log.seat.list + 1) lane.old.course }
    {
        let item = item_of(
            alloc,
            shared,
            self,
            cell,
            lane.number,
            &mut lane.course,
            &lane.known,
            what,
        );
        draw_at(
            rt,
            shared.book,
            shared.board,
            &cell.queue,
            &mut cell.log,
            &mut lane.known,
            item,
        );
    }
}
