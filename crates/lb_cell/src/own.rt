//! The entries of a lane's own list.
ghost use Rattle.std.specs.Prelude.{◌≡◌, ◌<◌};
ghost use Rattle.lb_trace.specs.declared.trace.Header.{Header as HeaderIs};
ghost use Rattle.lb_core.specs.Machine.{no_queue};
ghost use Rattle.lb_core.specs.CourseAfter.{course_by};
ghost use Rattle.lb_cell.specs.Cells.{IsInRange, LaneKeeps, lane_of};
ghost use Rattle.lb_cell.specs.Own.{DrewOwn, MayDrawOwn, MayFollow, OwnAsks, own_left, sight_from};

use crate::draw::draw_noted;
use crate::lane::Lane;
use crate::names::Names;
use crate::parts::LaneParts;
use crate::shared::Shared;
use lb_core::{Course, Entry, Figs, Owner, What};
use lb_course::{asked, looked, scanned, taken_up};
use lb_journal::{Journal, Left};
use lb_ticket::Coding;
use lb_trace::{Command, Masks};
use std::alloc::Global;
use std::marker::Model;
use std::snapshot::Snapshot;

/// The lane as it was before an entry of its own. It has no bytes.
#[derive(Drop)]
struct LaneBefore<N: Names> {
    lane: Snapshot<Lane<N>>,
    course: Snapshot<Course>,
}

impl<N: Names> Model for LaneBefore<N> {
    ghost use Rattle.std.specs.Prelude.{◌≡◌};
    ghost use Rattle.lb_cell.specs.Cells.{LaneIs, LaneKeeps};

    ghost Value = { LaneIs };

    ghost view = { λ b. b.lane.value };

    ghost invariant = { λ b.
        LaneKeeps N.header N.book N.board ⟦<Left as Coding>⟧.coding b.lane.value × (b.course.value ≡ b.lane.value.course) };
}

impl<N: Names> LaneBefore<N> {
    /// The lane as it is now.
    fn of(lane: &Lane<N>) -> LaneBefore<N>
        ensures { result ≡ lane.now }
    {
        LaneBefore {
            lane: Snapshot::of(lane),
            course: Snapshot::of(&lane.parts.course),
        }
    }
}

/// Draws an entry of a lane's own list, upon the lane as it was before it, and answers its ticket: its course has made
/// its step. The masks or figures are those that the entry names.
fn enter_own<N: Names>(
    shared: &Shared<'_, N>,
    before: LaneBefore<N>,
    lane: &mut LaneParts,
    what: What,
    masks: Snapshot<Masks>,
    figs: Snapshot<Figs>,
) -> u64
    requires lane { (lane.old.number ≡ before.number) × (lane.old.seat ≡ before.seat) × (lane.old.known ≡ before.known)
        × (lane.old.landing ≡ before.landing) }
    requires spare { 0 < before.seat.spare }
    requires may { MayDrawOwn N.header before what masks.value figs.value }
    requires course { lane.old.course ≡ own_left N.header before what masks.value figs.value }
    requires next { MayFollow N.header lane.old.course }
    ensures lane { LaneKeeps N.header N.book N.board ⟦<Left as Coding>⟧.coding (lane_of lane.new) }
    ensures drew { DrewOwn N.header before (lane_of lane.new) what masks.value figs.value result }
{
    let LaneBefore {
        lane: _,
        course: quoted,
    } = before;
    // as an owner the lane has its seat's number, the next one, so that fits its type
    let _owner = lane.seat.number();
    let entry = Entry {
        owner: Owner::Lane(lane.number),
        lane: lane.number,
        prev: lane.known.ticket,
        what,
    };
    let item = Journal::new(
        entry,
        Snapshot::of(shared.header),
        quoted,
        Snapshot::of(&lane.course),
        masks,
        figs,
    );
    draw_noted(shared.book, &mut lane.seat, &mut lane.known, item)
}

// The course makes the step of an entry that carries these masks or figures. It has its own copy of a row's command.
fn step(
    alloc: Global,
    course: &mut Course,
    what: &What,
    command: Option<Command>,
    masks: Masks,
    figs: Figs,
)
    requires { OwnAsks what.now course.old command }
    ensures { (h : HeaderIs) → course.new ≡ course_by what.now (sight_from h course.old masks figs) 0 no_queue }
{
    match what {
        What::Row { number, at, .. } => {
            if let Some(command) = command {
                asked(course, *number, *at, command);
            }
        }
        What::Adopt { version, kind, cpu } => taken_up(course, *version, masks, *kind, *cpu),
        What::Look {
            figures,
            decision,
            ..
        } => looked(course, figures.as_slice(), figs.as_slice(), *decision),
        What::Scan { figures, target } => {
            scanned(alloc, course, figures.as_slice(), figs, *target);
        }
        _ => unreachable!(),
    }
}

impl<N: Names> Lane<N> {
    /// Draws an entry of the lane's own list, which the lane may draw, and answers its ticket. The entry carries the masks
    /// of a `use`, or the figures of a look or a scan; `command` is a further copy of a row's command, which the course
    /// keeps. There has to be room for it, so it takes no memory.
    pub fn draw(
        &mut self,
        alloc: Global,
        shared: &Shared<'_, N>,
        what: What,
        command: Option<Command>,
        masks: Masks,
        figs: Figs,
    ) -> u64
        requires room { 0 < self.old.seat.spare }
        requires asks { OwnAsks what self.old.course command }
        requires may { MayDrawOwn N.header self.old what masks figs }
        requires range { IsInRange (own_left N.header self.old what masks figs) }
        ensures { DrewOwn N.header self.old self.new what masks figs result }
    {
        let before = LaneBefore::of(self);
        let named_masks = Snapshot::of(&masks);
        let named_figs = Snapshot::of(&figs);
        step(alloc, &mut self.parts.course, &what, command, masks, figs);
        enter_own(
            shared,
            before,
            &mut self.parts,
            what,
            named_masks,
            named_figs,
        )
    }
}
