//! Tasks that leave a queue: by a wake that has to happen elsewhere, and the `out` of any cause.
ghost use Rattle.std.specs.Prelude.{◌≡◌, ◌<◌, ◌+◌, ◌^◌, [], length, OnOk, OnErr};
ghost use Rattle.lb_queue.specs.Tasks.{ids};
ghost use Rattle.lb_queue.specs.declared.answers.OutCause.TheVariants as cause;
ghost use Rattle.lb_core.specs.declared.entry.What.TheVariants as what;
ghost use Rattle.lb_act.specs.Hands.{IsLoaded};
ghost use Rattle.lb_cell.specs.Cells.{CellKeeps, HasRoom, LaneKeeps, cell_of, lane_of};
ghost use Rattle.lb_cell.specs.Draws.{Drew, Keeps};
ghost use Rattle.lb_cell.specs.Hands.{AreFor, HasLeft, WakesElsewhere};

use crate::before::Before;
use crate::cell::Cell;
use crate::lane::Lane;
use crate::lists::HandLists;
use crate::names::Names;
use crate::parts::{CellParts, LaneParts};
use crate::shared::Shared;
use lb_base::NoMemory;
use lb_core::What;
use lb_course::taken_off;
use lb_journal::Left;
use lb_queue::{Hand, OutCause, Taken};
use lb_ticket::Coding;
use lb_trace::Command;
use std::alloc::Global;
use std::sync::Wait;

/// Draws the `out` of tasks that have left a queue in a hand, upon the cell and the lane as they were before. The lists
/// were made for the hand; `taken` is what else is known of a pull.
pub(crate) fn depart<N: Names, R: Wait>(
    rt: &R,
    alloc: Global,
    shared: &Shared<'_, N>,
    before: Before<N>,
    cell: &mut CellParts,
    lane: &mut LaneParts,
    hand: &Hand,
    mut lists: HandLists,
    why: OutCause,
    taken: Option<Taken>,
)
    requires log { cell.old.log ≡ before.cell.log }
    requires lane { lane_of lane.old ≡ before.lane }
    requires room { (cell.old.room < before.cell.log.seat.spare)
        × (length before.cell.log.seat.list + cell.old.room + 1 < 2 ^ 40) }
    requires left { HasLeft N.header before.cell before.lane why taken hand.now cell.old.queue.state }
    requires lists { AreFor (length hand.now.tasks) lists }
    requires few { length hand.now.tasks < 2 ^ 32 }
    ensures cell { CellKeeps N.header N.book N.board (cell_of cell.new) }
    ensures lane { LaneKeeps N.header N.book N.board ⟦<Left as Coding>⟧.coding (lane_of lane.new) }
    ensures drew { Drew N.header before.cell (cell_of cell.new) before.lane (lane_of lane.new)
        (what.Out why hand.now.to (ids hand.now.tasks)) }
    ensures same { (cell.new.queue ≡ cell.old.queue) × (cell.new.room ≡ cell.old.room) }
    ensures loaded { IsLoaded hand.now lane.new.course }
{
    lists.fill(hand);
    let to = hand.to();
    let HandLists {
        records,
        out,
        landing,
    } = lists;
    taken_off(&mut lane.course, why, to, hand.moment(), records, taken);
    lane.landing = landing;
    let what = What::Out {
        cause: why,
        to,
        ids: out,
    };
    before.enter(rt, alloc, shared, cell, lane, what);
}

impl<N: Names> Cell<N> {
    /// The task of the lane's wake leaves for another CPU, by an `out wake`, in a hand that goes there and is empty. Its
    /// landing is booked there. A refusal changes nothing.
    pub fn leave<R: Wait>(
        &mut self,
        rt: &R,
        alloc: Global,
        shared: &Shared<'_, N>,
        lane: &mut Lane<N>,
        hand: &mut Hand,
    ) -> Result<(), NoMemory>
        requires room { HasRoom self.old }
        requires wake { WakesElsewhere self.old.queue.state lane.old.course hand.old.to }
        requires hand { (hand.old.tasks ≡ []) × (0 < hand.old.room) }
        ensures drew { OnOk result
            (Drew N.header self.old self.new lane.old lane.new (what.Out cause.Wake hand.old.to (ids hand.new.tasks))) }
        ensures loaded { OnOk result (IsLoaded hand.new lane.new.course) }
        ensures booked { OnOk result (Keeps self.old self.new) }
        ensures refused { OnErr result ((self.new ≡ self.old) × (lane.new ≡ lane.old) × (hand.new ≡ hand.old)) }
    {
        let Some(Command::Wake { task }) = lane.parts.course.command else {
            unreachable!()
        };
        let lists = HandLists::new(alloc, 1)?;
        let before = Before::of(self, lane);
        self.parts.queue.leave(lane.parts.course.at, task, hand);
        depart(
            rt,
            alloc,
            shared,
            before,
            &mut self.parts,
            &mut lane.parts,
            hand,
            lists,
            OutCause::Wake,
            None,
        );
        Ok(())
    }
}
