//! The entries that a lane draws at queues for its row: the answer, and tasks that leave and land.
ghost use Rattle.std.specs.Prelude.{◌≡◌, ◌≤◌, ◌<◌, ◌+◌, ◌-◌, ◌++◌, ◌↔◌, [], Some, length, map, IsTrue, OnOk, OnErr};
ghost use Rattle.lb_act.specs.Hands.{IsLoaded};
ghost use Rattle.lb_cell.specs.Cells.{HasRoom};
ghost use Rattle.lb_cell.specs.Commands.{CanAnswer};
ghost use Rattle.lb_cell.specs.Draws.{Drew, IsDueAt, Keeps};
ghost use Rattle.lb_cell.specs.Hands.{CanLand, WakesElsewhere};
ghost use Rattle.lb_cell.specs.Serving.{out_cause, out_target};
ghost use Rattle.lb_core.specs.declared.course.Form.TheVariants as form;
ghost use Rattle.lb_core.specs.declared.entry.What.TheVariants as what;
ghost use Rattle.lb_core.specs.Asks.{LandingAsks};
ghost use Rattle.lb_core.specs.QueueAfter.{answer_to};
ghost use Rattle.lb_cell.specs.Reads.{SameBut};
ghost use Rattle.lb_lane.specs.Own.{SameRest};
ghost use Rattle.lb_queue.specs.declared.answers.OutCause.TheVariants as cause;
ghost use Rattle.lb_queue.specs.Tasks.{ids};
ghost use Rattle.lb_ticket.specs.Facts.{held_of};
ghost use Rattle.lb_ticket.specs.Tickets.{AllBelow};

use crate::lane::Lane;
use crate::versions::Versions;
use lb_base::NoMemory;
use lb_cell::laws::{look_sees_more, saw_stays};
use lb_cell::{Cell, Names, Shared};
use lb_journal::Journal;
use lb_journal::laws::uses_stay;
use lb_queue::{Hand, Reply};
use lb_ticket::Coding;
use std::alloc::Global;
use std::sync::Wait;

impl<N: Names + Versions> Lane<N> {
    /// Reads all that the queue has drawn, which stands in the closed lists: each further ticket of the lane is above it.
    pub fn follow(&mut self, shared: &Shared<'_, N>, cell: &mut Cell<N>)
        ensures cell { cell.new ≡ cell.old }
        ensures same { SameBut self.old.side self.new.side }
        ensures read { self.new.side.seat.read
            ≡ self.old.side.seat.read ++ map (held_of ⟦<Journal as Coding>⟧.coding) cell.old.log.seat.list }
        ensures below { AllBelow self.new.side.seat.next cell.old.log.seat.list }
        ensures later { self.old.side.seat.next ≤ self.new.side.seat.next }
        ensures rest { SameRest self.old self.new }
    {
        // what it saw is seen still, and what it read it has read still
        saw_stays();
        uses_stay();
        self.side.follow_queue(shared, cell);
    }

    /// The queue answers the command of the lane's row, as [`Cell::answer`] does.
    pub fn answer<R: Wait>(
        &mut self,
        rt: &R,
        alloc: Global,
        shared: &Shared<'_, N>,
        cell: &mut Cell<N>,
    ) -> Reply
        requires room { HasRoom cell.old }
        requires asked { CanAnswer cell.old.queue.state cell.old.log.writer.cpu self.old.side.course }
        ensures reply { result ≡ (answer_to self.old.side.course.command self.old.side.course.at cell.old.queue.state).0 }
        ensures drew { Drew N.header cell.old cell.new self.old.side self.new.side (what.Did result) }
        ensures booked { Keeps cell.old cell.new }
        ensures rest { SameRest self.old self.new }
    {
        // what it saw is seen still
        look_sees_more();
        saw_stays();
        self.side.keeps();
        cell.keeps();
        cell.answer(rt, alloc, shared, &mut self.side)
    }

    /// The task of the lane's wake leaves the queue for another CPU, as by [`Cell::leave`].
    pub fn leave<R: Wait>(
        &mut self,
        rt: &R,
        alloc: Global,
        shared: &Shared<'_, N>,
        cell: &mut Cell<N>,
        hand: &mut Hand,
    ) -> Result<(), NoMemory>
        requires room { HasRoom cell.old }
        requires wake { WakesElsewhere cell.old.queue.state self.old.side.course hand.old.to }
        requires hand { (hand.old.tasks ≡ []) × (0 < hand.old.room) }
        ensures drew { OnOk result
            (Drew N.header cell.old cell.new self.old.side self.new.side (what.Out cause.Wake hand.old.to (ids hand.new.tasks))) }
        ensures loaded { OnOk result (IsLoaded hand.new self.new.side.course) }
        ensures booked { OnOk result (Keeps cell.old cell.new) }
        ensures refused { OnErr result ((cell.new ≡ cell.old) × (self.new ≡ self.old) × (hand.new ≡ hand.old)) }
        ensures rest { SameRest self.old self.new }
    {
        // what it saw is seen still
        look_sees_more();
        saw_stays();
        self.side.keeps();
        cell.keeps();
        cell.leave(rt, alloc, shared, &mut self.side, hand)
    }

    /// Where the tasks go that are due to leave the queue at the tick which the lane serves; None exactly where none is
    /// due.
    pub fn out_due(&self, cell: &Cell<N>) -> Option<u32>
        ensures { result ≡ out_target self.now.side.course cell.now.queue.state }
    {
        cell.out_due(&self.side)
    }

    /// The tasks that are due leave the queue, as by [`Cell::serve`].
    pub fn serve<R: Wait>(
        &mut self,
        rt: &R,
        alloc: Global,
        shared: &Shared<'_, N>,
        cell: &mut Cell<N>,
        hand: &mut Hand,
    ) -> Result<(), NoMemory>
        requires room { HasRoom cell.old }
        requires due { IsDueAt form.Serving self.old.side.course cell.old.log.writer.cpu }
        requires target { out_target self.old.side.course cell.old.queue.state ≡ Some hand.old.to }
        requires hand { (hand.old.tasks ≡ []) × (0 < hand.old.room) }
        ensures drew { OnOk result (Drew N.header cell.old cell.new self.old.side self.new.side
            (what.Out (out_cause cell.old.queue.state) hand.old.to (ids hand.new.tasks))) }
        ensures loaded { OnOk result (IsLoaded hand.new self.new.side.course) }
        ensures booked { OnOk result (Keeps cell.old cell.new) }
        ensures refused { OnErr result ((cell.new ≡ cell.old) × (self.new ≡ self.old) × (hand.new ≡ hand.old)) }
        ensures rest { SameRest self.old self.new }
    {
        // what it saw is seen still
        look_sees_more();
        saw_stays();
        self.side.keeps();
        cell.keeps();
        cell.serve(rt, alloc, shared, &mut self.side, hand)
    }

    /// Whether what a landing of the lane's hand asks of the queue holds.
    pub fn can_land(&self, cell: &Cell<N>, hand: &Hand) -> bool
        ensures { IsTrue result ↔ CanLand cell.now self.now.side.course hand.now }
    {
        cell.can_land(&self.side, hand)
    }

    /// The tasks of the lane's hand land at the queue, as by [`Cell::land`].
    pub fn land<R: Wait>(
        &mut self,
        rt: &R,
        alloc: Global,
        shared: &Shared<'_, N>,
        cell: &mut Cell<N>,
        hand: Hand,
    )
        requires booked { (0 < cell.old.room) × (length hand.tasks ≤ cell.old.queue.booked) }
        requires due { IsDueAt form.Flight self.old.side.course cell.old.log.writer.cpu }
        requires hand { IsLoaded hand self.old.side.course }
        requires asks { LandingAsks self.old.side.course cell.old.queue.state }
        ensures drew { Drew N.header cell.old cell.new self.old.side self.new.side (what.Landed (ids self.old.side.course.hand)) }
        ensures used { (cell.new.queue.booked ≡ cell.old.queue.booked - length hand.tasks) × (cell.new.room + 1 ≡ cell.old.room) }
        ensures rest { SameRest self.old self.new }
    {
        // what it saw is seen still
        look_sees_more();
        saw_stays();
        self.side.keeps();
        cell.keeps();
        cell.land(rt, alloc, shared, &mut self.side, hand);
    }
}
