//! The tasks of a hand land at a queue.
ghost use Rattle.std.specs.Prelude.{◌≡◌, ◌≤◌, ◌<◌, ◌+◌, ◌-◌, ◌↔◌, not, IsTrue, length};
ghost use Rattle.std.specs.List.{list_all};
ghost use Rattle.lb_queue.specs.Queue.{knows};
ghost use Rattle.lb_queue.specs.Tasks.{ids};
ghost use Rattle.lb_core.specs.declared.course.Form.TheVariants as form;
ghost use Rattle.lb_core.specs.declared.entry.What.TheVariants as what;
ghost use Rattle.lb_core.specs.Asks.{LandingAsks};
ghost use Rattle.lb_cell.specs.Draws.{Drew, IsDueAt};
ghost use Rattle.lb_act.specs.Hands.{IsLoaded};
ghost use Rattle.lb_cell.specs.Hands.{CanLand};

use crate::before::Before;
use crate::cell::Cell;
use crate::lane::Lane;
use crate::names::Names;
use crate::shared::Shared;
use lb_act::arrive;
use lb_base::Items;
use lb_core::What;
use lb_queue::{Hand, Queue, TaskRecord};
use std::alloc::Global;
use std::mem;
use std::sync::Wait;

// Whether a queue knows none of these tasks.
fn knows_none(queue: &Queue, tasks: &[TaskRecord]) -> bool
    ensures { result ≡ list_all (λ t. not (knows queue.now.state t.id)) tasks.now }
{
    tasks.iter().all(|task| !queue.knows(task.id))
}

impl<N: Names> Cell<N> {
    // Whether room for a landing is booked, and the landing of so many tasks.
    fn has_booked(&self, tasks: usize) -> bool
        ensures { IsTrue result ↔ ((0 < self.now.room) × (tasks ≤ self.now.queue.booked)) }
    {
        self.parts.room > 0 && tasks as u64 <= self.parts.queue.booked()
    }

    /// Whether what a landing of the lane's hand asks of this queue holds: room and the landings are booked, the tasks
    /// come to this CPU, and none of them is known here. It takes no memory.
    pub fn can_land(&self, lane: &Lane<N>, hand: &Hand) -> bool
        ensures { IsTrue result ↔ CanLand self.now lane.now.course hand.now }
    {
        let course = &lane.parts.course;
        if !self.has_booked(hand.len()) || course.to != self.cpu() {
            return false;
        }
        knows_none(&self.parts.queue, course.hand.as_slice())
    }

    /// The tasks of the lane's hand land here, by an `in`, for which room and the landings are booked. It has no refusal
    /// and takes no memory: the lane has kept the list of the ids since they left.
    pub fn land<R: Wait>(
        &mut self,
        rt: &R,
        alloc: Global,
        shared: &Shared<'_, N>,
        lane: &mut Lane<N>,
        hand: Hand,
    )
        requires booked { (0 < self.old.room) × (length hand.tasks ≤ self.old.queue.booked) }
        requires due { IsDueAt form.Flight lane.old.course self.old.log.writer.cpu }
        requires hand { IsLoaded hand lane.old.course }
        requires asks { LandingAsks lane.old.course self.old.queue.state }
        ensures drew { Drew N.header self.old self.new lane.old lane.new (what.Landed (ids lane.old.course.hand)) }
        ensures used { (self.new.queue.booked ≡ self.old.queue.booked - length hand.tasks) × (self.new.room + 1 ≡ self.old.room) }
    {
        let before = Before::of(self, lane);
        self.parts.room -= 1;
        arrive(alloc, &mut self.parts.queue, &mut lane.parts.course, hand);
        let ids = mem::replace(&mut lane.parts.landing, Items::new(alloc));
        let what = What::Landed { ids };
        before.enter(rt, alloc, shared, &mut self.parts, &mut lane.parts, what);
    }
}
