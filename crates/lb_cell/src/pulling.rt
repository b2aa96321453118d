//! The take of a pull: the entry `out pull` at the source, whose tasks come into the hand of the lane.
ghost use Rattle.std.specs.Prelude.{◌≡◌, ◌≤◌, [], Some, true, IfOk, OnOk, OnErr};
ghost use Rattle.lb_queue.specs.Hands.{taken_by};
ghost use Rattle.lb_queue.specs.Tasks.{ids};
ghost use Rattle.lb_queue.specs.declared.answers.OutCause.TheVariants as cause;
ghost use Rattle.lb_core.specs.declared.course.Form.TheVariants as form;
ghost use Rattle.lb_core.specs.declared.entry.What.TheVariants as what;
ghost use Rattle.lb_core.specs.Course.{env_of, is_pull};
ghost use Rattle.lb_cell.specs.Cells.{HasRoom};
ghost use Rattle.lb_cell.specs.Draws.{Drew, IsDueAt, Keeps};
ghost use Rattle.lb_act.specs.Hands.{IsLoaded};

use crate::before::Before;
use crate::cell::Cell;
use crate::lane::Lane;
use crate::leaving::depart;
use crate::lists::HandLists;
use crate::names::Names;
use crate::shared::Shared;
use lb_act::picks_of;
use lb_base::NoMemory;
use lb_detach::{EXAMINED_AT_MOST, Env};
use lb_queue::laws::pulls_follow_picks;
use lb_queue::{Hand, OutCause, Taken};
use std::alloc::Global;
use std::sync::Wait;

impl<N: Names> Cell<N> {
    /// Takes from this queue, the source of the lane's last look, what that look asks for, by an `out pull`, in a hand
    /// that goes to the turn's CPU, is empty and has room for a whole pull; as many landings are booked there. It
    /// answers what is known of the take. A refusal changes nothing.
    ///
    /// The tasks are examined once more before, so that their number is known, and nothing is refused once they have
    /// left.
    pub fn take<R: Wait>(
        &mut self,
        rt: &R,
        alloc: Global,
        shared: &Shared<'_, N>,
        lane: &mut Lane<N>,
        env: &Env,
        hand: &mut Hand,
    ) -> Result<Taken, NoMemory>
        requires room { HasRoom self.old }
        requires due { IsDueAt form.Looked lane.old.course self.old.log.writer.cpu }
        requires pull { (is_pull lane.old.course.decision ≡ true) × (env_of N.header lane.old.course ≡ Some env.now) }
        requires hand { (hand.old.to ≡ env.now.to) × (hand.old.tasks ≡ []) × (EXAMINED_AT_MOST ≤ hand.old.room) }
        ensures taken { IfOk result (λ t. t ≡ taken_by self.old.queue.state lane.old.course.at env.now) }
        ensures drew { OnOk result
            (Drew N.header self.old self.new lane.old lane.new (what.Out cause.Pull hand.old.to (ids hand.new.tasks))) }
        ensures loaded { OnOk result (IsLoaded hand.new lane.new.course) }
        ensures booked { OnOk result (Keeps self.old self.new) }
        ensures refused { OnErr result ((self.new ≡ self.old) × (lane.new ≡ lane.old) × (hand.new ≡ hand.old)) }
    {
        // what is picked leaves
        pulls_follow_picks();
        let at = lane.parts.course.at;
        let mut picked = picks_of(alloc, &self.parts.queue, at, env)?;
        let lists = HandLists::new(alloc, picked.ids.len())?;
        let before = Before::of(self, lane);
        let taken = self.parts.queue.take(at, env, &mut picked, hand);
        depart(
            rt,
            alloc,
            shared,
            before,
            &mut self.parts,
            &mut lane.parts,
            hand,
            lists,
            OutCause::Pull,
            Some(taken),
        );
        Ok(taken)
    }
}
