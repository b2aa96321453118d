//! The entries that a lane draws at queues in a turn of a CPU: the take of a pull, the close of a position and what it
//! asks for, the end of the turn, and kicks.
ghost use Rattle.std.specs.Prelude.{◌≡◌, ◌≤◌, [], Some, true, length, IfOk, IsSome, OnOk, OnErr};
ghost use Rattle.lb_act.specs.Hands.{IsLoaded};
ghost use Rattle.lb_cell.specs.Cells.{HasRoom};
ghost use Rattle.lb_cell.specs.Draws.{Drew, IsDueAt, Keeps};
ghost use Rattle.lb_cell.specs.Turns.{CanClose, closing};
ghost use Rattle.lb_core.specs.declared.course.Form.TheVariants as form;
ghost use Rattle.lb_core.specs.declared.entry.What.TheVariants as what;
ghost use Rattle.lb_core.specs.Course.{env_of, is_pull, outcome_of, turn_domain};
ghost use Rattle.lb_lane.specs.Own.{SameRest};
ghost use Rattle.lb_queue.specs.declared.answers.OutCause.TheVariants as cause;
ghost use Rattle.lb_queue.specs.Hands.{taken_by};
ghost use Rattle.lb_queue.specs.Requests.{ask_active, kick};
ghost use Rattle.lb_queue.specs.Tasks.{ids};
ghost use Rattle.lb_queue.specs.Turns.{IsOpenAt};

use crate::lane::Lane;
use crate::versions::Versions;
use lb_base::NoMemory;
use lb_cell::laws::{look_sees_more, saw_stays};
use lb_cell::{Cell, Names, Shared};
use lb_detach::{EXAMINED_AT_MOST, Env};
use lb_interval::Outcome;
use lb_queue::{AskReply, Hand, Taken};
use std::alloc::Global;
use std::sync::Wait;

impl<N: Names + Versions> Lane<N> {
    /// Takes from the queue what the lane's last look asks for, as [`Cell::take`] does.
    pub fn take<R: Wait>(
        &mut self,
        rt: &R,
        alloc: Global,
        shared: &Shared<'_, N>,
        cell: &mut Cell<N>,
        env: &Env,
        hand: &mut Hand,
    ) -> Result<Taken, NoMemory>
        requires room { HasRoom cell.old }
        requires due { IsDueAt form.Looked self.old.side.course cell.old.log.writer.cpu }
        requires pull { (is_pull self.old.side.course.decision ≡ true) × (env_of N.header self.old.side.course ≡ Some env.now) }
        requires hand { (hand.old.to ≡ env.now.to) × (hand.old.tasks ≡ []) × (EXAMINED_AT_MOST ≤ hand.old.room) }
        ensures taken { IfOk result (λ t. t ≡ taken_by cell.old.queue.state self.old.side.course.at env.now) }
        ensures drew { OnOk result
            (Drew N.header cell.old cell.new self.old.side self.new.side (what.Out cause.Pull hand.old.to (ids hand.new.tasks))) }
        ensures loaded { OnOk result (IsLoaded hand.new self.new.side.course) }
        ensures booked { OnOk result (Keeps cell.old cell.new) }
        ensures refused { OnErr result ((cell.new ≡ cell.old) × (self.new ≡ self.old) × (hand.new ≡ hand.old)) }
        ensures rest { SameRest self.old self.new }
    {
        // what it saw is seen still
        look_sees_more();
        saw_stays();
        self.side.keeps();
        cell.keeps();
        cell.take(rt, alloc, shared, &mut self.side, env, hand)
    }

    /// Closes the position in work, and answers how it ended, as [`Cell::close`] does. The domains are those that the
    /// lane has.
    pub fn close<R: Wait>(
        &mut self,
        rt: &R,
        alloc: Global,
        shared: &Shared<'_, N>,
        cell: &mut Cell<N>,
    ) -> Outcome
        requires room { HasRoom cell.old }
        requires due { CanClose N.header self.old.side.course cell.old.log.writer.cpu }
        requires open { IsOpenAt cell.old.queue.state.open_turn (turn_domain N.header self.old.side.course).shape.position }
        ensures outcome { result ≡ outcome_of N.header self.old.side.course }
        ensures drew { Drew N.header cell.old cell.new self.old.side self.new.side
            (closing N.header cell.old self.old.side) }
        ensures booked { Keeps cell.old cell.new }
        ensures rest { SameRest self.old self.new }
    {
        // what it saw is seen still
        look_sees_more();
        saw_stays();
        self.side.keeps();
        cell.keeps();
        cell.close(rt, alloc, shared, self.domains.as_slice(), &mut self.side)
    }

    /// Ends the lane's open turn, as [`Cell::over`] does. The domains are those that the lane has.
    pub fn over<R: Wait>(
        &mut self,
        rt: &R,
        alloc: Global,
        shared: &Shared<'_, N>,
        cell: &mut Cell<N>,
    )
        requires room { HasRoom cell.old }
        requires due { IsDueAt form.Done self.old.side.course cell.old.log.writer.cpu }
        requires open { IsSome cell.old.queue.state.open_turn }
        ensures drew { Drew N.header cell.old cell.new self.old.side self.new.side what.Over }
        ensures booked { Keeps cell.old cell.new }
        ensures rest { SameRest self.old self.new }
    {
        // what it saw is seen still
        look_sees_more();
        saw_stays();
        self.side.keeps();
        cell.keeps();
        cell.over(rt, alloc, shared, self.domains.as_slice(), &mut self.side);
    }

    /// Asks the queue, the source of a failed pull, for a push to the turn's CPU, as [`Cell::ask`] does.
    pub fn ask<R: Wait>(
        &mut self,
        rt: &R,
        alloc: Global,
        shared: &Shared<'_, N>,
        cell: &mut Cell<N>,
    ) -> AskReply
        requires room { HasRoom cell.old }
        requires due { IsDueAt form.Closed self.old.side.course cell.old.log.writer.cpu }
        ensures reply { result
            ≡ (ask_active cell.old.queue.state self.old.side.course.at self.old.side.course.cpu).0 }
        ensures drew { Drew N.header cell.old cell.new self.old.side self.new.side (what.Ask result) }
        ensures booked { Keeps cell.old cell.new }
        ensures rest { SameRest self.old self.new }
    {
        // what it saw is seen still
        look_sees_more();
        saw_stays();
        self.side.keeps();
        cell.keeps();
        cell.ask(rt, alloc, shared, &mut self.side)
    }

    /// Kicks the tickless CPU of the queue, as [`Cell::kick`] does.
    pub fn kick<R: Wait>(
        &mut self,
        rt: &R,
        alloc: Global,
        shared: &Shared<'_, N>,
        cell: &mut Cell<N>,
    ) -> AskReply
        requires room { HasRoom cell.old }
        requires due { IsDueAt form.Kicking self.old.side.course cell.old.log.writer.cpu }
        ensures reply { result ≡ (kick cell.old.queue.state self.old.side.course.at).0 }
        ensures drew { Drew N.header cell.old cell.new self.old.side self.new.side (what.Kick result) }
        ensures booked { Keeps cell.old cell.new }
        ensures rest { SameRest self.old self.new }
    {
        // what it saw is seen still
        look_sees_more();
        saw_stays();
        self.side.keeps();
        cell.keeps();
        cell.kick(rt, alloc, shared, &mut self.side)
    }
}
