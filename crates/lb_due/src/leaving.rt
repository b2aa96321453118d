//! The tasks that are to leave a queue, and those of a hand.
ghost use Rattle.std.specs.Prelude.{◌≡◌, ℕ, IfOk, Some, false};
ghost use Rattle.lb_queue.specs.Tasks.{ids};
ghost use Rattle.lb_queue.specs.Requests.{next_stop};
ghost use Rattle.lb_core.specs.Leaving.{out_by, stop_out, push_out, pull_out, wake_out};
ghost use Rattle.lb_due.specs.Outs.{out_due};
ghost use Rattle.lb_engine.specs.Asks.{PullAsks};

use crate::turns::env_due;
use lb_act::{picks_of, views_of};
use lb_active::active_pick;
use lb_base::{Items, NoMemory};
use lb_core::{Course, Form, Ids, What};
use lb_detach::Env;
use lb_engine::Engine;
use lb_queue::laws::pulls_follow_picks;
use lb_queue::{OutCause, Queue};
use lb_trace::Command;
use std::alloc::Global;

/// The tasks that are to leave a queue.
#[derive(Drop)]
pub struct Out {
    /// Why they leave.
    pub cause: OutCause,
    /// The CPU that they go to.
    pub to: u32,
    /// Their ids, in the order in which they leave.
    pub ids: Ids,
}

/// What is to leave the queue, if anything is due there.
pub fn out_of_queue(
    alloc: Global,
    engine: &Engine,
    course: &Course,
    queue: &Queue,
) -> Result<Option<Out>, NoMemory>
    requires { PullAsks course.now.form engine.now.machine course.now }
    ensures { IfOk result (λ due. due ≡ out_due (out_by course.now.form engine.now.machine.header course.now queue.now.state)) }
{
    match course.form {
        Form::Rest => stop_due(alloc, queue, false),
        Form::Asked => wake_due(alloc, queue, &course.command),
        Form::Serving => match queue.next_stop(true) {
            Some(_) => stop_due(alloc, queue, true),
            None => push_due(alloc, queue, course.at),
        },
        Form::Looked => match env_due(engine, course) {
            None => Ok(None),
            Some(env) => pull_due(alloc, queue, course.at, &env),
        },
        _ => Ok(None),
    }
}

// The stop that is due.
fn stop_due(alloc: Global, queue: &Queue, owed: bool) -> Result<Option<Out>, NoMemory>
    ensures { IfOk result (λ due. (at : ℕ) → due ≡ out_due (stop_out (next_stop queue.now.state owed) at queue.now.state)) }
{
    match queue.next_stop(owed) {
        None => Ok(None),
        Some(stop) => Ok(Some(Out {
            cause: OutCause::Stop,
            to: stop.to,
            ids: Items::from_slice(alloc, &[stop.id])?,
        })),
    }
}

// The wake that is due elsewhere.
fn wake_due(
    alloc: Global,
    queue: &Queue,
    command: &Option<Command>,
) -> Result<Option<Out>, NoMemory>
    ensures { IfOk result (λ due. (at : ℕ) → due ≡ out_due (wake_out command.now at queue.now.state)) }
{
    let Some(Command::Wake { task }) = command else {
        return Ok(None);
    };
    match queue.away(*task) {
        None => Ok(None),
        Some(to) => Ok(Some(Out {
            cause: OutCause::Wake,
            to,
            ids: Items::from_slice(alloc, &[*task])?,
        })),
    }
}

// The push that is due.
fn push_due(alloc: Global, queue: &Queue, at: u64) -> Result<Option<Out>, NoMemory>
    ensures { IfOk result (λ due. due ≡ out_due (push_out queue.now.state.active at queue.now.state)) }
{
    let Some(to) = queue.active() else {
        return Ok(None);
    };
    let views = views_of(alloc, queue, at)?;
    match active_pick(&views, to) {
        None => Ok(Some(Out {
            cause: OutCause::Push,
            to,
            ids: Items::new(alloc),
        })),
        Some(id) => Ok(Some(Out {
            cause: OutCause::Push,
            to,
            ids: Items::from_slice(alloc, &[id])?,
        })),
    }
}

// The pull that is due.
fn pull_due(alloc: Global, queue: &Queue, at: u64, env: &Env) -> Result<Option<Out>, NoMemory>
    ensures { IfOk result (λ due. due ≡ out_due (pull_out (Some env.now) at queue.now.state)) }
{
    // the tasks that are picked leave
    pulls_follow_picks();
    let picked = picks_of(alloc, queue, at, env)?;
    Ok(Some(Out {
        cause: OutCause::Pull,
        to: env.to,
        ids: Items::from_slice(alloc, &picked.ids)?,
    }))
}

/// The ids of the tasks in the hand, in their order.
pub fn ids_in_hand(alloc: Global, course: &Course) -> Result<Ids, NoMemory>
    ensures { IfOk result (λ list. list ≡ ids course.now.hand) }
{
    let mut list = Items::new(alloc);
    for task in course.hand.as_slice() {
        list.push(task.id)?;
    }
    Ok(list)
}
