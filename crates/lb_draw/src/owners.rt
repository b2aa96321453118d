//! Whose the next entry of a lane is, and whether its command may be answered.
ghost use Rattle.std.specs.Prelude.{◌≡◌, ◌<◌};
ghost use Rattle.lb_core.specs.Course.{task_of};
ghost use Rattle.lb_ready.specs.Ready.{IsReady, Names};
ghost use Rattle.lb_ready.specs.Next.{cpu_next, cpu_of_task, cpu_open, is_answerable, owner_of};

use lb_core::{Course, Form, Owner, What};
use lb_course::{is_rebuild, queue_due, task_of, ticked_cpu};
use lb_due::{cpu_of_place, first_pending, has_owed};
use lb_engine::Engine;
use lb_trace::Command;

// The CPU where the task of a command is; None where there is none, or a lane has it in its hand.
fn cpu_of_task(engine: &Engine, command: &Option<Command>) -> Option<u32>
    requires ready { IsReady engine.now.machine }
    requires names { Names engine.now.machine.header command.now }
    ensures { result ≡ cpu_of_task (task_of command.now) engine.now.machine }
{
    match task_of(command) {
        None => None,
        Some(task) => cpu_of_place(engine.place(task)),
    }
}

// The queue that a course leaves open.
fn cpu_open(engine: &Engine, course: &Course) -> Option<u32>
    requires ready { IsReady engine.now.machine }
    requires names { Names engine.now.machine.header course.now.command }
    ensures { result ≡ cpu_open course.now.form engine.now.machine course.now }
{
    match course.form {
        Form::Rest => first_pending(engine),
        _ => cpu_of_task(engine, &course.command),
    }
}

/// The CPU whose queue draws next, where a queue does.
pub(crate) fn cpu_next(engine: &Engine, course: &Course) -> u32
    requires ready { IsReady engine.now.machine }
    requires names { Names engine.now.machine.header course.now.command }
    ensures { result ≡ cpu_next course.now.form engine.now.machine course.now }
{
    match queue_due(course) {
        Some(cpu) => cpu,
        None => cpu_open(engine, course).unwrap_or(0),
    }
}

/// Whose an entry is: the lane's, the publisher's, or that of the queue of the CPU.
pub(crate) fn owner_of(what: &What, lane: u32, cpu: u32) -> Owner
    ensures { result ≡ owner_of what.now lane cpu }
{
    match what {
        What::Row { .. }
        | What::Adopt { .. }
        | What::Look { .. }
        | What::Scan { .. }
        | What::End { .. } => Owner::Lane(lane),
        What::Pub { .. } => Owner::Publisher,
        What::Did { .. }
        | What::Out { .. }
        | What::Landed { .. }
        | What::Turn { .. }
        | What::Shut
        | What::Close { .. }
        | What::Ask { .. }
        | What::Kick { .. }
        | What::Over => Owner::Queue(cpu),
    }
}

/// Whether a command may be answered now: its task is at a queue, or no stop is owed from an earlier tick.
pub(crate) fn is_answerable(engine: &Engine, command: &Option<Command>) -> bool
    requires ready { IsReady engine.now.machine }
    requires names { Names engine.now.machine.header command.now }
    ensures { result ≡ is_answerable command.now engine.now.machine }
{
    if is_rebuild(command) || cpu_of_task(engine, command).is_some() {
        return true;
    }
    match ticked_cpu(command) {
        None => false,
        Some(cpu) => !has_owed(engine.queue(cpu)),
    }
}
