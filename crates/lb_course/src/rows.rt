//! The moves of rows: their start, the answer to them, the publication of a version, and the end.
ghost use Rattle.std.specs.Prelude.{◌≡◌, ℕ, Bool, Some, length};
ghost use Rattle.lb_queue.specs.Queue.{QueueState};
ghost use Rattle.lb_core.specs.declared.course.Form.TheVariants as form;
ghost use Rattle.lb_core.specs.CourseAfter.{after_sleep, answered, comes_to_rest};
ghost use Rattle.lb_course.specs.Answers.{WasAwake};

use crate::rest::rest;
use crate::turns::be_due_at;
use lb_base::Kind;
use lb_core::{Course, Form};
use lb_trace::Command;
use std::alloc::Global;

/// The course after a lane has taken up its row `number`, at a moment in nanoseconds.
pub fn asked(course: &mut Course, number: u64, at: u64, command: Command)
    ensures { course.new ≡ record course.old { form = form.Asked; rows = number; at = at; command = Some command } }
{
    course.form = Form::Asked;
    course.rows = number;
    course.at = at;
    course.command = Some(command);
}

/// The course after the queue of `cpu` has answered the row. `was_awake` says whether the row's task was
/// awake there before; `awake` is how many tasks are awake there now.
pub fn answered(alloc: Global, course: &mut Course, cpu: u32, was_awake: bool, awake: u32)
    ensures { (before now : QueueState) → WasAwake course.old.command before was_awake → length now.awake ≡ awake
        → course.new ≡ answered course.old.command cpu before now course.old }
{
    match course.command {
        Some(Command::Sleep { .. } | Command::Exit { .. }) => {
            sleep_answered(alloc, course, cpu, was_awake && awake == 0);
        }
        Some(Command::Tick { .. }) => {
            course.form = Form::Serving;
            course.awake = awake;
        }
        Some(
            Command::Wake { .. }
            | Command::SetMask { .. }
            | Command::Nice { .. }
            | Command::Rebuild { .. },
        )
        | None => rest(alloc, course),
    }
}

// The course after a sleep or an exit that left nobody awake, or did not.
fn sleep_answered(alloc: Global, course: &mut Course, cpu: u32, left_idle: bool)
    ensures { course.new ≡ after_sleep left_idle cpu course.old }
{
    if left_idle {
        be_due_at(course, Kind::Idle, cpu);
    } else {
        rest(alloc, course);
    }
}

/// The course after the publisher has published the row's masks as this version.
pub fn published(alloc: Global, course: &mut Course, version: u64)
    ensures { course.new ≡ record (comes_to_rest course.old) { named_version = version } }
{
    rest(alloc, course);
    course.named_version = version;
}

/// The course of lane 0 after it has ended the history.
pub fn ended(course: &mut Course)
    ensures { course.new ≡ record course.old { form = form.Ended } }
{
    course.form = Form::Ended;
}
