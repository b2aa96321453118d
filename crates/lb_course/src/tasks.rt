//! The moves of tasks that leave a queue and land at another.
ghost use Rattle.std.specs.Prelude.{◌≡◌, ◌<◌, ◌^◌, length};
ghost use Rattle.lb_base.specs.declared.mask.TheConstants.{MAX_CPUS};
ghost use Rattle.lb_queue.specs.Queue.{QueueState};
ghost use Rattle.lb_core.specs.Course.{source_of};
ghost use Rattle.lb_core.specs.CourseAfter.{takes_off, excluding, lands};
ghost use Rattle.lb_core.specs.Leaving.{leaving_by};
ghost use Rattle.lb_core.specs.QueueAfter.{cause_of};

use crate::readers::{cause_of, is_all_pinned, is_tick, source_of};
use crate::rest::{let_go, rest};
use lb_base::Mask;
use lb_core::{Course, Form, TaskRecords};
use lb_queue::{OutCause, Taken};
use std::alloc::Global;

/// The course after the tasks of `hand` have left a queue, whose clock stands at `moment` (nanoseconds), for
/// the CPU `to`. `taken` is what else is known of a pull.
pub fn taken_off(
    course: &mut Course,
    cause: OutCause,
    to: u32,
    moment: u64,
    hand: TaskRecords,
    taken: Option<Taken>,
)
    requires { length hand < 2 ^ 32 }
    ensures { (rest : QueueState) → rest.clock ≡ moment
        → course.new ≡ takes_off (leaving_by cause to taken (hand, rest)) course.old }
{
    course.form = Form::Flight;
    course.cause = Some(cause);
    course.to = to;
    course.moment = moment;
    if cause == OutCause::Pull {
        course.took = hand.len() as u32;
        course.taken = taken;
    }
    course.hand = hand;
    course.pushed = course.pushed || cause == OutCause::Push;
}

/// The course after the tasks of its hand have landed.
pub fn landed(alloc: Global, course: &mut Course)
    requires { source_of course.old.decision < MAX_CPUS }
    ensures { course.new ≡ lands (cause_of course.old) course.old }
{
    match cause_of(course) {
        OutCause::Pull => {
            let excluded = excluding(course);
            let_go(alloc, course);
            course.form = Form::Landed;
            course.excluded = excluded;
        }
        OutCause::Wake | OutCause::Stop | OutCause::Push => {
            if is_tick(&course.command) {
                let_go(alloc, course);
                course.form = Form::Serving;
            } else {
                rest(alloc, course);
            }
        }
    }
}

// The CPUs that are left out after a take.
fn excluding(course: &Course) -> Mask
    requires { source_of course.now.decision < MAX_CPUS }
    ensures { result ≡ excluding course.now }
{
    if is_all_pinned(course) {
        course.excluded.or(Mask::one(source_of(course.decision)))
    } else {
        course.excluded
    }
}
