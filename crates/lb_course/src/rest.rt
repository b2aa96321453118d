//! What a course forgets: its hand, the looks at a position, and its row as the lane comes to rest.
ghost use Rattle.std.specs.Prelude.{◌≡◌};
ghost use Rattle.lb_core.specs.CourseAfter.{lets_go, begins_anew, comes_to_rest};

use lb_base::{Items, Mask};
use lb_core::{Course, Form};
use std::alloc::Global;

// The hand is empty.
pub(crate) fn let_go(alloc: Global, course: &mut Course)
    ensures { course.new ≡ lets_go course.old }
{
    course.cause = None;
    course.to = 0;
    course.moment = 0;
    course.hand = Items::new(alloc);
}

// No CPU is excluded, and no look or take is kept.
pub(crate) fn begin_anew(course: &mut Course)
    ensures { course.new ≡ begins_anew course.old }
{
    course.excluded = Mask::none();
    course.decision = None;
    course.idle = false;
    course.took = 0;
    course.taken = None;
}

// The row is served.
pub(crate) fn rest(alloc: Global, course: &mut Course)
    ensures { course.new ≡ comes_to_rest course.old }
{
    let_go(alloc, course);
    begin_anew(course);
    course.form = Form::Rest;
    course.command = None;
    course.awake = 0;
    course.pushed = false;
    course.figures = Items::new(alloc);
}
