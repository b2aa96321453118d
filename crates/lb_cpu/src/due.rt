//! At which CPU a lane draws its next entry.
ghost use Rattle.std.specs.Prelude.{◌≡◌};
ghost use Rattle.lb_cpu.specs.Turns.{due_at};

use lb_core::Course;
use lb_course::queue_due;

/// The CPU whose queue draws the next entry of a lane, where the course says one.
pub(crate) fn due_at(course: &Course) -> u32
    ensures { result ≡ due_at course.now }
{
    queue_due(course).unwrap_or(0)
}
