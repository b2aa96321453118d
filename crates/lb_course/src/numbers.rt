//! The greatest numbers of figures that a lane drew or named.
ghost use Rattle.std.specs.Prelude.{◌≡◌, ◌<◌, length, All};
ghost use Rattle.lb_core.specs.declared.entry.Owner.TheVariants.{Queue};
ghost use Rattle.lb_core.specs.CourseAfter.{raised_numbers, drew};

use lb_core::{Course, FigName, Numbers};

// The named numbers are the greatest now.
pub(crate) fn name_all(named: &mut Numbers, figures: &[FigName])
    requires { All (λ f. f.cpu < length named.old) figures.now }
    ensures { named.new ≡ raised_numbers figures.now named.old }
{
    for figure in figures {
        named.set(figure.cpu as usize, figure.n);
    }
}

/// The course after its lane has drawn the entry `number` of a CPU's queue.
pub fn drew(course: &mut Course, cpu: u32, number: u64)
    requires { cpu < length course.old.named }
    ensures { course.new ≡ drew (Queue cpu) number course.old }
{
    course.named.set(cpu as usize, number);
}
