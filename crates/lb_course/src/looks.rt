//! The moves of looks, scans and kicks.
ghost use Rattle.std.specs.Prelude.{◌≡◌, ◌<◌, length, not, Some, All};
ghost use Rattle.lb_base.specs.declared.mask.TheConstants.{MAX_CPUS};
ghost use Rattle.lb_imbalance.specs.Destination.{is_busy};
ghost use Rattle.lb_core.specs.declared.course.Form.TheVariants as form;
ghost use Rattle.lb_core.specs.Course.{turn_kind};
ghost use Rattle.lb_core.specs.Sight.{by_cpu};
ghost use Rattle.lb_core.specs.CourseAfter.{raised_numbers, scanned, kicked};

use crate::figures::{by_cpu, target_of};
use crate::numbers::name_all;
use crate::readers::turn_kind;
use crate::rest::rest;
use crate::turns::kick_next;
use lb_core::{Course, CpuFig, FigName, Figs, Form};
use lb_imbalance::{Decision, busy};
use lb_queue::AskReply;
use std::alloc::Global;

/// The course after a look at the position in work: the figures of these names were `figs`, and led to the
/// decision.
pub fn looked(course: &mut Course, figures: &[FigName], figs: &[CpuFig], decision: Decision)
    requires cpu { course.old.cpu < MAX_CPUS }
    requires named { All (λ f. f.cpu < length course.old.named) figures.now }
    ensures { course.new ≡ record course.old {
      form = form.Looked;
      decision = Some decision;
      idle = not (is_busy (turn_kind course.old) (by_cpu figs.now) course.old.cpu);
      named = raised_numbers figures.now course.old.named;
    } }
{
    course.form = Form::Looked;
    course.decision = Some(decision);
    course.idle = !busy(turn_kind(course), &by_cpu(figs), course.cpu);
    name_all(&mut course.named, figures);
}

/// The course after a scan: the figures of these names were `figs`, and led to the target of a kick, or to
/// none.
pub fn scanned(
    alloc: Global,
    course: &mut Course,
    figures: &[FigName],
    figs: Figs,
    target: Option<u32>,
)
    requires { All (λ f. f.cpu < length course.old.named) figures.now }
    ensures { course.new ≡ scanned target (record course.old { figures = figs; named = raised_numbers figures.now course.old.named }) }
{
    course.figures = figs;
    name_all(&mut course.named, figures);
    match target {
        None => rest(alloc, course),
        Some(_) => course.form = Form::Kicking,
    }
}

/// The course after the target of a scan was kicked: where that is new, the first of the tickless CPUs has
/// its turn.
pub fn kicked(alloc: Global, course: &mut Course, reply: AskReply)
    ensures { course.new ≡ kicked reply course.old }
{
    match reply {
        AskReply::New => {
            let target = target_of(course);
            kick_next(alloc, course, target);
        }
        AskReply::Old => rest(alloc, course),
    }
}
