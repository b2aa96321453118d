//! What a lane reads of the figures: looks and scans.
ghost use Rattle.std.specs.Prelude.{◌≡◌, ◌<◌, IfOk, length};
ghost use Rattle.lb_core.specs.declared.course.Form.TheVariants as form;
ghost use Rattle.lb_core.specs.Machine.{queue_at};
ghost use Rattle.lb_engine.specs.Asks.{HasPosition, HasTurn};
ghost use Rattle.lb_due.specs.Turns.{named_sight};
ghost use Rattle.lb_ready.specs.Calls.{DecideAsks};
ghost use Rattle.lb_ready.specs.Next.{look_over, newest_due, scan_over, what_by};
ghost use Rattle.lb_ready.specs.Ready.{IsReady};
ghost use Rattle.lb_turn.specs.Turns.{HasDue};
ghost use Rattle.lb_core.specs.Course.{looks_again};
ghost use Rattle.std.specs.Prelude.{true};

use crate::queues::close;
use lb_base::NoMemory;
use lb_core::{Course, FigNames, What};
use lb_due::{decision_among, figures_due, looks_again, newest, target_among};
use lb_engine::Engine;
use std::alloc::Global;

// The names of the last figures that are due.
fn newest_due(alloc: Global, engine: &Engine, course: &Course) -> Result<FigNames, NoMemory>
    requires ready { IsReady engine.now.machine }
    requires turn { HasTurn engine.now.machine course.now }
    requires due { HasDue course.now.form engine.now.machine.header course.now }
    ensures { IfOk result (λ names. names ≡ newest_due course.now.form engine.now.machine course.now) }
{
    newest(alloc, engine, figures_due(engine, course))
}

/// A look at the last figures of the domain in work, which decides once.
pub(crate) fn look(alloc: Global, engine: &Engine, course: &Course) -> Result<What, NoMemory>
    requires ready { IsReady engine.now.machine }
    requires position { HasPosition engine.now.machine course.now }
    requires due { HasDue course.now.form engine.now.machine.header course.now }
    requires asks { DecideAsks (named_sight engine.now.machine course.now (newest_due course.now.form engine.now.machine course.now)) }
    ensures { IfOk result (λ what.
        what ≡ look_over engine.now.machine course.now (newest_due course.now.form engine.now.machine course.now)) }
{
    let figures = newest_due(alloc, engine, course)?;
    let decision = decision_among(engine, course, figures.as_slice());
    Ok(What::Look {
        position: course.position,
        excluded: course.excluded,
        figures,
        decision,
    })
}

/// After a take: a further look, or the close.
pub(crate) fn landed(
    alloc: Global,
    engine: &Engine,
    course: &Course,
    cpu: u32,
) -> Result<What, NoMemory>
    requires ready { IsReady engine.now.machine }
    requires landed { course.now.form ≡ form.Landed }
    requires there { cpu < length engine.now.machine.queues }
    requires position { HasPosition engine.now.machine course.now }
    requires asks { looks_again engine.now.machine.header course.now ≡ true
        → DecideAsks (named_sight engine.now.machine course.now (newest_due form.Landed engine.now.machine course.now)) }
    ensures { IfOk result (λ what. what ≡ what_by form.Landed engine.now.machine course.now (queue_at engine.now.machine.queues cpu)) }
{
    if looks_again(engine, course) {
        look(alloc, engine, course)
    } else {
        Ok(close(engine, course, cpu))
    }
}

/// A scan of the last figures of the widest domain.
pub(crate) fn scan(alloc: Global, engine: &Engine, course: &Course) -> Result<What, NoMemory>
    requires ready { IsReady engine.now.machine }
    requires scan { course.now.form ≡ form.ScanDue }
    requires turn { HasTurn engine.now.machine course.now }
    requires due { HasDue form.ScanDue engine.now.machine.header course.now }
    ensures { IfOk result (λ what. what ≡ scan_over engine.now.machine (newest_due form.ScanDue engine.now.machine course.now)) }
{
    let figures = newest_due(alloc, engine, course)?;
    let target = target_among(engine, figures.as_slice());
    Ok(What::Scan { figures, target })
}
