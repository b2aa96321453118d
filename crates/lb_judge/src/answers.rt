//! The rules `place`, `reply` and `owed`: where a command is answered, what is replied, and that no tick
//! passes an owed stop over.
ghost use Rattle.std.specs.Prelude.{◌≡◌, false};
ghost use Rattle.lb_core.specs.declared.rule.Rule.TheVariants as rule;
ghost use Rattle.lb_core.specs.Course.{task_of};
ghost use Rattle.lb_core.specs.Elsewhere.{task_elsewhere};
ghost use Rattle.lb_core.specs.Step.{breaks};
ghost use Rattle.lb_ready.specs.Ready.{IsReady, Names};

use crate::rows::is_next;
use lb_base::Kind;
use lb_core::{Course, Entry, Form, Owner, What};
use lb_course::{is_tick, task_of};
use lb_due::{
    ask_due, cpu_of_place, first_pending, has_owed, kick_due, leaves_instead, queue_of, reply_due,
};
use lb_engine::Engine;
use lb_queue::Reply;

/// Whether the entry breaks the rule `place`.
pub(crate) fn breaks_place(engine: &Engine, entry: &Entry) -> bool
    requires ready { IsReady engine.now.machine }
    requires stage { breaks engine.now.machine entry.now rule.Stage ≡ false }
    ensures { result ≡ breaks engine.now.machine entry.now rule.Place }
{
    match &entry.what {
        What::Did { .. } | What::Out { .. } => {
            let course = engine.course(entry.lane);
            course.form == Form::Asked && is_elsewhere(engine, course, entry.owner)
        }
        _ => false,
    }
}

// Whether the task of the command in service is not at the owner's queue.
fn is_elsewhere(engine: &Engine, course: &Course, owner: Owner) -> bool
    requires ready { IsReady engine.now.machine }
    requires names { Names engine.now.machine.header course.now.command }
    ensures { result ≡ task_elsewhere (task_of course.now.command) engine.now.machine owner }
{
    match task_of(&course.command) {
        None => false,
        Some(task) => match cpu_of_place(engine.place(task)) {
            None => true,
            Some(cpu) => owner != Owner::Queue(cpu),
        },
    }
}

/// Whether the entry breaks the rule `reply`.
#[tactic(auto, unfolding(lb_core::specs::Machine::sight))]
pub(crate) fn breaks_reply(engine: &Engine, entry: &Entry) -> bool
    requires ready { IsReady engine.now.machine }
    requires stage { breaks engine.now.machine entry.now rule.Stage ≡ false }
    requires place { breaks engine.now.machine entry.now rule.Place ≡ false }
    ensures { result ≡ breaks engine.now.machine entry.now rule.Reply }
{
    let course = engine.course(entry.lane);
    match &entry.what {
        What::Did { reply } => {
            leaves_instead(&course.command, queue_of(engine, entry.owner))
                || *reply == Reply::NotHere
                || *reply != reply_due(engine, &course.command)
        }
        What::Turn { .. } => queue_of(engine, entry.owner).open_turn().is_some(),
        What::Shut => queue_of(engine, entry.owner).open_turn().is_none(),
        What::Ask { reply } => *reply != ask_due(queue_of(engine, entry.owner)),
        What::Kick { reply } => *reply != kick_due(queue_of(engine, entry.owner)),
        What::Pub { version } => !is_next(*version, engine.version()),
        _ => false,
    }
}

/// Whether the entry breaks the rule `owed`.
#[tactic(auto, unfolding(lb_core::specs::Machine::sight))]
pub(crate) fn breaks_owed(engine: &Engine, entry: &Entry) -> bool
    requires ready { IsReady engine.now.machine }
    requires stage { breaks engine.now.machine entry.now rule.Stage ≡ false }
    ensures { result ≡ breaks engine.now.machine entry.now rule.Owed }
{
    match &entry.what {
        What::Did { .. } => {
            is_tick(&engine.course(entry.lane).command) && has_owed(queue_of(engine, entry.owner))
        }
        What::Adopt {
            version: _,
            kind,
            cpu,
        } => *kind == Kind::Tick && has_owed(engine.queue(*cpu)),
        What::End { .. } => first_pending(engine).is_some(),
        _ => false,
    }
}
