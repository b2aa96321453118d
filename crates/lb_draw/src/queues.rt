//! What the queues draw next: answers, tasks that leave and land, and turns.
ghost use Rattle.std.specs.Prelude.{◌≡◌, ◌<◌, IfOk, length};
ghost use Rattle.lb_core.specs.declared.course.Form.TheVariants as form;
ghost use Rattle.lb_core.specs.declared.history.TheConstants.{MAX_TICKET};
ghost use Rattle.lb_core.specs.Leaving.{out_by};
ghost use Rattle.lb_core.specs.Machine.{queue_at};
ghost use Rattle.lb_due.specs.Replies.{AnswersAt};
ghost use Rattle.lb_engine.specs.Asks.{HasPosition, HasTurn, PullAsks};
ghost use Rattle.lb_ready.specs.Calls.{TurnAsks};
ghost use Rattle.lb_ready.specs.Next.{bare, close_of, out_of, what_by};
ghost use Rattle.lb_ready.specs.Ready.{IsReady, Names};

use lb_base::{Kind, NoMemory};
use lb_core::{Course, What};
use lb_course::{is_pull, is_rebuild, ticked_cpu};
use lb_due::{
    counters_due, first_pending, has_owed, leaves_instead, out_of_queue, push_is_due, reply_due,
    turn_due, unserved, word_due,
};
use lb_engine::Engine;
use lb_queue::TurnReply;
use std::alloc::Global;

// The tasks that are to leave the queue of a CPU.
fn out(alloc: Global, engine: &Engine, course: &Course, cpu: u32) -> Result<What, NoMemory>
    requires turn { PullAsks course.now.form engine.now.machine course.now }
    requires there { cpu < length engine.now.machine.queues }
    ensures { IfOk result (λ what.
        what ≡ out_of (out_by course.now.form engine.now.machine.header course.now (queue_at engine.now.machine.queues cpu))) }
{
    match out_of_queue(alloc, engine, course, engine.queue(cpu))? {
        None => Ok(What::Over),
        Some(due) => Ok(What::Out {
            cause: due.cause,
            to: due.to,
            ids: due.ids,
        }),
    }
}

/// At rest, without a row: a pending stop, or the end.
pub(crate) fn closing(
    alloc: Global,
    engine: &Engine,
    course: &Course,
    cpu: u32,
) -> Result<What, NoMemory>
    requires ready { IsReady engine.now.machine }
    requires rest { course.now.form ≡ form.Rest }
    requires there { cpu < length engine.now.machine.queues }
    ensures { IfOk result (λ what. what ≡ what_by form.Rest engine.now.machine course.now (queue_at engine.now.machine.queues cpu)) }
{
    if first_pending(engine).is_some() {
        return out(alloc, engine, course, cpu);
    }
    Ok(What::End {
        unserved: unserved(engine),
    })
}

/// The answer to the command in service, or the tasks that leave instead.
pub(crate) fn answer(
    alloc: Global,
    engine: &Engine,
    course: &Course,
    cpu: u32,
) -> Result<What, NoMemory>
    requires ready { IsReady engine.now.machine }
    requires few { engine.now.machine.ticket < MAX_TICKET }
    requires asked { course.now.form ≡ form.Asked }
    requires names { Names engine.now.machine.header course.now.command }
    requires there { cpu < length engine.now.machine.queues }
    requires answers { AnswersAt course.now.command engine.now.machine cpu }
    ensures { IfOk result (λ what. what ≡ what_by form.Asked engine.now.machine course.now (queue_at engine.now.machine.queues cpu)) }
{
    if is_rebuild(&course.command) {
        return Ok(What::Pub {
            version: engine.version() + 1,
        });
    }
    if leaves_instead(&course.command, engine.queue(cpu)) {
        return out(alloc, engine, course, cpu);
    }
    Ok(What::Did {
        reply: reply_due(engine, &course.command),
    })
}

/// After a tick: the owed stops, the push, and then the turn.
pub(crate) fn serving(
    alloc: Global,
    engine: &Engine,
    course: &Course,
    cpu: u32,
) -> Result<What, NoMemory>
    requires serving { course.now.form ≡ form.Serving }
    requires there { cpu < length engine.now.machine.queues }
    ensures { IfOk result (λ what. what ≡ what_by form.Serving engine.now.machine course.now (queue_at engine.now.machine.queues cpu)) }
{
    let queue = engine.queue(cpu);
    if has_owed(queue) || push_is_due(course, queue) {
        return out(alloc, engine, course, cpu);
    }
    Ok(What::Adopt {
        version: engine.version(),
        kind: Kind::Tick,
        cpu: ticked_cpu(&course.command).unwrap_or(0),
    })
}

/// The turn opens, or is shut.
#[tactic(auto, unfolding(lb_queue::specs::Turns::opens))]
pub(crate) fn opening(engine: &Engine, course: &Course, cpu: u32) -> What
    requires there { cpu < length engine.now.machine.queues }
    requires turn { HasTurn engine.now.machine course.now }
    requires asks { TurnAsks (bare engine.now.machine course.now (queue_at engine.now.machine.queues cpu)) }
    ensures { result ≡ what_by form.Used engine.now.machine course.now (queue_at engine.now.machine.queues cpu) }
{
    match turn_due(engine, course, engine.queue(cpu)) {
        TurnReply::Opened(positions) => What::Turn { positions },
        TurnReply::TurnOpen => What::Shut,
    }
}

/// After a look: the take, or the close.
pub(crate) fn looked(
    alloc: Global,
    engine: &Engine,
    course: &Course,
    cpu: u32,
) -> Result<What, NoMemory>
    requires looked { course.now.form ≡ form.Looked }
    requires there { cpu < length engine.now.machine.queues }
    requires position { HasPosition engine.now.machine course.now }
    ensures { IfOk result (λ what. what ≡ what_by form.Looked engine.now.machine course.now (queue_at engine.now.machine.queues cpu)) }
{
    if is_pull(course.decision) {
        out(alloc, engine, course, cpu)
    } else {
        Ok(close(engine, course, cpu))
    }
}

/// The close of the position in work.
pub(crate) fn close(engine: &Engine, course: &Course, cpu: u32) -> What
    requires there { cpu < length engine.now.machine.queues }
    requires position { HasPosition engine.now.machine course.now }
    ensures { result ≡ close_of engine.now.machine course.now (queue_at engine.now.machine.queues cpu) }
{
    let counters = counters_due(engine, course, engine.queue(cpu));
    What::Close {
        position: course.position,
        outcome: word_due(engine, course),
        interval: counters.interval,
        failures: counters.failures,
    }
}
