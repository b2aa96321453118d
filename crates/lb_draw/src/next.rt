//! The serial entry that a lane draws next, by the form of its course (docs/rules/lanes.md).
ghost use Rattle.std.specs.Prelude.{◌≡◌, ◌<◌, IfOk, IfSome, Option, false, true, length};
ghost use Rattle.std.specs.Option.{option_map};
ghost use Rattle.lb_core.specs.declared.course.Form.TheVariants as form;
ghost use Rattle.lb_core.specs.declared.entry.Entry.{Entry};
ghost use Rattle.lb_core.specs.declared.history.TheConstants.{MAX_TICKET};
ghost use Rattle.lb_core.specs.Elsewhere.{is_rest};
ghost use Rattle.lb_core.specs.Machine.{course_at};
ghost use Rattle.lb_ready.specs.Next.{IsSerialNext, at_rest, cpu_next, drawn, is_answerable, may_take, next_entry, next_in, owner_of, what_next};
ghost use Rattle.lb_draw.specs.Dues.{entry_due};
ghost use Rattle.lb_ready.specs.Ready.{IsReady};
ghost use Rattle.lb_trace.specs.declared.trace.Row.{Row};

use crate::looks::{landed, look, scan};
use crate::owners::{cpu_next, is_answerable, owner_of};
use crate::queues::{answer, closing, looked, opening, serving};
use lb_base::NoMemory;
use lb_core::{Course, Entry, Form, Owner, What};
use lb_course::turn_kind;
use lb_due::{all_rest, ask_due, ids_in_hand, is_undeclared, kick_due, ticked_elsewhere};
use lb_engine::Engine;
use lb_ready::laws::{calls_may_be_made, next_entries};
use lb_trace::Row;
use std::alloc::Global;

/// The entry that a lane draws next with the newest version and figures. A lane at rest takes up the given
/// row, whose number is then the next of the lane; without one, lane 0 serves the pending stops, one entry
/// after the other, and then ends the history. None where the lane has to wait for others or has nothing to
/// draw, or the history has ended (docs/rules/lanes.md). It changes nothing.
///
/// What is drawn may be added, and no other entry of the lane that is as new may be.
pub fn next_entry(
    alloc: Global,
    engine: &Engine,
    lane: u32,
    row: Option<&Row>,
) -> Result<Option<Entry>, NoMemory>
    requires ready { IsReady engine.now.machine }
    requires few { engine.now.machine.ticket < MAX_TICKET }
    requires lane { lane < length engine.now.machine.courses }
    requires own { IfSome row (λ r. r.now.lane ≡ lane) }
    ensures value { IfOk result (λ drawn. drawn ≡ next_entry engine.now.machine lane (option_map (λ r. r.now) row.entry)) }
    ensures drawn { IfOk result (λ drawn. IfSome drawn (λ e. IsSerialNext engine.now.machine lane (option_map (λ r. r.now) row.entry) e)) }
    ensures all { IfOk result (λ drawn. (e : Entry) → IsSerialNext engine.now.machine lane (option_map (λ r. r.now) row.entry) e → drawn ≡ Some e) }
{
    // what comes next by its definition is the one serial entry
    next_entries();
    next_of(alloc, engine, lane, row)
}

// What comes next.
fn next_of(
    alloc: Global,
    engine: &Engine,
    lane: u32,
    row: Option<&Row>,
) -> Result<Option<Entry>, NoMemory>
    requires ready { IsReady engine.now.machine }
    requires few { engine.now.machine.ticket < MAX_TICKET }
    requires lane { lane < length engine.now.machine.courses }
    ensures { IfOk result (λ drawn. drawn ≡ next_entry engine.now.machine lane (option_map (λ r. r.now) row.entry)) }
{
    if engine.has_ended() {
        return Ok(None);
    }
    match engine.course(lane).form {
        Form::Rest => match row {
            Some(row) => taking(alloc, engine, lane, row),
            None => ending(alloc, engine, lane),
        },
        _ => at_work(alloc, engine, lane),
    }
}

// A lane at rest takes up a row.
fn taking(alloc: Global, engine: &Engine, lane: u32, row: &Row) -> Result<Option<Entry>, NoMemory>
    requires ready { IsReady engine.now.machine }
    requires few { engine.now.machine.ticket < MAX_TICKET }
    requires lane { lane < length engine.now.machine.courses }
    ensures { IfOk result (λ drawn. drawn ≡ at_rest (Some row.now) engine.now.machine lane (course_at engine.now.machine.courses lane)) }
{
    if !may_take(engine, lane, row) {
        return Ok(None);
    }
    Ok(Some(Entry {
        owner: Owner::Lane(lane),
        lane,
        prev: engine.last(lane),
        what: What::Row {
            number: engine.course(lane).rows + 1,
            at: row.at,
            command: row.command.copy(alloc)?,
        },
    }))
}

// Whether the lane may take up the row.
fn may_take(engine: &Engine, lane: u32, row: &Row) -> bool
    requires ready { IsReady engine.now.machine }
    requires lane { lane < length engine.now.machine.courses }
    ensures { result ≡ may_take engine.now.machine lane (course_at engine.now.machine.courses lane) row.now }
{
    if engine.is_closing() || !all_rest(engine) {
        return false;
    }
    if is_undeclared(engine, &row.command) {
        return false;
    }
    !ticked_elsewhere(engine, lane, &row.command)
}

// Lane 0 at rest goes on closing the history.
fn ending(alloc: Global, engine: &Engine, lane: u32) -> Result<Option<Entry>, NoMemory>
    requires ready { IsReady engine.now.machine }
    requires few { engine.now.machine.ticket < MAX_TICKET }
    requires live { engine.now.machine.ended ≡ false }
    requires lane { lane < length engine.now.machine.courses }
    requires rest { (course_at engine.now.machine.courses lane).form ≡ form.Rest }
    ensures { IfOk result (λ drawn. drawn ≡ at_rest None engine.now.machine lane (course_at engine.now.machine.courses lane)) }
{
    if lane != 0 || !all_rest(engine) {
        return Ok(None);
    }
    Ok(Some(entry_due(alloc, engine, lane)?))
}

// A lane that serves its row goes on.
fn at_work(alloc: Global, engine: &Engine, lane: u32) -> Result<Option<Entry>, NoMemory>
    requires ready { IsReady engine.now.machine }
    requires few { engine.now.machine.ticket < MAX_TICKET }
    requires live { engine.now.machine.ended ≡ false }
    requires lane { lane < length engine.now.machine.courses }
    requires busy { is_rest (course_at engine.now.machine.courses lane).form ≡ false }
    ensures { IfOk result (λ drawn. (row : Option Row) →
        drawn ≡ next_in (course_at engine.now.machine.courses lane).form row engine.now.machine lane (course_at engine.now.machine.courses lane)) }
{
    let course = engine.course(lane);
    if course.form == Form::Asked && !is_answerable(engine, &course.command) {
        return Ok(None);
    }
    Ok(Some(entry_due(alloc, engine, lane)?))
}

// The entry that the form of the lane's course draws.
fn entry_due(alloc: Global, engine: &Engine, lane: u32) -> Result<Entry, NoMemory>
    requires ready { IsReady engine.now.machine }
    requires few { engine.now.machine.ticket < MAX_TICKET }
    requires live { engine.now.machine.ended ≡ false }
    requires lane { lane < length engine.now.machine.courses }
    requires answerable { (course_at engine.now.machine.courses lane).form ≡ form.Asked
        → is_answerable (course_at engine.now.machine.courses lane).command engine.now.machine ≡ true }
    ensures { IfOk result (λ e.
        e ≡ entry_due (course_at engine.now.machine.courses lane).form engine.now.machine lane (course_at engine.now.machine.courses lane)) }
{
    let course = engine.course(lane);
    let cpu = cpu_next(engine, course);
    let what = what_next(alloc, engine, lane, course, cpu)?;
    Ok(Entry {
        owner: owner_of(&what, lane, cpu),
        lane,
        prev: engine.last(lane),
        what,
    })
}

// What the form of the lane's course says next, where this CPU's queue is the one that draws.
fn what_next(
    alloc: Global,
    engine: &Engine,
    lane: u32,
    course: &Course,
    cpu: u32,
) -> Result<What, NoMemory>
    requires ready { IsReady engine.now.machine }
    requires few { engine.now.machine.ticket < MAX_TICKET }
    requires live { engine.now.machine.ended ≡ false }
    requires lane { lane < length engine.now.machine.courses }
    requires course { course.now ≡ course_at engine.now.machine.courses lane }
    requires cpu { cpu ≡ cpu_next course.now.form engine.now.machine course.now }
    requires answerable { course.now.form ≡ form.Asked → is_answerable course.now.command engine.now.machine ≡ true }
    ensures { IfOk result (λ what. what ≡ what_next course.now.form engine.now.machine course.now) }
{
    // what comes next may be added, and so the calls for it be made
    next_entries();
    calls_may_be_made();
    match course.form {
        Form::Rest => closing(alloc, engine, course, cpu),
        Form::Asked => answer(alloc, engine, course, cpu),
        Form::Flight => Ok(What::Landed {
            ids: ids_in_hand(alloc, course)?,
        }),
        Form::Serving => serving(alloc, engine, course, cpu),
        Form::Due => Ok(What::Adopt {
            version: engine.version(),
            kind: turn_kind(course),
            cpu: course.cpu,
        }),
        Form::Used => Ok(opening(engine, course, cpu)),
        Form::Position => look(alloc, engine, course),
        Form::Looked => looked(alloc, engine, course, cpu),
        Form::Landed => landed(alloc, engine, course, cpu),
        Form::Closed => Ok(What::Ask {
            reply: ask_due(engine.queue(cpu)),
        }),
        Form::Done | Form::Ended => Ok(What::Over),
        Form::ScanDue => scan(alloc, engine, course),
        Form::Kicking => Ok(What::Kick {
            reply: kick_due(engine.queue(cpu)),
        }),
    }
}
