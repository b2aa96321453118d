//! A turn of a CPU: it opens, its positions are passed, and it ends.
ghost use Rattle.std.specs.Prelude.{◌≡◌, ◌<◌, true, false, IfOk, MatchBool, OnOk, length};
ghost use Rattle.lb_core.specs.declared.course.Form.TheVariants as form;
ghost use Rattle.lb_core.specs.Placed.{is_flight};
ghost use Rattle.lb_lane.specs.Uses.{use_due};
ghost use Rattle.lb_lane_laws.specs.Stays.{SameRows};
ghost use Rattle.lb_service.specs.Services.{IsAt, StillDue, IsTurning};

use lb_base::{Kind, NoMemory};
use lb_cell::Names;
use lb_core::Form;
use lb_course::turn_kind;
use lb_cpu::Cpus;
use lb_interval::Outcome;
use lb_io::Gate;
use lb_lane::{Began, Lane, Versions};
use lb_pass::pass;
use lb_queue::TurnReply;
use std::alloc::Global;
use std::sync::Wait;

// Passes the position in work, and asks its source for a push where it ends so.
fn pass_position<N: Names + Versions, R: Wait, G: Gate>(
    rt: &R,
    alloc: Global,
    cpus: &Cpus<N>,
    lane: &mut Lane<N>,
    gate: &G,
) -> Result<(), NoMemory>
    requires turning { IsTurning N.header lane.old.side.course }
    requires at { IsAt lane.old.side.course }
    ensures turning { OnOk result (IsTurning N.header lane.new.side.course) }
    ensures rows { SameRows lane.old lane.new }
    ensures empty_handed { is_flight lane.new.side.course.form ≡ false }
{
    let course = lane.side().course();
    let (cpu, position, kind) = (course.cpu, course.position, turn_kind(course));
    let outcome = pass(rt, alloc, cpus, lane, cpu, position, kind, gate)?;
    if outcome == Outcome::Asking {
        cpus.ask(rt, alloc, lane)?;
    }
    Ok(())
}

// Passes the positions of an open turn, in their order.
fn pass_positions<N: Names + Versions, R: Wait, G: Gate>(
    rt: &R,
    alloc: Global,
    cpus: &Cpus<N>,
    lane: &mut Lane<N>,
    gate: &G,
) -> Result<(), NoMemory>
    requires turning { IsTurning N.header lane.old.side.course }
    ensures turning { OnOk result (IsTurning N.header lane.new.side.course) }
    ensures done { OnOk result (lane.new.side.course.form ≡ form.Done) }
    ensures rows { SameRows lane.old lane.new }
    ensures empty_handed { is_flight lane.new.side.course.form ≡ false }
{
    for _ in rt.forever() {
        if lane.side().course().form == Form::Done {
            return Ok(());
        }
        pass_position(rt, alloc, cpus, lane, gate)?;
    }
    unreachable!()
}

// Ends the open turn of a lane that has passed its positions.
fn end_turn<N: Names + Versions, R: Wait>(
    rt: &R,
    alloc: Global,
    cpus: &Cpus<N>,
    lane: &mut Lane<N>,
) -> Result<(), NoMemory>
    requires turning { IsTurning N.header lane.old.side.course }
    requires done { lane.old.side.course.form ≡ form.Done }
    ensures serving { OnOk result (StillDue N.header lane.new.side.course) }
    ensures rows { SameRows lane.old lane.new }
    ensures empty_handed { is_flight lane.new.side.course.form ≡ false }
{
    cpus.over(rt, alloc, lane)?;
    Ok(())
}

// Opens a turn; true where it is open, and false where none is: another is, or a push has to come first.
fn open_turn<N: Names + Versions, R: Wait>(
    rt: &R,
    alloc: Global,
    cpus: &Cpus<N>,
    lane: &mut Lane<N>,
    cpu: u32,
    kind: Kind,
) -> Result<bool, NoMemory>
    requires declared { cpu < length N.header.cpus }
    requires due { use_due lane.old.side.course.form lane.old.side.course kind cpu ≡ true }
    requires serving { StillDue N.header lane.old.side.course }
    ensures began { IfOk result (λ opened. MatchBool opened (IsTurning N.header lane.new.side.course)
        (StillDue N.header lane.new.side.course)) }
    ensures rows { SameRows lane.old lane.new }
    ensures empty_handed { is_flight lane.new.side.course.form ≡ false }
{
    match cpus.turn(rt, alloc, lane, cpu, kind)? {
        Began::Turn(TurnReply::Opened(_)) => Ok(true),
        Began::Turn(TurnReply::TurnOpen) => Ok(false),
        Began::PushFirst(_) => Ok(false),
    }
}

/// Makes a turn of a CPU for which one is due: it is opened, its positions are passed, and it is ended. Nothing of it is
/// drawn where a push has to come first, and only its beginning where another lane's turn is open there. It refuses for want
/// of memory alone; then no task is in the lane's hand.
pub(crate) fn make_turn<N: Names + Versions, R: Wait, G: Gate>(
    rt: &R,
    alloc: Global,
    cpus: &Cpus<N>,
    lane: &mut Lane<N>,
    cpu: u32,
    kind: Kind,
    gate: &G,
) -> Result<(), NoMemory>
    requires declared { cpu < length N.header.cpus }
    requires due { use_due lane.old.side.course.form lane.old.side.course kind cpu ≡ true }
    requires serving { StillDue N.header lane.old.side.course }
    ensures serving { OnOk result (StillDue N.header lane.new.side.course) }
    ensures rows { SameRows lane.old lane.new }
    ensures empty_handed { is_flight lane.new.side.course.form ≡ false }
{
    if open_turn(rt, alloc, cpus, lane, cpu, kind)? {
        pass_positions(rt, alloc, cpus, lane, gate)?;
        end_turn(rt, alloc, cpus, lane)?;
    }
    Ok(())
}
