//! All that follows from the answer to a row, up to rest.
ghost use Rattle.std.specs.Prelude.{◌≡◌, false, OnOk};
ghost use Rattle.lb_core.specs.declared.course.Form.TheVariants as form;
ghost use Rattle.lb_core.specs.Placed.{is_flight};
ghost use Rattle.lb_lane_laws.specs.Stays.{SameRows};
ghost use Rattle.lb_service.specs.Services.{StillDue};

use crate::ticks::{serve_kick, serve_scan, serve_tick};
use crate::turns::make_turn;
use lb_base::NoMemory;
use lb_cell::Names;
use lb_core::Form;
use lb_course::turn_kind;
use lb_cpu::Cpus;
use lb_io::Gate;
use lb_lane::{Lane, Versions};
use std::alloc::Global;
use std::sync::Wait;

// The turn of a CPU that has become idle, or was kicked.
fn serve_turn<N: Names + Versions, R: Wait, G: Gate>(
    rt: &R,
    alloc: Global,
    cpus: &Cpus<N>,
    lane: &mut Lane<N>,
    gate: &G,
) -> Result<(), NoMemory>
    requires due { lane.old.side.course.form ≡ form.Due }
    requires serving { StillDue N.header lane.old.side.course }
    ensures serving { OnOk result (StillDue N.header lane.new.side.course) }
    ensures rows { SameRows lane.old lane.new }
    ensures empty_handed { is_flight lane.new.side.course.form ≡ false }
{
    let course = lane.side().course();
    let (cpu, kind) = (course.cpu, turn_kind(course));
    make_turn(rt, alloc, cpus, lane, cpu, kind, gate)
}

// One service, by the form of the lane's course.
fn serve_one<N: Names + Versions, R: Wait, G: Gate>(
    rt: &R,
    alloc: Global,
    cpus: &Cpus<N>,
    lane: &mut Lane<N>,
    gate: &G,
) -> Result<(), NoMemory>
    requires { StillDue N.header lane.old.side.course }
    ensures serving { OnOk result (StillDue N.header lane.new.side.course) }
    ensures rows { SameRows lane.old lane.new }
    ensures empty_handed { is_flight lane.new.side.course.form ≡ false }
{
    match lane.side().course().form {
        Form::Serving => serve_tick(rt, alloc, cpus, lane, gate),
        Form::Due => serve_turn(rt, alloc, cpus, lane, gate),
        Form::ScanDue => serve_scan(rt, alloc, cpus, lane),
        Form::Kicking => serve_kick(rt, alloc, cpus, lane),
        // at rest nothing is due
        _ => Ok(()),
    }
}

/// Serves all that is due, until the lane is at rest. It refuses for want of memory alone; then no task is in the lane's hand.
pub(crate) fn serve<N: Names + Versions, R: Wait, G: Gate>(
    rt: &R,
    alloc: Global,
    cpus: &Cpus<N>,
    lane: &mut Lane<N>,
    gate: &G,
) -> Result<(), NoMemory>
    requires { StillDue N.header lane.old.side.course }
    ensures rest { OnOk result (lane.new.side.course.form ≡ form.Rest) }
    ensures rows { SameRows lane.old lane.new }
    ensures empty_handed { is_flight lane.new.side.course.form ≡ false }
{
    for _ in rt.forever() {
        if lane.side().course().form == Form::Rest {
            return Ok(());
        }
        serve_one(rt, alloc, cpus, lane, gate)?;
    }
    unreachable!()
}
