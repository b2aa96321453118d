//! A row is taken up and served whole.
ghost use Rattle.std.specs.Prelude.{◌≡◌, ◌+◌, false, Some, OnOk, slice_get};
ghost use Rattle.lb_core.specs.declared.course.Form.TheVariants as form;
ghost use Rattle.lb_core.specs.Placed.{is_flight};
ghost use Rattle.lb_service.specs.Services.{IsServed, StillDue};

use crate::services::serve;
use lb_base::NoMemory;
use lb_cell::Names;
use lb_cpu::Cpus;
use lb_io::Gate;
use lb_lane::{Lane, Versions};
use lb_trace::Row;
use std::alloc::Global;
use std::sync::Wait;

// The row is taken up and answered.
fn answer_row<N: Names + Versions, R: Wait>(
    rt: &R,
    alloc: Global,
    cpus: &Cpus<N>,
    lane: &mut Lane<N>,
    row: &Row,
) -> Result<(), NoMemory>
    requires rest { lane.old.side.course.form ≡ form.Rest }
    requires next { slice_get lane.old.rows lane.old.side.course.rows ≡ Some row.now }
    ensures serving { OnOk result (StillDue N.header lane.new.side.course) }
    ensures taken_up { OnOk result (lane.new.side.course.rows ≡ lane.old.side.course.rows + 1) }
    ensures same { (lane.new.side.number ≡ lane.old.side.number) × (lane.new.rows ≡ lane.old.rows) }
    ensures empty_handed { is_flight lane.new.side.course.form ≡ false }
{
    cpus.command(rt, alloc, lane, row)?;
    Ok(())
}

/// Takes up the next row of a lane that is at rest, and serves it with all that follows from it, up to rest. It refuses for
/// want of memory alone: then the lane draws nothing more, and no task is in its hand.
pub fn serve_row<N: Names + Versions, R: Wait, G: Gate>(
    rt: &R,
    alloc: Global,
    cpus: &Cpus<N>,
    lane: &mut Lane<N>,
    row: &Row,
    gate: &G,
) -> Result<(), NoMemory>
    requires rest { lane.old.side.course.form ≡ form.Rest }
    requires next { slice_get lane.old.rows lane.old.side.course.rows ≡ Some row.now }
    ensures served { OnOk result (IsServed lane.old lane.new) }
    ensures same { (lane.new.side.number ≡ lane.old.side.number) × (lane.new.rows ≡ lane.old.rows) }
    ensures empty_handed { is_flight lane.new.side.course.form ≡ false }
{
    answer_row(rt, alloc, cpus, lane, row)?;
    serve(rt, alloc, cpus, lane, gate)
}
