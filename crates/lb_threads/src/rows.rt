//! The rows of one lane, one after the other.
ghost use Rattle.std.specs.Prelude.{◌≡◌, Some, OnOk, slice_get};
ghost use Rattle.lb_core.specs.declared.course.Form.TheVariants as form;
ghost use Rattle.lb_service.specs.Services.{IsServed};
ghost use Rattle.lb_threads.specs.Lanes.{HasServedAll, HasReturned, IsReady};

use lb_base::NoMemory;
use lb_cell::Names;
use lb_cpu::Cpus;
use lb_io::{Gate, Point};
use lb_lane::{Lane, Versions};
use lb_service::serve_row;
use lb_trace::Row;
use std::alloc::Global;
use std::sync::Wait;

// Serves the lane's next row, between two passes of the gate.
fn serve_next<N: Names + Versions, R: Wait, G: Gate>(
    rt: &R,
    alloc: Global,
    row: &Row,
    cpus: &Cpus<N>,
    lane: &mut Lane<N>,
    gate: &G,
) -> Result<(), NoMemory>
    requires rest { lane.old.side.course.form ≡ form.Rest }
    requires next { slice_get lane.old.rows lane.old.side.course.rows ≡ Some row.now }
    ensures left { HasReturned lane.old lane.new }
    ensures served { OnOk result (IsServed lane.old lane.new) }
{
    let number = lane.side().number();
    gate.pass_here(number, Point::BeforeRow);
    serve_row(rt, alloc, cpus, lane, row, gate)?;
    gate.pass_here(number, Point::AfterRow);
    Ok(())
}

/// Serves the rows of a lane, in file order. It refuses for want of memory alone: then the lane draws nothing more, and no
/// task is in its hand.
pub(crate) fn serve_rows<N: Names + Versions, R: Wait, G: Gate>(
    rt: &R,
    alloc: Global,
    rows: &[Row],
    cpus: &Cpus<N>,
    lane: &mut Lane<N>,
    gate: &G,
) -> Result<(), NoMemory>
    requires { IsReady rows.now lane.old.side.number lane.old }
    ensures left { HasReturned lane.old lane.new }
    ensures done { OnOk result (HasServedAll lane.new) }
{
    let number = lane.side().number();
    for row in rows {
        if row.lane == number {
            serve_next(rt, alloc, row, cpus, lane, gate)?;
        }
    }
    Ok(())
}
