//! The lanes of a machine, each on a thread of its own.
ghost use Rattle.std.specs.Prelude.{◌≡◌, OnOk, IsTrue, All, length};
ghost use Rattle.lb_threads.specs.Lanes.{EachLane, HasRows, HasServedAll, IsDone, HasReturned, IsReady};

use crate::rows::serve_rows;
use lb_base::NoMemory;
use lb_cell::Names;
use lb_cpu::Cpus;
use lb_io::Gate;
use lb_lane::{Lane, Versions};
use lb_trace::Trace;
use std::alloc::Global;
use std::sync::Wait;
use std::thread;
use std::thread::Threads;

// Whether all lanes are at rest, and have taken up all their rows.
fn all_done<N: Names + Versions>(lanes: &[Lane<N>]) -> bool
    ensures { IsTrue result → All HasServedAll lanes.now }
{
    lanes.iter().all(|lane| lane.is_done())
}

// Each lane serves its rows, on a thread of its own. A lane that is refused memory stops there.
fn serve_each<N: Names + Versions + Send + Sync, R: Threads + Wait + Sync, G: Gate>(
    rt: &R,
    alloc: Global,
    trace: &Trace,
    cpus: &Cpus<N>,
    lanes: &mut [Lane<N>],
    gate: &G,
)
    requires { EachLane (IsReady trace.now.rows) lanes.old }
    ensures count { length lanes.new ≡ length lanes.old }
    ensures rows { EachLane (HasRows trace.now.rows) lanes.new }
{
    let threads = lanes.len().max(1);
    let serve = |_: usize, lane: &mut Lane<N>|
        requires { IsReady trace.now.rows lane.now.side.number lane.now }
        ensures { HasReturned lane.entry.now lane.exit.now }
    {
        let _refused = serve_rows(rt, alloc, trace.rows.as_slice(), cpus, lane, gate).is_err();
    };
    thread::for_each_mut(rt, lanes, threads, &serve);
}

/// Serves the rows of all lanes, each lane on a thread of its own. It refuses for want of memory alone: then a lane may
/// have stopped before its last row.
pub(crate) fn serve_lanes<N: Names + Versions + Send + Sync, R: Threads + Wait + Sync, G: Gate>(
    rt: &R,
    alloc: Global,
    trace: &Trace,
    cpus: &Cpus<N>,
    lanes: &mut [Lane<N>],
    gate: &G,
) -> Result<(), NoMemory>
    requires { EachLane (IsReady trace.now.rows) lanes.old }
    ensures count { length lanes.new ≡ length lanes.old }
    ensures done { OnOk result (EachLane (IsDone trace.now.rows) lanes.new) }
{
    serve_each(rt, alloc, trace, cpus, lanes, gate);
    if all_done(&*lanes) {
        Ok(())
    } else {
        Err(NoMemory)
    }
}
