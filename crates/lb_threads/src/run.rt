//! The life of a machine, from a trace to a history of it.
ghost use Rattle.std.specs.Prelude.{◌≡◌, IfOk, map};
ghost use Rattle.std.specs.List.{range_with_len};
ghost use Rattle.lb_core.specs.OfTrace.{IsHistoryOf, of_lane};
ghost use Rattle.lb_trace.specs.Accepted.{IsTrace};

use crate::ending::history_of;
use crate::lanes::serve_lanes;
use lb_base::NoMemory;
use lb_cell::Names;
use lb_core::History;
use lb_cpu::{Blank, Cpus};
use lb_io::Gate;
use lb_lane::Versions;
use lb_trace::Trace;
use std::alloc::Global;
use std::marker::Brand;
use std::sync::Wait;
use std::thread::Threads;

// The same, of a machine before any entry, which the names are of.
fn run_blank<N: Names + Versions + Send + Sync, R: Threads + Wait + Sync, G: Gate>(
    rt: &R,
    alloc: Global,
    trace: &Trace,
    gate: &G,
    blank: Blank,
) -> Result<History, NoMemory>
    requires accepted { IsTrace trace.now }
    requires header { (N.header ≡ trace.now.header) × (blank.header ≡ N.header) }
    requires names { (blank.book ≡ N.book) × (blank.board ≡ N.board) × (blank.versions ≡ N.versions) }
    requires rows { blank.rows ≡ map (λ lane. of_lane lane trace.now.rows) (range_with_len 0 trace.now.header.lanes) }
    ensures { IfOk result (λ history. IsHistoryOf trace.now history) }
{
    let (cpus, mut lanes) = Cpus::<N>::start(alloc, blank)?;
    serve_lanes(rt, alloc, trace, &cpus, &mut lanes, gate)?;
    history_of(rt, alloc, trace, cpus, lanes)
}

/// Runs the machine of a trace, each lane on a thread of its own, and answers a legal history of it: it has the trace's
/// header, keeps all rules of a legal history, and holds each lane's rows once, in file order. Which of the histories it
/// is depends on the order in which the lanes come to the queues. A lane passes the gate before each row and after it, and
/// on its way through a turn. It refuses for want of memory alone.
pub fn run_lanes<R: Threads + Wait + Sync, G: Gate>(
    rt: &R,
    alloc: Global,
    trace: &Trace,
    gate: &G,
) -> Result<History, NoMemory>
    requires { IsTrace trace.now }
    ensures { IfOk result (λ history. IsHistoryOf trace.now history) }
{
    let blank = Blank::new(rt, alloc, trace)?;
    run_blank::<Brand, R, G>(rt, alloc, trace, gate, blank)
}
