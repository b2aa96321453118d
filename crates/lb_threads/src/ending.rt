//! The end of a machine whose lanes have done their rows: the history of it.
ghost use Rattle.std.specs.Prelude.{◌≡◌, IfOk, length};
ghost use Rattle.lb_base.specs.declared.mask.Mask.{Mask};
ghost use Rattle.lb_core.specs.OfTrace.{IsHistoryOf};
ghost use Rattle.lb_end.specs.Ends.{NothingCloses};
ghost use Rattle.lb_end.specs.Finished.{AllRest, Finished};
ghost use Rattle.lb_threads.specs.Lanes.{EachLane, IsDone};
ghost use Rattle.lb_trace.specs.Accepted.{IsTrace};

use lb_base::NoMemory;
use lb_cell::Names;
use lb_core::History;
use lb_cpu::{Cpus, Ended};
use lb_journal::in_order;
use lb_journal::laws::owners_merge;
use lb_lane::{Lane, Versions};
use lb_trace::Trace;
use std::alloc::Global;
use std::sync::Wait;

// The machine, once the entries that close its history were drawn.
fn finished<N: Names, R: Wait>(rt: &R, alloc: Global, ended: Ended<N>) -> Result<Ended<N>, NoMemory>
    requires rest { AllRest ended.courses }
    requires open { NothingCloses ended.seats }
    ensures { IfOk result (λ closed. (unserved : Mask) × Finished N.header ended closed unserved) }
{
    let mut ended = ended;
    ended.finish(rt, alloc)?;
    Ok(ended)
}

/// The history of a machine whose lanes have done their rows. The machine comes out of its locks and draws the entries that
/// close its history; then its book is closed, and the entries of all lists are put in the order of their tickets.
pub(crate) fn history_of<N: Names + Versions, R: Wait>(
    rt: &R,
    alloc: Global,
    trace: &Trace,
    cpus: Cpus<N>,
    lanes: Vec<Lane<N>>,
) -> Result<History, NoMemory>
    requires accepted { IsTrace trace.now }
    requires header { N.header ≡ trace.now.header }
    requires count { length lanes.items ≡ N.header.lanes }
    requires done { EachLane (IsDone trace.now.rows) lanes.items }
    ensures { IfOk result (λ history. IsHistoryOf trace.now history) }
{
    // what the owners keep of their lists makes the entries in the order of their tickets a history of the trace
    owners_merge();
    let ended = cpus.rest(rt, alloc, lanes)?;
    let closed = finished(rt, alloc, ended)?;
    let entries = in_order(alloc, closed.close())?;
    Ok(History {
        header: trace.header.copy(alloc)?,
        entries,
    })
}
