//! The serial run: row after row, each served to its end (docs/rules/lanes.md), and the history that it makes.
ghost use Rattle.std.specs.Prelude.{IfOk};
ghost use Rattle.lb_trace.specs.Accepted.{IsTrace};
ghost use Rattle.lb_core.specs.Serial.{IsSerialHistory};

use crate::run::Run;
use lb_base::NoMemory;
use lb_core::History;
use lb_ready::laws::{histories_end, serial_runs};
use lb_trace::Trace;
use std::alloc::Global;

// The lane that ends the history.
const CLOSING_LANE: u32 = 0;

/// The serial history of a trace: the rows in file order, each with all that follows it until its lane
/// rests, and the end (docs/rules/lanes.md).
pub fn serial(alloc: Global, trace: &Trace) -> Result<History, NoMemory>
    requires { IsTrace trace.now }
    ensures { IfOk result (λ history. IsSerialHistory trace.now history) }
{
    // there is a serial history, and it is not longer than this
    serial_runs();
    histories_end();
    let mut run = Run::start(alloc, &trace.header)?;
    run.serve_rows(trace)?;
    while !run.state.has_ended() {
        run.draw(CLOSING_LANE, None)?;
    }
    let Run { history, state } = run;
    drop(state);
    Ok(history)
}
