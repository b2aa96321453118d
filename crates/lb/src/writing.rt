//! How a call ends: what was made of its input is written, and its status is reported.
ghost use Rattle.std.specs.Prelude.{◌≡◌, Option, IfOk, IfErr};
ghost use Rattle.lb_words.specs.declared.work.Work.{Work};
ghost use Rattle.lb.specs.Invocation.{Stream, stream_of, invocation_of};
ghost use Rattle.lb.specs.Answers.{FailsCall, WorkHas, Says, IsBeforeWriting, Answers, Completes};

use crate::status::{Status, report};
use lb_io::{Sink, write_all};
use lb_read::laws::texts_read_once;
use std::alloc::Global;

// Writes the text that was made, if one was, and answers how the work ended.
fn put<O: Sink>(made: Result<Vec<u8>, Status>, out: &mut O) -> Status
    ensures says { (asked : Option Work) (source : Stream)
        → IfOk made (λ output. WorkHas asked source output.items) → IfErr made (λ end. FailsCall end asked source)
        → Says result (invocation_of asked source (stream_of O.taken O.faults out.old out.new)) }
    ensures unwritten { IsBeforeWriting result → out.new ≡ out.old }
{
    let output = match made {
        Ok(output) => output,
        Err(status) => return status,
    };
    match write_all(out, &output) {
        Ok(()) => Status::Done,
        Err(_) => Status::WriteFault,
    }
}

/// Ends a call: writes what its work made of its source, or keeps the status with which it failed, and
/// reports how the call ended.
pub fn finish<O: Sink, E: Sink>(
    alloc: Global,
    made: Result<Vec<u8>, Status>,
    out: &mut O,
    err: &mut E,
) -> Status
    ensures answers { (asked : Option Work) (source : Stream)
        → IfOk made (λ output. WorkHas asked source output.items) → IfErr made (λ end. FailsCall end asked source)
        → Answers result (invocation_of asked source (stream_of O.taken O.faults out.old out.new))
        (stream_of E.taken E.faults err.old err.new) }
    ensures completes { (asked : Option Work) (source : Stream)
        → IfOk made (λ output. WorkHas asked source output.items) → IfErr made (λ end. FailsCall end asked source)
        → Completes result (invocation_of asked source (stream_of O.taken O.faults out.old out.new))
        (stream_of E.taken E.faults err.old err.new) }
    ensures unwritten { IsBeforeWriting result → out.new ≡ out.old }
{
    // a text reads as one history, or has one first bad line
    texts_read_once();
    let status = put(made, out);
    report(alloc, status, err)
}
