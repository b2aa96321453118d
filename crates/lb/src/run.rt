//! What threads do: the history that the lanes of a trace make, each on a thread of its own.
ghost use Rattle.std.specs.Prelude.{◌≡◌, Some, IfOk, IfErr};
ghost use Rattle.lb_trace.specs.Accepted.{IsTrace};
ghost use Rattle.lb_words.specs.declared.work.Work.TheVariants.{Run};
ghost use Rattle.lb.specs.Invocation.{stream_of, invocation_of};
ghost use Rattle.lb.specs.Works.{IsHistoryText};
ghost use Rattle.lb.specs.Answers.{FailsCall, WorkHas, IsBeforeWriting, Answers, Completes};
ghost use Rattle.lb.specs.Headline.{HeadlineOfRun};

use crate::laws::histories_are_sound;
use crate::reading::input_of;
use crate::status::Status;
use crate::works::trace_in;
use crate::writing::finish;
use lb_base::NoMemory;
use lb_io::{Gate, Sink, Source};
use lb_ready::laws::entries_fit;
use lb_record::history_text;
use lb_threads::run_lanes;
use lb_trace::Trace;
use lb_words::Work;
use std::alloc::Global;
use std::sync::Wait;
use std::thread::Threads;

// The text of the history that the lanes of a trace make.
fn lanes_text<R: Threads + Wait + Sync, G: Gate>(
    rt: &R,
    alloc: Global,
    trace: &Trace,
    gate: &G,
) -> Result<Vec<u8>, NoMemory>
    requires { IsTrace trace.now }
    ensures { IfOk result (λ text. IsHistoryText trace.now text.items) }
{
    // What the entries of a history of an accepted trace say is in range.
    entries_fit();
    let history = run_lanes(rt, alloc, trace, gate)?;
    history_text(alloc, &history.header, history.entries.as_slice())
}

// What `run` writes for the trace that its source has.
fn output_of<R: Threads + Wait + Sync, S: Source, G: Gate>(
    rt: &R,
    alloc: Global,
    src: &mut S,
    gate: &G,
) -> Result<Vec<u8>, Status>
    ensures done { IfOk result (λ output. WorkHas (Some Run) (stream_of S.left S.faults src.old src.new) output.items) }
    ensures failed { IfErr result (λ end. FailsCall end (Some Run) (stream_of S.left S.faults src.old src.new)) }
{
    let input = input_of(alloc, Work::Run, src)?;
    let trace = trace_in(alloc, input)?;
    let text = lanes_text(rt, alloc, &trace, gate)?;
    Ok(text)
}

/// Does the work of `run`, and answers how it ended, if it ends: it waits for the threads that it starts.
pub fn run<R: Threads + Wait + Sync, S: Source, O: Sink, E: Sink, G: Gate>(
    rt: &R,
    alloc: Global,
    src: &mut S,
    out: &mut O,
    err: &mut E,
    gate: &G,
) -> Status
    ensures answers { Answers result
        (invocation_of (Some Run)
        (stream_of S.left S.faults src.old src.new) (stream_of O.taken O.faults out.old out.new))
        (stream_of E.taken E.faults err.old err.new) }
    ensures completes { Completes result
        (invocation_of (Some Run)
        (stream_of S.left S.faults src.old src.new) (stream_of O.taken O.faults out.old out.new))
        (stream_of E.taken E.faults err.old err.new) }
    ensures headline { result ≡ Status.Done → HeadlineOfRun
        (invocation_of (Some Run)
        (stream_of S.left S.faults src.old src.new) (stream_of O.taken O.faults out.old out.new)) }
    ensures unwritten { IsBeforeWriting result → out.new ≡ out.old }
{
    // what the headline rests on
    histories_are_sound();
    let made = output_of(rt, alloc, src, gate);
    finish(alloc, made, out, err)
}
