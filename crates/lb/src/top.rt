//! The whole program but for its real ends: `main` makes these, and calls `top`.
ghost use Rattle.std.specs.Prelude.{◌≡◌, map, false, Some, string_bytes};
ghost use Rattle.lb_words.specs.declared.work.Work.TheVariants.{Step, Run};
ghost use Rattle.lb_words.specs.Words.{work_of};
ghost use Rattle.lb.specs.Invocation.{stream_of, invocation_of};
ghost use Rattle.lb.specs.Works.{reads_source};
ghost use Rattle.lb.specs.Answers.{IsBeforeWriting, Answers, Completes};
ghost use Rattle.lb.specs.Headline.{Headline, HeadlineOfRun};

use crate::once::once;
use crate::run::run;
use crate::status::Status;
use crate::writing::finish;
use lb_base::NoMemory;
use lb_io::{Gate, Sink, Source};
use lb_words::{Work, work_of};
use std::alloc::Global;
use std::sync::Wait;
use std::thread::Threads;

/// All that the program does: `run` on threads, which pass the gate, and every other command on one thread.
pub fn top<R: Threads + Wait + Sync, S: Source, O: Sink, E: Sink, G: Gate>(
    rt: &R,
    alloc: Global,
    words: &[String],
    src: &mut S,
    out: &mut O,
    err: &mut E,
    gate: &G,
) -> Status
    ensures answers { Answers result
        (invocation_of (work_of (map string_bytes words.now))
        (stream_of S.left S.faults src.old src.new) (stream_of O.taken O.faults out.old out.new))
        (stream_of E.taken E.faults err.old err.new) }
    ensures completes { Completes result
        (invocation_of (work_of (map string_bytes words.now))
        (stream_of S.left S.faults src.old src.new) (stream_of O.taken O.faults out.old out.new))
        (stream_of E.taken E.faults err.old err.new) }
    ensures headline { result ≡ Status.Done → work_of (map string_bytes words.now) ≡ Some Step → Headline
        (invocation_of (work_of (map string_bytes words.now))
        (stream_of S.left S.faults src.old src.new) (stream_of O.taken O.faults out.old out.new)) }
    ensures headline_of_run { result ≡ Status.Done → work_of (map string_bytes words.now) ≡ Some Run → HeadlineOfRun
        (invocation_of (work_of (map string_bytes words.now))
        (stream_of S.left S.faults src.old src.new) (stream_of O.taken O.faults out.old out.new)) }
    ensures unread { reads_source (work_of (map string_bytes words.now)) ≡ false → src.new ≡ src.old }
    ensures unwritten { IsBeforeWriting result → out.new ≡ out.old }
{
    match work_of(alloc, words) {
        Ok(Some(Work::Run)) => run(rt, alloc, src, out, err, gate),
        Ok(_) => once(alloc, words, src, out, err),
        Err(NoMemory) => finish(alloc, Err(Status::NoMemory), out, err),
    }
}
