//! What one thread does: the work that the words ask for.
ghost use Rattle.std.specs.Prelude.{◌≡◌, map, false, Some, IfOk, IfErr, string_bytes};
ghost use Rattle.lb_words.specs.declared.work.Work.TheVariants.{Step, Run};
ghost use Rattle.lb_words.specs.Words.{work_of, IsInRange};
ghost use Rattle.lb.specs.Invocation.{stream_of, invocation_of};
ghost use Rattle.lb.specs.Works.{on_one_thread, reads, reads_source, Fails, HasOutput};
ghost use Rattle.lb.specs.Answers.{FailsCall, WorkHas, IsBeforeWriting, Answers, Completes};
ghost use Rattle.lb.specs.Headline.{Headline};

use crate::laws::histories_are_sound;
use crate::reading::input_of;
use crate::status::Status;
use crate::works::text_for;
use crate::writing::finish;
use lb_core::laws::one_serial_history;
use lb_io::{Sink, Source};
use lb_words::{Work, work_of};
use std::alloc::Global;

// What a work writes for what its source has.
fn output_of<S: Source>(alloc: Global, work: Work, src: &mut S) -> Result<Vec<u8>, Status>
    requires in_range { IsInRange work }
    requires alone { work ≡ Run → ⊥ }
    ensures done { IfOk result (λ output. HasOutput work (stream_of S.left S.faults src.old src.new) output.items) }
    ensures failed { IfErr result (Fails work (stream_of S.left S.faults src.old src.new)) }
    ensures unread { reads work ≡ false → src.new ≡ src.old }
{
    let input = input_of(alloc, work, src)?;
    text_for(alloc, work, input)
}

// What the work that the words ask for writes for what its source has, where one thread does it.
fn output_alone<S: Source>(alloc: Global, words: &[String], src: &mut S) -> Result<Vec<u8>, Status>
    ensures done { IfOk result (λ output. WorkHas (on_one_thread (work_of (map string_bytes words.now)))
        (stream_of S.left S.faults src.old src.new) output.items) }
    ensures failed { IfErr result (λ end. FailsCall end (on_one_thread (work_of (map string_bytes words.now)))
        (stream_of S.left S.faults src.old src.new)) }
    ensures unread { reads_source (on_one_thread (work_of (map string_bytes words.now))) ≡ false → src.new ≡ src.old }
{
    match work_of(alloc, words)? {
        // whose lanes wait for one another
        None | Some(Work::Run) => Err(Status::Usage),
        Some(work) => output_of(alloc, work, src),
    }
}

/// Does the work of the words on one thread, and answers how it ended. The words of `run` are none for it,
/// and words that ask for no work that reads the source leave it as it was.
pub fn once<S: Source, O: Sink, E: Sink>(
    alloc: Global,
    words: &[String],
    src: &mut S,
    out: &mut O,
    err: &mut E,
) -> Status
    ensures answers { Answers result
        (invocation_of (on_one_thread (work_of (map string_bytes words.now)))
        (stream_of S.left S.faults src.old src.new) (stream_of O.taken O.faults out.old out.new))
        (stream_of E.taken E.faults err.old err.new) }
    ensures completes { Completes result
        (invocation_of (on_one_thread (work_of (map string_bytes words.now)))
        (stream_of S.left S.faults src.old src.new) (stream_of O.taken O.faults out.old out.new))
        (stream_of E.taken E.faults err.old err.new) }
    ensures headline { result ≡ Status.Done → work_of (map string_bytes words.now) ≡ Some Step → Headline
        (invocation_of (on_one_thread (work_of (map string_bytes words.now)))
        (stream_of S.left S.faults src.old src.new) (stream_of O.taken O.faults out.old out.new)) }
    ensures unread { reads_source (on_one_thread (work_of (map string_bytes words.now))) ≡ false → src.new ≡ src.old }
    ensures unwritten { IsBeforeWriting result → out.new ≡ out.old }
{
    // What the headline of `step` rests on: what holds of each history of a trace, and that no other
    // history of it is serial.
    histories_are_sound();
    one_serial_history();
    let made = output_alone(alloc, words, src);
    finish(alloc, made, out, err)
}
