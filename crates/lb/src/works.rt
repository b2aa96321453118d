//! What each work that one thread does makes of its input, before anything is written.
ghost use Rattle.std.specs.Prelude.{◌≡◌, ◌⊎◌, ◌≤◌, length, true, IfOk, IfErr, Ok};
ghost use Rattle.lb_trace.specs.Accepted.{IsTrace};
ghost use Rattle.lb_trace.specs.Grammar.{reading_of};
ghost use Rattle.lb_read.specs.Whole.{ReadsAs};
ghost use Rattle.lb_record.specs.declared.history.TheConstants.{MAX_HISTORY_BYTES};
ghost use Rattle.lb_words.specs.declared.work.Work.{Work};
ghost use Rattle.lb_words.specs.declared.work.Work.TheVariants.{Run};
ghost use Rattle.lb_words.specs.Words.{IsInRange};
ghost use Rattle.lb_generator.specs.Generator.{trace_drawn};
ghost use Rattle.lb.specs.declared.status.Status.TheVariants as status;
ghost use Rattle.lb.specs.Works.{status_of_reading, limit, IsStatusOf, IsStatusOfHistory, NamesFault, IsDone, IsSerialText, IsSummary, legal_text};

use crate::status::Status;
use lb_audit::laws::texts_may_be_judged;
use lb_audit::{Verdict, check};
use lb_base::NoMemory;
use lb_generator::generate;
use lb_generator::laws::are_accepted;
use lb_read::read_history;
use lb_ready::laws::{entries_fit, histories_end};
use lb_record::history_text;
use lb_serial::serial;
use lb_summary::summary_text;
use lb_text::put_number;
use lb_topo::topology_text;
use lb_trace::laws::accepted;
use lb_trace::{MAX_ROWS, Trace, TraceError};
use lb_words::Work;
use std::alloc::Global;

// The text of the serial history of a trace.
fn serial_text(alloc: Global, trace: &Trace) -> Result<Vec<u8>, NoMemory>
    requires { IsTrace trace.now }
    ensures { IfOk result (λ text. IsSerialText trace.now text.items) }
{
    // What the entries of a history of an accepted trace say is in range.
    entries_fit();
    let history = serial(alloc, trace)?;
    history_text(alloc, &history.header, history.entries.as_slice())
}

// The summary of the serial history of a trace.
fn summary_of(alloc: Global, trace: &Trace) -> Result<Vec<u8>, NoMemory>
    requires { IsTrace trace.now }
    ensures { IfOk result (λ text. IsSummary trace.now text.items) }
{
    // what the entries of a history of an accepted trace say is in range,
    entries_fit();
    // and there are not too many of them
    histories_end();
    let history = serial(alloc, trace)?;
    summary_text(alloc, &history)
}

// What `check` writes of a legal history with so many entries.
fn legal_text(alloc: Global, entries: u64) -> Result<Vec<u8>, NoMemory>
    ensures { IfOk result (λ text. text.items ≡ legal_text entries) }
{
    let mut text = Vec::new(alloc);
    text.extend_from_slice(b"legal ")?;
    put_number(entries, &mut text)?;
    text.extend_from_slice(b"\n")?;
    Ok(text)
}

/// The trace that an input is.
pub fn trace_in(alloc: Global, input: Vec<u8>) -> Result<Trace, Status>
    ensures read { IfOk result (λ trace. reading_of input.items ≡ Ok trace) }
    ensures accepted { IfOk result (λ trace. IsTrace trace) }
    ensures failed { IfErr result (λ end.
        (end ≡ status.NoMemory) ⊎ (NamesFault end × (end ≡ status_of_reading (reading_of input.items)))) }
{
    // A text that is accepted is a trace that keeps to its limits.
    accepted();
    let trace = Trace::read(alloc, &input)?;
    Ok(trace)
}

// What `check` writes of the history that an input reads as, where it is legal.
fn judged_text(alloc: Global, input: Vec<u8>) -> Result<Vec<u8>, Status>
    requires { length input.items ≤ MAX_HISTORY_BYTES }
    ensures done { IfOk result (λ output. IsDone Work.Check input.items output.items) }
    ensures failed { IfErr result (λ end. (end ≡ status.NoMemory) ⊎ (NamesFault end × IsStatusOfHistory input.items end)) }
{
    // What a text reads as may be judged.
    texts_may_be_judged();
    let read = read_history(alloc, &input)?;
    drop(input);
    match check(alloc, &read)? {
        Verdict::Legal => Ok(legal_text(alloc, read.entries.len() as u64)?),
        Verdict::Illegal { ticket, rule } => Err(Status::Illegal { ticket, rule }),
    }
}

// The summary of the serial history of a drawn trace.
fn drawn_summary(alloc: Global, number: u32, rows: u32) -> Result<Vec<u8>, NoMemory>
    requires { rows ≤ MAX_ROWS }
    ensures { IfOk result (λ text. IsSummary (trace_drawn number rows) text.items) }
{
    // The text of a drawn trace is accepted, and reads as the trace.
    are_accepted();
    accepted();
    let text = generate(alloc, number, rows)?;
    match Trace::read(alloc, &text) {
        Ok(trace) => summary_of(alloc, &trace),
        Err(TraceError::NoMemory) => Err(NoMemory),
        Err(TraceError::Refused { .. }) => unreachable!(),
    }
}

/// What a work that one thread does writes for its input; or the status that says what is wrong with the input, or that memory
/// ran out.
pub fn text_for(alloc: Global, work: Work, input: Vec<u8>) -> Result<Vec<u8>, Status>
    requires in_range { IsInRange work }
    requires alone { work ≡ Run → ⊥ }
    requires short { length input.items ≤ limit work }
    ensures done { IfOk result (λ output. IsDone work input.items output.items) }
    ensures failed { IfErr result (λ end. (end ≡ status.NoMemory) ⊎ (NamesFault end × IsStatusOf work input.items end)) }
{
    let output = match work {
        Work::Step => serial_text(alloc, &trace_in(alloc, input)?)?,
        Work::Run => unreachable!(),
        Work::Topo => topology_text(alloc, &trace_in(alloc, input)?)?,
        Work::Check => judged_text(alloc, input)?,
        Work::Gen { number, rows } => generate(alloc, number, rows)?,
        Work::Sum { number, rows } => drawn_summary(alloc, number, rows)?,
    };
    Ok(output)
}
