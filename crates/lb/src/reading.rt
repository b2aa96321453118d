//! The input of what the words of the command line ask for: the whole source up to a limit, or nothing.
ghost use Rattle.std.specs.Prelude.{◌≡◌, ◌≤◌, length, true, false, None, IfSome, IfOk, IfErr};
ghost use Rattle.lb.specs.Invocation.{stream_of};
ghost use Rattle.lb.specs.Works.{reads, limit, OfInput, WasRead, Fails};

use crate::status::Status;
use lb_io::{Source, read_all};
use lb_record::MAX_HISTORY_BYTES;
use lb_trace::MAX_BYTES;
use lb_words::Work;
use std::alloc::Global;

// The longest input that a work reads, in bytes; None where it reads nothing.
fn limit_of(work: Work) -> Option<u64>
    ensures none { result ≡ None → reads work ≡ false }
    ensures most { IfSome result (λ most. (most ≡ limit work) × (reads work ≡ true)) }
{
    match work {
        Work::Step | Work::Run | Work::Topo => Some(MAX_BYTES),
        Work::Check => Some(MAX_HISTORY_BYTES),
        Work::Gen { .. } | Work::Sum { .. } => None,
    }
}

/// The input of a work: all that its source has, or nothing where it reads nothing.
pub fn input_of<S: Source>(alloc: Global, work: Work, src: &mut S) -> Result<Vec<u8>, Status>
    ensures read { IfOk result (λ input. WasRead work (stream_of S.left S.faults src.old src.new)) }
    ensures told { IfOk result (λ input. OfInput work (stream_of S.left S.faults src.old src.new) (λ told. told ≡ input.items)) }
    ensures short { IfOk result (λ input. length input.items ≤ limit work) }
    ensures failed { IfErr result (Fails work (stream_of S.left S.faults src.old src.new)) }
    ensures unread { reads work ≡ false → src.new ≡ src.old }
{
    match limit_of(work) {
        Some(most) => Ok(read_all(alloc, src, most)?),
        None => Ok(Vec::new(alloc)),
    }
}
