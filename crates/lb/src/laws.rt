//! The law on which the headline rests: what holds of each history of a trace that was read.
ghost use Rattle.lb.specs.Headline.{HistoriesAreSound};

use lb_core::laws::{permitted, placed, replies};
use lb_read::laws::{headers_read_back, histories_read_back, texts_read_once};
use lb_ready::laws::entries_fit;
use lb_trace::laws::accepted;

/// Of each history of a trace that was read: after each entry every task stands at one place, where it may
/// run unless it is asked to leave; each look takes what the rules pick, and each row has its reply; what
/// the entries say is in range, and its text reads as it, and as nothing else (docs/rules/legality.md).
pub fn histories_are_sound()
    ensures { HistoriesAreSound }
{
    // the text that was read is a trace that keeps to its limits
    accepted();
    placed();
    permitted();
    replies();
    entries_fit();
    headers_read_back();
    histories_read_back();
    texts_read_once();
}
