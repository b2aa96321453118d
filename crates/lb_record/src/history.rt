//! The text of a history (docs/rules/history-text.md).
ghost use Rattle.std.specs.Prelude.{◌≡◌, ◌++◌, true, IfOk, OnOk};
ghost use Rattle.lb_trace.specs.Accepted.{IsHeader};
ghost use Rattle.lb_core.specs.Ranges.{entries_fit};
ghost use Rattle.lb_text.specs.Lines.{lines_text, numbered};
ghost use Rattle.lb_record.specs.Entries.{entry_line};
ghost use Rattle.lb_record.specs.History.{history_text};

use crate::entry::put_entry;
use crate::header::put_header;
use lb_base::NoMemory;
use lb_core::Entry;
use lb_trace::Header;
use std::alloc::Global;

/// The length of the longest text that is read as a history, in bytes: 512 MiB.
pub const MAX_HISTORY_BYTES: u64 = 536_870_912;

// The lines of entries, from ticket 1.
fn put_entries(entries: &[Entry], to: &mut Vec<u8>) -> Result<(), NoMemory>
    requires { entries_fit entries.now ≡ true }
    ensures { OnOk result (to.new.items ≡ to.old.items ++ lines_text (numbered entry_line 1 entries.now)) }
{
    for (i, entry) in entries.iter().enumerate() {
        put_entry(i as u64 + 1, entry, to)?;
    }
    Ok(())
}

/// The text of a history: the lines of its header, then a line for each entry, in the order of their
/// tickets (docs/rules/history-text.md).
#[tactic(auto, unfolding(crate::specs::History::history_text, crate::specs::History::history_lines, crate::specs::Header::header_text))]
pub fn history_text(alloc: Global, header: &Header, entries: &[Entry]) -> Result<Vec<u8>, NoMemory>
    requires header { IsHeader header.now }
    requires entries { entries_fit entries.now ≡ true }
    ensures { IfOk result (λ text. text.items ≡ history_text header.now entries.now) }
{
    let mut text = Vec::new(alloc);
    put_header(header, &mut text)?;
    put_entries(entries, &mut text)?;
    Ok(text)
}
