//! The text of a summary: its eight lines (docs/rules/generator.md).
ghost use Rattle.std.specs.Prelude.{◌≡◌, ◌++◌, ◌^◌, ◌<◌, length, true, IfOk, OnOk};
ghost use Rattle.lb_trace.specs.Accepted.{IsHeader};
ghost use Rattle.lb_core.specs.Legal.{IsLegalFront};
ghost use Rattle.lb_core.specs.Ranges.{entries_fit};
ghost use Rattle.lb_summary.specs.Text.{count_line, pulled_text, text_of, summary_text};

use crate::summary::Summary;
use lb_base::NoMemory;
use lb_core::History;
use lb_text::put_number;
use std::alloc::Global;

// Appends the line of a count.
#[tactic(auto, unfolding(crate::specs::Text::count_line))]
fn put_count(name: &[u8], count: u64, to: &mut Vec<u8>) -> Result<(), NoMemory>
    ensures { OnOk result (to.new.items ≡ to.old.items ++ count_line name.now count) }
{
    to.extend_from_slice(name)?;
    to.extend_from_slice(b" ")?;
    put_number(count, to)?;
    to.extend_from_slice(b"\n")?;
    Ok(())
}

// Appends the lines of what was pulled.
fn put_pulled(summary: &Summary, to: &mut Vec<u8>) -> Result<(), NoMemory>
    ensures { OnOk result (to.new.items ≡ to.old.items ++ pulled_text summary.now) }
{
    put_count(b"pulled SMT", summary.pulled_smt, to)?;
    put_count(b"pulled MC", summary.pulled_mc, to)?;
    put_count(b"pulled PKG", summary.pulled_pkg, to)?;
    put_count(b"pulled NUMA", summary.pulled_numa, to)?;
    Ok(())
}

// Appends the lines of a summary.
fn put_summary(summary: &Summary, to: &mut Vec<u8>) -> Result<(), NoMemory>
    ensures { OnOk result (to.new.items ≡ to.old.items ++ text_of summary.now) }
{
    put_count(b"rows", summary.rows, to)?;
    put_count(b"entries", summary.entries, to)?;
    put_pulled(summary, to)?;
    put_count(b"pushed", summary.pushed, to)?;
    put_count(b"stopped", summary.stopped, to)?;
    Ok(())
}

/// The text of the summary of a history: how many rows and entries it has, and how many tasks were pulled at
/// each level, pushed and stopped (docs/rules/generator.md). A history of an accepted trace meets the
/// conditions: it is legal, what its entries say is in range, and they are few.
#[tactic(auto, unfolding(crate::specs::Text::summary_text))]
pub fn summary_text(alloc: Global, history: &History) -> Result<Vec<u8>, NoMemory>
    requires header { IsHeader history.now.header }
    requires legal { IsLegalFront history.now.header history.now.entries }
    requires entries { entries_fit history.now.entries ≡ true }
    requires few { length history.now.entries < 2 ^ 40 }
    ensures { IfOk result (λ text. text.items ≡ summary_text history.now) }
{
    let summary = Summary::of(alloc, history)?;
    let mut text = Vec::new(alloc);
    put_summary(&summary, &mut text)?;
    Ok(text)
}
