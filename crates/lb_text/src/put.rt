//! Writing numbers and lists of CPUs, in their one spelling.
ghost use Rattle.std.specs.Prelude.{◌≡◌, ◌++◌, ◌<◌, ◌≤◌, ◌+◌, ℕ, true, OnOk, OnErr, decimal, take, length, vec_len};
ghost use Rattle.lb_base.specs.Mask.{has};
ghost use Rattle.lb_text.specs.Runs.{run_text, runs_text, list_text};

use itoa::Buffer;
use lb_base::{MAX_CPUS, Mask, NoMemory};

/// Appends a number in decimal (docs/rules/history-text.md). After a refusal the text is as before.
pub fn put_number(v: u64, to: &mut Vec<u8>) -> Result<(), NoMemory>
    ensures ok { OnOk result (to.new.items ≡ to.old.items ++ decimal v) }
    ensures refused { OnErr result (to.new.items ≡ to.old.items) }
{
    let mut digits = Buffer::new();
    to.extend_from_slice(digits.format(v).as_bytes())?;
    Ok(())
}

// Appends a run. After a refusal what stood there still stands in front.
fn put_run(first: u32, last: u32, to: &mut Vec<u8>) -> Result<(), NoMemory>
    ensures ok { OnOk result (to.new.items ≡ to.old.items ++ run_text (first, last)) }
    ensures refused { OnErr result (take (length to.old.items) to.new.items ≡ to.old.items) }
{
    put_number(u64::from(first), to)?;
    if first == last {
        return Ok(());
    }
    to.extend_from_slice(b"-")?;
    put_number(u64::from(last), to)
}

// The last CPU of the run that begins at this one.
fn run_end(mask: Mask, first: u32) -> u32
    requires in_range { first < MAX_CPUS }
    ensures in_range { (first ≤ result) × (result < MAX_CPUS) }
    ensures there { (k : ℕ) → first < k → k ≤ result → has mask k ≡ true }
    ensures ends { result + 1 < MAX_CPUS → has mask (result + 1) ≡ true → ⊥ }
{
    let mut last = first;
    while last + 1 < MAX_CPUS && mask.has(last + 1) {
        last += 1;
    }
    last
}

// Appends the runs of a mask. After a refusal what stood there still stands in front.
fn put_runs(mask: Mask, to: &mut Vec<u8>) -> Result<(), NoMemory>
    ensures ok { OnOk result (to.new.items ≡ to.old.items ++ runs_text mask) }
    ensures refused { OnErr result (take (length to.old.items) to.new.items ≡ to.old.items) }
{
    let mut next = mask.first();
    while let Some(first) = next {
        let last = run_end(mask, first);
        put_run(first, last, to)?;
        next = mask.next_after(last);
        if next.is_some() {
            to.extend_from_slice(b";")?;
        }
    }
    Ok(())
}

/// Appends the CPUs of a mask as a list of runs, each as long as it can be, or `-` where there are
/// none (docs/rules/history-text.md). After a refusal the text is as before.
pub fn put_list(mask: Mask, to: &mut Vec<u8>) -> Result<(), NoMemory>
    ensures ok { OnOk result (to.new.items ≡ to.old.items ++ list_text mask) }
    ensures refused { OnErr result (to.new.items ≡ to.old.items) }
{
    if mask.first().is_none() {
        to.extend_from_slice(b"-")?;
        return Ok(());
    }
    let before = to.len();
    match put_runs(mask, to) {
        Ok(()) => Ok(()),
        Err(refused) => {
            to.truncate(before);
            Err(refused)
        }
    }
}
