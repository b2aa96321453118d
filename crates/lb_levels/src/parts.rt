//! The first fault of partition masks.
ghost use Rattle.std.specs.Prelude.{◌≡◌, ◌<◌, ◌≤◌, ◌^◌, not, length};
ghost use Rattle.std.specs.Option.{option_map};
ghost use Rattle.lb_base.specs.Sets.{is_below, are_apart};
ghost use Rattle.lb_levels.specs.Faults.{first_past, first_sharing, first_overlap, parts_fault_of};

use crate::faults::PartsFault;
use crate::machine::Machine;
use lb_base::{MAX_CPUS, Mask};

/// The first fault of a list of masks that are to part the machine's CPUs, or None where each of
/// its masks has CPUs of the machine alone and no two share one (docs/rules/domains.md).
pub fn parts_fault(machine: &Machine, parts: &[Mask]) -> Option<PartsFault>
    requires { length parts.now < 2 ^ 32 }
    ensures { result ≡ parts_fault_of (length machine.now.cpus) parts.now }
{
    if let Some(part) = first_past(machine.cpus(), parts) {
        return Some(PartsFault::NoSuchCpu { part });
    }
    first_overlap(parts)
}

// Whether a mask has a CPU past the machine.
fn has_past(mask: Mask, cpus: u32) -> bool
    requires { cpus ≤ MAX_CPUS }
    ensures { result ≡ not (is_below mask cpus) }
{
    mask.without(Mask::all(cpus)).first().is_some()
}

// The first mask that has a CPU past the machine.
fn first_past(cpus: u32, parts: &[Mask]) -> Option<u32>
    requires machine { cpus ≤ MAX_CPUS }
    requires few { length parts.now < 2 ^ 32 }
    ensures { result ≡ first_past cpus parts.now }
{
    for part in 0..parts.len() {
        if has_past(parts[part], cpus) {
            return Some(part as u32);
        }
    }
    None
}

// The first mask before this one that shares a CPU with it.
fn first_sharing(parts: &[Mask], second: usize) -> Option<u32>
    requires few { length parts.now < 2 ^ 32 }
    requires in_range { second < length parts.now }
    ensures { result ≡ first_sharing parts.now second }
{
    for first in 0..second {
        if shares(parts[first], parts[second]) {
            return Some(first as u32);
        }
    }
    None
}

fn shares(a: Mask, b: Mask) -> bool
    ensures { result ≡ not (are_apart a b) }
{
    a.and(b).first().is_some()
}

// The fault of this mask, which shares a CPU with one before it.
fn overlap_with(parts: &[Mask], second: usize) -> Option<PartsFault>
    requires few { length parts.now < 2 ^ 32 }
    requires in_range { second < length parts.now }
    ensures { result ≡ option_map (λ first. PartsFault.Overlap first second) (first_sharing parts.now second) }
{
    match first_sharing(parts, second) {
        Some(first) => Some(PartsFault::Overlap {
            first,
            second: second as u32,
        }),
        None => None,
    }
}

// The first mask that shares a CPU with one before it, and the first of those.
fn first_overlap(parts: &[Mask]) -> Option<PartsFault>
    requires { length parts.now < 2 ^ 32 }
    ensures { result ≡ first_overlap parts.now }
{
    let mut seen = Mask::none();
    for second in 0..parts.len() {
        if shares(seen, parts[second]) {
            return overlap_with(parts, second);
        }
        seen = seen.or(parts[second]);
    }
    None
}
