//! The tests of the masks that a line names.
ghost use Rattle.std.specs.Prelude.{◌≡◌, ◌≤◌, not, ◌||◌};
ghost use Rattle.std.specs.List.{list_all};
ghost use Rattle.lb_base.specs.Sets.{is_empty, is_below, are_apart, are_disjoint};

use lb_base::{MAX_CPUS, Mask};

// Whether a mask has an undeclared CPU.
fn has_past(mask: Mask, cpus: u32) -> bool
    requires { cpus ≤ MAX_CPUS }
    ensures { result ≡ not (is_below mask cpus) }
{
    mask.without(Mask::all(cpus)).first().is_some()
}

// Whether two masks share a CPU.
fn share(a: Mask, b: Mask) -> bool
    ensures { result ≡ not (are_apart a b) }
{
    a.and(b).first().is_some()
}

/// Whether some mask has an undeclared CPU.
pub fn has_no_cpu(masks: &[Mask], cpus: u32) -> bool
    requires { cpus ≤ MAX_CPUS }
    ensures { result ≡ not (list_all (λ mask. is_below mask cpus) masks.now) }
{
    for mask in masks {
        if has_past(*mask, cpus) {
            return true;
        }
    }
    false
}

/// Whether no two masks share a CPU.
pub fn are_disjoint(masks: &[Mask]) -> bool
    ensures { result ≡ are_disjoint masks.now }
{
    let mut seen = Mask::none();
    for mask in masks {
        if share(seen, *mask) {
            return false;
        }
        seen = seen.or(*mask);
    }
    true
}

/// Whether a task cannot have this mask: it is empty, or has an undeclared CPU.
pub fn is_no_mask(mask: Mask, cpus: u32) -> bool
    requires { cpus ≤ MAX_CPUS }
    ensures { result ≡ (is_empty mask || not (is_below mask cpus)) }
{
    mask.first().is_none() || has_past(mask, cpus)
}
