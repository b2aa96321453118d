//! The domains of one CPU, copied.
ghost use Rattle.std.specs.Prelude.{◌≡◌, IfOk};

use lb_base::{Items, NoMemory};
use lb_domain::Domain;
use std::alloc::Global;

// A copy of a domain.
fn copy_domain(alloc: Global, domain: &Domain) -> Result<Domain, NoMemory>
    ensures { IfOk result (λ copy. copy ≡ domain.now) }
{
    Ok(Domain {
        shape: domain.shape,
        groups: Items::from_slice(alloc, domain.groups.as_slice())?,
    })
}

/// A copy of the domains of a CPU.
pub(crate) fn copy_domains(alloc: Global, domains: &[Domain]) -> Result<Items<Domain>, NoMemory>
    ensures { IfOk result (λ copy. copy ≡ domains.now) }
{
    let mut copy = Items::new(alloc);
    for domain in domains {
        copy.push(copy_domain(alloc, domain)?)?;
    }
    Ok(copy)
}
