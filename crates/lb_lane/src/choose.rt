//! A lane looks at a version, and copies what a turn needs of it.
ghost use Rattle.std.specs.Prelude.{◌≡◌, ◌<◌, ◌≤◌, IfOk, IfSome, length};
ghost use mathlib.Core.List.{IsPrefix};
ghost use Rattle.lb_lane.specs.Uses.{HasCpu, IsChosen, IsCopyOf};

use crate::chosen::Chosen;
use crate::domains::copy_domains;
use crate::lane::Lane;
use crate::versions::Versions;
use core::mem::replace_with;
use lb_base::{Items, NoMemory};
use lb_cell::Names;
use lb_topub::{Looked, Looker};
use std::alloc::Global;
use std::sync::Wait;

// What is asked of a look: the domains of a CPU, in one of the first `vouched` versions.
#[derive(Drop)]
struct Wanted {
    alloc: Global,
    cpu: u32,
    vouched: u64,
}

// A copy of the version of a look.
fn copy(wanted: &Wanted, looked: &Looked) -> Result<Chosen, NoMemory>
    requires some { 1 ≤ length looked.now.topologies }
    requires has { HasCpu looked.now.topologies (length looked.now.topologies) wanted.now.cpu }
    ensures copy { IfOk result (λ x. IsCopyOf looked.now.topologies x) }
    ensures version { IfOk result (λ x. x.version ≡ length looked.now.topologies) }
    ensures cpu { IfOk result (λ x. x.cpu ≡ wanted.now.cpu) }
{
    let topology = looked.topology();
    Ok(Chosen {
        version: looked.version(),
        masks: Items::from_slice(wanted.alloc, topology.masks())?,
        cpu: wanted.cpu,
        domains: copy_domains(wanted.alloc, topology.domains(wanted.cpu))?,
    })
}

// A look at a version, which is given back: a copy of it where it is one of the first `vouched`.
fn look_for<R: Wait>(
    looker: Looker,
    by: (&R, &Wanted),
) -> (Looker, Result<Option<Chosen>, NoMemory>)
    requires some { 1 ≤ length looker.topologies }
    requires vouched { by.1.now.vouched ≤ length looker.topologies }
    requires has { HasCpu looker.topologies by.1.now.vouched by.1.now.cpu }
    ensures book { result.0.book ≡ looker.book }
    ensures later { IsPrefix looker.topologies result.0.topologies }
    ensures copy { IfOk result.1 (λ o. IfSome o (λ x. IsCopyOf result.0.topologies x)) }
    ensures last { IfOk result.1 (λ o. IfSome o (λ x. x.version ≡ length result.0.topologies)) }
    ensures vouched { IfOk result.1 (λ o. IfSome o (λ x. x.version ≤ by.entry.1.now.vouched)) }
    ensures cpu { IfOk result.1 (λ o. IfSome o (λ x. x.cpu ≡ by.entry.1.now.cpu)) }
{
    let looked = looker.look(by.0);
    if by.1.vouched < looked.version() {
        return (looked.back(), Ok(None));
    }
    match copy(by.1, &looked) {
        Ok(chosen) => (looked.back(), Ok(Some(chosen))),
        Err(refused) => (looked.back(), Err(refused)),
    }
}

// The same for a looker that is lent.
fn look_on<R: Wait>(
    rt: &R,
    looker: &mut Looker,
    wanted: &Wanted,
) -> Result<Option<Chosen>, NoMemory>
    requires some { 1 ≤ length looker.old.topologies }
    requires vouched { wanted.now.vouched ≤ length looker.old.topologies }
    requires has { HasCpu looker.old.topologies wanted.now.vouched wanted.now.cpu }
    ensures book { looker.new.book ≡ looker.old.book }
    ensures later { IsPrefix looker.old.topologies looker.new.topologies }
    ensures copy { IfOk result (λ o. IfSome o (λ x. IsCopyOf looker.new.topologies x)) }
    ensures last { IfOk result (λ o. IfSome o (λ x. x.version ≡ length looker.new.topologies)) }
    ensures vouched { IfOk result (λ o. IfSome o (λ x. x.version ≤ wanted.now.vouched)) }
    ensures cpu { IfOk result (λ o. IfSome o (λ x. x.cpu ≡ wanted.now.cpu)) }
{
    replace_with(looker, (rt, wanted), look_for::<R>)
}

impl<N: Names + Versions> Lane<N> {
    /// Looks at a version, and copies the domains of a CPU in it; None where the lane does not vouch for the version yet,
    /// since it has not read its `pub`. The look is given back. It refuses for want of memory alone.
    pub fn choose<R: Wait>(
        &mut self,
        rt: &R,
        alloc: Global,
        cpu: u32,
    ) -> Result<Option<Chosen>, NoMemory>
        requires { cpu < length N.header.cpus }
        ensures chosen { IfOk result (λ o. IfSome o (λ x. IsChosen N.header self.new x × (x.cpu ≡ cpu))) }
        ensures same { self.new ≡ record self.old { looker = self.new.looker } }
        ensures later { IsPrefix self.old.looker.topologies self.new.looker.topologies }
    {
        let wanted = Wanted {
            alloc,
            cpu,
            vouched: self.vouched,
        };
        look_on(rt, &mut self.looker, &wanted)
    }
}
