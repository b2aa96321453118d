//! A looker finds the version that it was told of.
ghost use Rattle.std.specs.Prelude.{◌≡◌};

use lb_base::{Items, Mask};
use lb_domain::Topology;
use lb_levels::{CpuRow, Machine};
use lb_topub::{Looker, Publisher, gather};
use std::alloc::Global;
use std::process::Abort;
use std::sync::Wait;

// A machine of one CPU.
fn one_cpu(rt: &impl Abort, alloc: Global) -> Machine {
    let rows = [CpuRow {
        core: 0,
        cache: 0,
        node: 0,
    }];
    let Ok(row) = Items::from_slice(alloc, &[10]) else {
        panic!(rt; "no room")
    };
    let distances = [row];
    let Ok(machine) = Machine::read(alloc, &rows, &distances) else {
        panic!(rt; "no machine")
    };
    machine
}

fn topology(rt: &impl Abort, alloc: Global, machine: &Machine, masks: &[Mask]) -> Topology {
    let Ok(topology) = Topology::build(alloc, machine, masks) else {
        panic!(rt; "no topology")
    };
    topology
}

// Topologies of one CPU: over no mask, and over the mask of that CPU.
fn topologies(rt: &impl Abort, alloc: Global) -> (Topology, Topology) {
    let machine = one_cpu(rt, alloc);
    let first = topology(rt, alloc, &machine, &[]);
    (first, topology(rt, alloc, &machine, &[Mask { bits: 1 }]))
}

// The version that a looker finds, and how many masks it is over.
fn found<R: Wait>(rt: &R, looker: Looker) -> (Looker, u64, usize)
    ensures { result.0.book ≡ looker.book }
{
    let looked = looker.look(rt);
    let version = looked.version();
    let masks = looked.topology().masks().len();
    (looked.back(), version, masks)
}

#[test]
fn a_looker_finds_what_it_was_told(rt: HostRuntime) {
    let (first, second) = topologies(&rt, rt.alloc());
    let Ok((mut publisher, mut lookers)) = Publisher::new(&rt, rt.alloc(), first, 1) else {
        panic!(rt; "no publisher")
    };
    let Some(looker) = lookers.pop() else {
        panic!(rt; "no looker")
    };
    let (mut looker, version, masks) = found(&rt, looker);
    assert!(rt; version == 1 && masks == 0);
    let Ok(version) = publisher.publish(&rt, rt.alloc(), second) else {
        panic!(rt; "no second version")
    };
    assert!(rt; version == 2 && looker.told(&mut publisher).is_ok());
    let (looker, version, masks) = found(&rt, looker);
    assert!(rt; version == 2 && masks == 1);
    let Ok(()) = lookers.push(looker) else {
        panic!(rt; "no room")
    };
    assert!(rt; gather(&rt, publisher, lookers) == 2);
}
