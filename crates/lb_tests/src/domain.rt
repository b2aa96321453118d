//! Masks that a topology is built of, and masks that are refused with their first fault.
use crate::machines::machine;
use lb_base::Mask;
use lb_domain::{BuildError, Topology};
use lb_levels::Machine;
use std::alloc::Global;
use std::process::Abort;

#[test]
fn masks_make_a_topology(rt: HostRuntime) {
    let machine = three_cores(&rt, rt.alloc());
    let parts = [Mask { bits: 0b110 }, Mask { bits: 0 }];
    assert!(rt; is_built(rt.alloc(), &machine, &parts));
}

#[test]
fn the_first_bad_mask_is_refused(rt: HostRuntime) {
    let machine = three_cores(&rt, rt.alloc());
    let faults = [
        fault(rt.alloc(), &machine, [0b001, 0b1001, 0b001]),
        fault(rt.alloc(), &machine, [0b001, 0b010, 0b011]),
    ];
    let past = BuildError::NoSuchCpu { part: 1 };
    let overlap = BuildError::Overlap {
        first: 0,
        second: 2,
    };
    assert!(rt; faults == [Some(past), Some(overlap)]);
}

// Three cores of one cache.
fn three_cores(rt: &impl Abort, alloc: Global) -> Machine {
    let cores = [(0, 0, 0), (1, 0, 0), (2, 0, 0)];
    let Ok(machine) = machine(rt, alloc, &cores, &[&[10]]) else {
        panic!(rt; "no machine")
    };
    machine
}

// Whether there is a topology over these masks.
fn is_built(alloc: Global, machine: &Machine, parts: &[Mask]) -> bool {
    match Topology::build(alloc, machine, parts) {
        Ok(topology) => topology.masks() == parts,
        Err(_) => false,
    }
}

// Why these three masks do not part the machine.
fn fault(alloc: Global, machine: &Machine, bits: [u64; 3]) -> Option<BuildError> {
    let parts = [
        Mask { bits: bits[0] },
        Mask { bits: bits[1] },
        Mask { bits: bits[2] },
    ];
    Topology::build(alloc, machine, &parts).err()
}
