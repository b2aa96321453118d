//! Rows of CPUs and tables of distances that are refused with their first fault.
use crate::machines::machine;
use lb_levels::MachineError;
use lb_levels::MachineError::{BadCpu, BadDistance, NotNested};
use std::alloc::Global;
use std::process::Abort;

// Why these cores, caches and nodes, with these distances, are no machine.
fn fault(
    rt: &impl Abort,
    alloc: Global,
    cpus: &[(u32, u32, u32)],
    table: &[&[u32]],
) -> Option<MachineError> {
    machine(rt, alloc, cpus, table).err()
}

#[test]
fn the_first_bad_cpu_is_refused(rt: HostRuntime) {
    // a core of two caches, beside a table without rows
    let cpus = [(0, 0, 0), (0, 1, 0)];
    assert!(rt; fault(&rt, rt.alloc(), &cpus, &[]) == Some(BadCpu { cpu: 1 }));
    // a cache of two nodes
    let cpus = [(0, 0, 0), (1, 0, 1)];
    assert!(rt; fault(&rt, rt.alloc(), &cpus, &[&[10]]) == Some(BadCpu { cpu: 1 }));
}

#[test]
fn the_first_bad_distance_is_refused(rt: HostRuntime) {
    let one = [(0, 0, 0)];
    let two = [(0, 0, 0), (1, 1, 1)];
    let faults = [
        // a row too many, and one of the wrong size below a bad entry
        fault(&rt, rt.alloc(), &one, &[&[10], &[10]]),
        fault(&rt, rt.alloc(), &two, &[&[20, 10], &[20]]),
        // another own distance, and another distance back
        fault(&rt, rt.alloc(), &two, &[&[10, 20], &[20, 11]]),
        fault(&rt, rt.alloc(), &two, &[&[10, 20], &[30, 10]]),
        fault(&rt, rt.alloc(), &two, &[&[10, 20], &[20, 10]]),
    ];
    let second = Some(BadDistance { row: 1 });
    assert!(rt; faults == [second, second, second, second, None]);
}

#[test]
fn nodes_that_are_not_nested_are_refused(rt: HostRuntime) {
    let three = [(0, 0, 0), (1, 1, 1), (2, 2, 2)];
    let table: &[&[u32]] = &[&[10, 20, 30], &[20, 10, 20], &[30, 20, 10]];
    assert!(rt; fault(&rt, rt.alloc(), &three, table) == Some(NotNested { distance: 20 }));
}
