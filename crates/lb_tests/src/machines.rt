//! Machines of a few CPUs, for the tests of machines and of their domains.
ghost use Rattle.std.specs.Prelude.{◌≡◌, ◌+◌, nat_lt};
ghost use Rattle.std.specs.List.{list_all};
ghost use Rattle.lb_levels.specs.Rows.{nodes_in_range, distances_in_range};

use lb_base::{Items, MAX_CPUS};
use lb_levels::{CpuRow, MAX_DISTANCE, MAX_NODES, Machine, MachineError};
use std::alloc::Global;
use std::process::Abort;

/// The machine of these cores, caches and nodes, and of these distances.
pub fn machine(
    rt: &impl Abort,
    alloc: Global,
    cpus: &[(u32, u32, u32)],
    table: &[&[u32]],
) -> Result<Machine, MachineError> {
    let rows = rows(rt, alloc, cpus);
    let distances = distances(rt, alloc, table);
    let (rows, distances) = (rows.as_slice(), distances.as_slice());
    assert!(rt; 0 < rows.len() && rows.len() <= MAX_CPUS as usize);
    assert!(rt; have_nodes(rows));
    assert!(rt; have_distances(distances));
    Machine::read(alloc, rows, distances)
}

fn rows(rt: &impl Abort, alloc: Global, cpus: &[(u32, u32, u32)]) -> Items<CpuRow> {
    let mut rows = Items::new(alloc);
    for (core, cache, node) in cpus {
        let row = CpuRow {
            core: *core,
            cache: *cache,
            node: *node,
        };
        assert!(rt; rows.push(row).is_ok());
    }
    rows
}

fn distances(rt: &impl Abort, alloc: Global, table: &[&[u32]]) -> Items<Items<u32>> {
    let mut distances = Items::new(alloc);
    for row in table {
        let Ok(row) = Items::from_slice(alloc, row) else {
            panic!(rt; "no room")
        };
        assert!(rt; distances.push(row).is_ok());
    }
    distances
}

fn have_nodes(rows: &[CpuRow]) -> bool
    ensures { result ≡ nodes_in_range rows.now }
{
    rows.iter().all(|row| row.node < MAX_NODES)
}

fn has_distances(row: &[u32]) -> bool
    ensures { result ≡ list_all (λ d. nat_lt d (MAX_DISTANCE + 1)) row.now }
{
    row.iter().all(|d| *d < MAX_DISTANCE + 1)
}

fn have_distances(table: &[Items<u32>]) -> bool
    ensures { result ≡ distances_in_range table.now }
{
    table.iter().all(|row| has_distances(row.as_slice()))
}
