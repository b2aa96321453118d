//! The machine that a header describes, and the tests of a line that says something of it: a CPU, or a
//! node's distances.
ghost use Rattle.std.specs.Prelude.{◌≡◌, ◌≤◌, ◌<◌, ◌++◌, ◌∷◌, [], ℕ, List, true, IfOk, length};
ghost use Rattle.std.specs.List.{list_all};
ghost use Rattle.lb_levels.specs.Rows.{layout_of, clashes, cpu_clashes, distance, is_bad_entry, is_bad_distance, is_nested};
ghost use Rattle.lb_levels.specs.Faults.{nodes_of};
ghost use Rattle.lb_trace.specs.Accepted.{is_cpu, is_distance, IsHeader};
ghost use Rattle.lb_trace.specs.Sound.{has_size, StandsIfNested};

use crate::trace::Header;
use lb_base::{Items, MAX_CPUS, NoMemory};
use lb_levels::laws::a_machine_has_no_fault;
use lb_levels::{CpuRow, Machine, MachineError};
use std::alloc::Global;

fn clashes(a: CpuRow, b: CpuRow) -> bool
    ensures { result ≡ clashes a b }
{
    (a.core == b.core && !(a.cache == b.cache && a.node == b.node))
        || (a.cache == b.cache && a.node != b.node)
}

/// Whether a CPU cannot stand beside those before it.
#[tactic(auto, unfolding(lb_levels::specs::Rows::cpu_clashes))]
pub fn cpu_clashes(earlier: &[CpuRow], row: CpuRow) -> bool
    ensures { result ≡ cpu_clashes earlier.now row }
{
    earlier.iter().any(|other| clashes(*other, row))
}

/// How many nodes there are: 0 to the greatest that a CPU names.
pub fn nodes_of(cpus: &[CpuRow]) -> usize
    ensures { result ≡ nodes_of cpus.now }
{
    let mut nodes = 0;
    for row in cpus {
        nodes = nodes.max(row.node as usize + 1);
    }
    nodes
}

// The distance of node `b` from node `a`.
fn distance(distances: &[Items<u32>], nodes: usize, a: usize, b: usize) -> u32
    requires sizes { list_all (has_size nodes) distances.now ≡ true }
    requires from { a < length distances.now }
    requires to { b < nodes }
    ensures { result ≡ distance distances.now a b }
{
    *distances[a].get(b)
}

// Whether the entry for node `b` cannot stand in the last row, which is that of node `a`.
fn is_bad_entry(distances: &[Items<u32>], nodes: usize, a: usize, b: usize) -> bool
    requires sizes { list_all (has_size nodes) distances.now ≡ true }
    requires from { a < length distances.now }
    requires few { length distances.now ≤ nodes }
    requires to { b < nodes }
    ensures { result ≡ is_bad_entry distances.now a b }
{
    let own = distance(distances, nodes, 0, 0);
    let here = distance(distances, nodes, a, b);
    if b == a {
        here != own
    } else if here <= own {
        true
    } else {
        b < a && here != distance(distances, nodes, b, a)
    }
}

/// Whether the last row of distances cannot stand below those before it. There are so many nodes,
/// and each row has an entry for each of them.
pub fn is_bad_distance(distances: &[Items<u32>], nodes: usize) -> bool
    requires sizes { list_all (has_size nodes) distances.now ≡ true }
    requires some { 0 < length distances.now }
    requires few { length distances.now ≤ nodes }
    ensures { (earlier : List (List ℕ)) → (row : List ℕ) → distances.now ≡ earlier ++ row ∷ [] → result ≡ is_bad_distance earlier row }
{
    let a = distances.len() - 1;
    for b in 0..nodes {
        if is_bad_entry(distances, nodes, a, b) {
            return true;
        }
    }
    false
}

/// Whether the nodes are nested at each distance, where nothing else keeps the rows from being a
/// machine.
#[tactic(auto, using(crate::proofs::RangeFacts::nodes_range, crate::proofs::RangeFacts::distances_range))]
pub fn is_nested(alloc: Global, cpus: &[CpuRow], distances: &[Items<u32>]) -> Result<bool, NoMemory>
    requires some { 0 < length cpus.now }
    requires few { length cpus.now ≤ MAX_CPUS }
    requires cpus { list_all is_cpu cpus.now ≡ true }
    requires distances { list_all (list_all is_distance) distances.now ≡ true }
    requires stands { StandsIfNested cpus.now distances.now }
    ensures { IfOk result (λ nested. nested ≡ is_nested distances.now) }
{
    // Rows without another fault are a machine exactly where their nodes are nested.
    a_machine_has_no_fault();
    match Machine::read(alloc, cpus, distances) {
        Ok(_machine) => Ok(true),
        Err(MachineError::NoMemory) => Err(NoMemory),
        Err(_fault) => Ok(false),
    }
}

impl Header {
    /// The machine that it describes. Every header of an accepted trace meets the condition.
    #[tactic(auto, using(crate::proofs::RangeFacts::nodes_range, crate::proofs::RangeFacts::distances_range))]
    pub fn machine(&self, alloc: Global) -> Result<Machine, NoMemory>
        requires { IsHeader self.now }
        ensures { IfOk result (λ machine. machine ≡ layout_of self.now.cpus self.now.distances) }
    {
        match Machine::read(alloc, self.cpus.as_slice(), self.distances.as_slice()) {
            Ok(machine) => Ok(machine),
            Err(MachineError::NoMemory) => Err(NoMemory),
            Err(_) => unreachable!(),
        }
    }
}
