//! A machine: its CPUs and the distances of its nodes (docs/rules/domains.md).
ghost use Rattle.std.specs.Prelude.{◌≡◌, ◌<◌, ◌≤◌, ◌⊎◌, true, IfOk, IfErr, OnOk, length};
ghost use Rattle.lb_levels.specs.Rows.{layout_of, nodes_in_range, distances_in_range};
ghost use Rattle.lb_levels.specs.Faults.{fault_of};
ghost use Rattle.lb_levels.specs.Spans.{levels_of, level_at, span_of};

use crate::cpu_row::CpuRow;
use crate::faults::MachineError;
use crate::limits::{MAX_LEVELS, MAX_NODES};
use crate::rows::{first_bad_row, first_clash, first_misfit, first_not_nested, nodes_of};
use crate::span::{levels_of, spans_of};
use lb_base::{Items, LevelName, MAX_CPUS, Mask, NoMemory};
use std::alloc::Global;
use std::marker::Model;

/// A machine whose CPUs are to be balanced (docs/rules/domains.md). Contracts see it as its rows
/// and distances.
#[derive(Debug, Drop)]
pub struct Machine {
    cpus: Items<CpuRow>,
    distances: Items<Items<u32>>,
    names: Items<LevelName>,
    spans: Items<Items<Mask>>,
}

impl Model for Machine {
    ghost use Rattle.std.specs.Prelude.{◌≡◌, None};
    ghost use Rattle.lb_levels.specs.Rows.{Layout};

    ghost Value = { Layout };

    ghost use Rattle.lb_levels.specs.Machines.{IsKept};

    ghost view = { λ m. record { cpus = m.cpus; distances = m.distances } };

    ghost invariant = { IsKept };
}

impl Machine {
    /// The machine of these CPUs, whose nodes have these distances. Each refusal names the first
    /// place that it holds of.
    pub fn read(
        alloc: Global,
        cpus: &[CpuRow],
        distances: &[Items<u32>],
    ) -> Result<Machine, MachineError>
        requires some { 0 < length cpus.now }
        requires few { length cpus.now ≤ MAX_CPUS }
        requires nodes { nodes_in_range cpus.now ≡ true }
        requires distances { distances_in_range distances.now ≡ true }

        ensures value { IfOk result (λ machine. machine ≡ layout_of cpus.now distances.now) }
        ensures good { OnOk result (fault_of cpus.now distances.now ≡ None) }
        ensures refused { IfErr result (λ e. (e ≡ MachineError.NoMemory) ⊎ (fault_of cpus.now distances.now ≡ Some e)) }
    {
        if let Some(fault) = fault_of(cpus, distances) {
            return Err(fault);
        }
        Machine::of_good(alloc, cpus, distances).map_err(MachineError::from)
    }

    // The machine of rows and distances without a fault.
    fn of_good(
        alloc: Global,
        cpus: &[CpuRow],
        distances: &[Items<u32>],
    ) -> Result<Machine, NoMemory>
        requires some { 0 < length cpus.now }
        requires few { length cpus.now ≤ MAX_CPUS }
        requires nodes { length distances.now ≤ MAX_NODES }
        requires good { fault_of cpus.now distances.now ≡ None }
        ensures { IfOk result (λ machine. machine ≡ layout_of cpus.now distances.now) }
    {
        let names = levels_of(alloc, distances)?;
        let spans = spans_of(alloc, cpus, distances, names.as_slice())?;
        Ok(Machine {
            cpus: Items::from_slice(alloc, cpus)?,
            distances: copy_of(alloc, distances)?,
            names,
            spans,
        })
    }

    /// How many CPUs there are, 1 to `MAX_CPUS`.
    pub fn cpus(&self) -> u32
        ensures count { result ≡ length self.now.cpus }
        ensures some { 0 < length self.now.cpus }
        ensures few { length self.now.cpus ≤ MAX_CPUS }
        ensures good { fault_of self.now.cpus self.now.distances ≡ None }
    {
        self.cpus.len() as u32
    }

    /// How many levels there are, 3 to `MAX_LEVELS`.
    pub fn levels(&self) -> u32
        ensures count { result ≡ length (levels_of self.now.distances) }
        ensures few { length (levels_of self.now.distances) ≤ MAX_LEVELS }
    {
        self.names.len() as u32
    }

    /// The name of a level, from 0 at the bottom.
    pub fn name(&self, level: u32) -> LevelName
        requires { level < length (levels_of self.now.distances) }
        ensures { result ≡ level_at self.now.distances level }
    {
        *self.names.get(level as usize)
    }

    /// The CPUs that share with a CPU what a level stands for, among them the CPU itself.
    pub fn span(&self, level: u32, cpu: u32) -> Mask
        requires level { level < length (levels_of self.now.distances) }
        requires cpu { cpu < length self.now.cpus }
        ensures { result ≡ span_of self.now.cpus self.now.distances (level_at self.now.distances level) cpu }
    {
        *self.spans.get(level as usize).get(cpu as usize)
    }
}

// The first fault of the rows and the table.
fn fault_of(cpus: &[CpuRow], distances: &[Items<u32>]) -> Option<MachineError>
    requires some { 0 < length cpus.now }
    requires few { length cpus.now ≤ MAX_CPUS }
    requires nodes { nodes_in_range cpus.now ≡ true }
    ensures { result ≡ fault_of cpus.now distances.now }
{
    if let Some(cpu) = first_clash(cpus) {
        return Some(MachineError::BadCpu { cpu });
    }
    if let Some(row) = first_misfit(nodes_of(cpus), distances) {
        return Some(MachineError::BadDistance { row });
    }
    if let Some(row) = first_bad_row(distances) {
        return Some(MachineError::BadDistance { row });
    }
    match first_not_nested(distances) {
        Some(distance) => Some(MachineError::NotNested { distance }),
        None => None,
    }
}

fn copy_of(alloc: Global, distances: &[Items<u32>]) -> Result<Items<Items<u32>>, NoMemory>
    ensures { IfOk result (λ copy. copy ≡ distances.now) }
{
    let mut copy = Items::new(alloc);
    for row in distances {
        copy.push(Items::from_slice(alloc, row.as_slice())?)?;
    }
    Ok(copy)
}
