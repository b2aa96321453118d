//! The text of a trace's topologies (docs/rules/topology-text.md).
ghost use Rattle.std.specs.Prelude.{◌≡◌, ◌++◌, None, length, IfOk, OnOk};
ghost use Rattle.std.specs.List.{filter_map};
ghost use Rattle.lb_levels.specs.Faults.{parts_fault_of};
ghost use Rattle.lb_trace.specs.Accepted.{IsTrace};
ghost use Rattle.lb_topo.specs.Text.{version_text, versions_text, rebuilt, topology_text};

use crate::lines::put_cpus;
use lb_base::{Mask, NoMemory};
use lb_domain::Topology;
use lb_levels::Machine;
use lb_text::put_number;
use lb_trace::{Command, Trace};
use std::alloc::Global;

/// The text of a trace's topologies (docs/rules/topology-text.md): for each version the domains of
/// every CPU, from the bottom, with their groups in ring order. Version 1 has the masks of the
/// header, and each rebuild, in file order, makes the next. Every accepted trace meets the condition.
#[tactic(auto, unfolding(crate::specs::Text::topology_text))]
pub fn topology_text(alloc: Global, trace: &Trace) -> Result<Vec<u8>, NoMemory>
    requires { IsTrace trace.now }
    ensures { IfOk result (λ text. text.items ≡ topology_text trace.now) }
{
    let machine = trace.header.machine(alloc)?;
    let mut text = Vec::new(alloc);
    put_version(alloc, &machine, 1, trace.header.parts.as_slice(), &mut text)?;
    put_rebuilds(alloc, &machine, trace, &mut text)?;
    Ok(text)
}

// Appends the lines of a version.
#[tactic(auto, unfolding(crate::specs::Text::version_text))]
fn put_version(
    alloc: Global,
    machine: &Machine,
    version: u64,
    parts: &[Mask],
    to: &mut Vec<u8>,
) -> Result<(), NoMemory>
    requires { parts_fault_of (length machine.now.cpus) parts.now ≡ None }
    ensures { OnOk result (to.new.items ≡ to.old.items
        ++ version_text machine.now.cpus machine.now.distances version parts.now) }
{
    let topology = Topology::of(alloc, machine, parts)?;
    to.extend_from_slice(b"version ")?;
    put_number(version, to)?;
    to.extend_from_slice(b"\n")?;
    put_cpus(&topology, machine.cpus(), to)
}

// Appends the version of each rebuild of a trace, from version 2 on. The machine is the trace's.
fn put_rebuilds(
    alloc: Global,
    machine: &Machine,
    trace: &Trace,
    to: &mut Vec<u8>,
) -> Result<(), NoMemory>
    requires accepted { IsTrace trace.now }
    requires machine { length machine.now.cpus ≡ length trace.now.header.cpus }
    ensures { OnOk result (to.new.items ≡ to.old.items
        ++ versions_text machine.now.cpus machine.now.distances 2 (filter_map (λ row. rebuilt row.command) trace.now.rows)) }
{
    let mut version = 2;
    for row in trace.rows.as_slice() {
        if let Command::Rebuild { parts } = &row.command {
            put_version(alloc, machine, version, parts.as_slice(), to)?;
            version += 1;
        }
    }
    Ok(())
}
