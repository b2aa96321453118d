//! The lines of the CPUs of a topology.
ghost use Rattle.std.specs.Prelude.{◌≡◌, ◌∷◌, ◌++◌, [], ◌<◌, length, codes, decimal, OnOk};
ghost use Rattle.std.specs.List.{flat_map};
ghost use Rattle.lb_domain.specs.Domains.{domains_at, domain_at};
ghost use Rattle.lb_topo.specs.Text.{level_text, groups_text, cpu_text, domain_line, cpu_lines, cpus_lines};

use lb_base::{LevelName, NoMemory};
use lb_domain::Topology;
use lb_text::{put_list, put_number};

// Appends the name of a level.
fn put_level(name: LevelName, to: &mut Vec<u8>) -> Result<(), NoMemory>
    ensures { OnOk result (to.new.items ≡ to.old.items ++ level_text name) }
{
    match name {
        LevelName::Smt => to.extend_from_slice(b"SMT")?,
        LevelName::Mc => to.extend_from_slice(b"MC")?,
        LevelName::Pkg => to.extend_from_slice(b"PKG")?,
        LevelName::Numa(distance) => {
            to.extend_from_slice(b"NUMA")?;
            put_number(u64::from(distance), to)?;
        }
    }
    Ok(())
}

// Appends the groups of a domain, each behind a bar.
fn put_groups(
    topology: &Topology,
    cpu: u32,
    position: u32,
    to: &mut Vec<u8>,
) -> Result<(), NoMemory>
    requires cpu { cpu < length topology.now.all }
    requires position { position < length (domains_at topology.now.all cpu) }
    ensures { OnOk result (to.new.items ≡ to.old.items ++ groups_text (domain_at (domains_at topology.now.all cpu) position).groups) }
{
    for i in 0..topology.groups(cpu, position) {
        to.extend_from_slice(b" | ")?;
        put_list(topology.group(cpu, position, i), to)?;
    }
    Ok(())
}

// Appends what each line of a CPU begins with.
fn put_cpu(cpu: u32, to: &mut Vec<u8>) -> Result<(), NoMemory>
    ensures { OnOk result (to.new.items ≡ to.old.items ++ cpu_text cpu) }
{
    to.extend_from_slice(b"cpu ")?;
    put_number(u64::from(cpu), to)?;
    to.extend_from_slice(b" ")?;
    Ok(())
}

// Appends the line of a domain.
#[tactic(auto, unfolding(crate::specs::Text::domain_line))]
fn put_domain(
    topology: &Topology,
    cpu: u32,
    position: u32,
    to: &mut Vec<u8>,
) -> Result<(), NoMemory>
    requires cpu { cpu < length topology.now.all }
    requires position { position < length (domains_at topology.now.all cpu) }
    ensures { OnOk result (to.new.items ≡ to.old.items ++ domain_line cpu (domain_at (domains_at topology.now.all cpu) position)) }
{
    let shape = topology.shape(cpu, position);
    put_cpu(cpu, to)?;
    put_level(shape.name, to)?;
    to.extend_from_slice(b" ")?;
    put_list(shape.span, to)?;
    put_groups(topology, cpu, position, to)?;
    to.extend_from_slice(b"\n")?;
    Ok(())
}

// Appends the lines of a CPU's domains.
fn put_domains(topology: &Topology, cpu: u32, to: &mut Vec<u8>) -> Result<(), NoMemory>
    requires { cpu < length topology.now.all }
    ensures { OnOk result (to.new.items ≡ to.old.items ++ flat_map (domain_line cpu) (domains_at topology.now.all cpu)) }
{
    for position in 0..topology.count(cpu) {
        put_domain(topology, cpu, position, to)?;
    }
    Ok(())
}

// Appends the lines of a CPU.
fn put_cpu_lines(topology: &Topology, cpu: u32, to: &mut Vec<u8>) -> Result<(), NoMemory>
    requires { cpu < length topology.now.all }
    ensures { OnOk result (to.new.items ≡ to.old.items ++ cpu_lines cpu (domains_at topology.now.all cpu)) }
{
    if topology.count(cpu) > 0 {
        return put_domains(topology, cpu, to);
    }
    put_cpu(cpu, to)?;
    to.extend_from_slice(b"-\n")?;
    Ok(())
}

// Appends the lines of all CPUs, of which there are so many.
pub(crate) fn put_cpus(topology: &Topology, cpus: u32, to: &mut Vec<u8>) -> Result<(), NoMemory>
    requires { length topology.now.all ≡ cpus }
    ensures { OnOk result (to.new.items ≡ to.old.items ++ cpus_lines 0 topology.now.all) }
{
    for cpu in 0..cpus {
        put_cpu_lines(topology, cpu, to)?;
    }
    Ok(())
}
