//! A topology: the domains of every CPU over some partition masks (docs/rules/domains.md).
ghost use Rattle.std.specs.Prelude.{◌≡◌, ◌<◌, ◌≤◌, ◌⊎◌, length, None, IfOk, IfErr, OnOk};
ghost use Rattle.std.specs.Option.{option_map};
ghost use Rattle.lb_levels.specs.Faults.{parts_fault_of};
ghost use Rattle.lb_domain.specs.Domains.{domains_at, domain_at, group_at};
ghost use Rattle.lb_domain.specs.Topologies.{AreFew, domains_within};
ghost use Rattle.lb_domain.specs.Errors.{as_error};
ghost use Rattle.lb_domain.specs.declared.topology.BuildError.TheVariants.{NoMemory as no_memory};

use crate::build::topology_of;
use crate::domain::Domain;
use lb_base::{Items, MAX_CPUS, Mask, NoMemory, Shape};
use lb_levels::{MAX_LEVELS, Machine, PartsFault, parts_fault};
use std::alloc::Global;
use std::marker::Model;

/// Why there is no topology for these masks (docs/rules/domains.md).
#[derive(Clone, Copy, Debug, PartialEq, Eq)]
pub enum BuildError {
    /// This mask, from 0, is the first with a CPU past the machine.
    NoSuchCpu {
        /// The mask.
        part: u32,
    },
    /// The second of these masks is the first that shares a CPU with one before it, and the first
    /// of them is the first that it shares one with.
    Overlap {
        /// The earlier mask.
        first: u32,
        /// The later mask.
        second: u32,
    },
    /// Memory ran out.
    NoMemory,
}

impl From<PartsFault> for BuildError {
    ghost from_gives = { λ fault made. made ≡ as_error fault };

    fn from(fault: PartsFault) -> Self {
        match fault {
            PartsFault::NoSuchCpu { part } => BuildError::NoSuchCpu { part },
            PartsFault::Overlap { first, second } => BuildError::Overlap { first, second },
        }
    }
}

impl From<NoMemory> for BuildError {
    ghost from_gives = { λ _ made. made ≡ no_memory };

    fn from(_: NoMemory) -> Self {
        BuildError::NoMemory
    }
}

/// The scheduling domains of every CPU (docs/rules/domains.md). Contracts see it as the masks that it
/// was made from, and the list of the CPUs' domains, each from the bottom.
#[derive(Debug, Drop)]
pub struct Topology {
    masks: Items<Mask>,
    all: Items<Items<Domain>>,
}

impl Model for Topology {
    ghost use Rattle.lb_domain.specs.Topologies.{DomainsWithin, IsSmall};

    ghost Value = { DomainsWithin };

    ghost view = { λ t. record { masks = t.masks; all = t.all } };

    ghost invariant = { λ t. IsSmall t.all };
}

impl Topology {
    /// The domains of each CPU of the machine within its mask, each of the masks being a partition
    /// of its own. A CPU in no mask has no domains.
    pub fn build(alloc: Global, machine: &Machine, parts: &[Mask]) -> Result<Topology, BuildError>
        ensures value { IfOk result (λ topology. topology ≡ domains_within machine.now.cpus machine.now.distances parts.now) }
        ensures all { IfOk result (λ topology. length topology.all ≡ length machine.now.cpus) }
        ensures good { OnOk result (parts_fault_of (length machine.now.cpus) parts.now ≡ None) }
        ensures refused { IfErr result (λ e. (e ≡ BuildError.NoMemory)
            ⊎ (option_map as_error (parts_fault_of (length machine.now.cpus) parts.now) ≡ Some e)) }
    {
        // No memory holds so many masks that their numbers do not fit a `u32`.
        if parts.len() > u32::MAX as usize {
            return Err(BuildError::NoMemory);
        }
        if let Some(fault) = parts_fault(machine, parts) {
            return Err(BuildError::from(fault));
        }
        Ok(Topology {
            masks: Items::from_slice(alloc, parts)?,
            all: topology_of(alloc, machine, parts)?,
        })
    }

    /// The masks that the domains are within, in the order in which they were given.
    pub fn masks(&self) -> &[Mask]
        ensures { result.now ≡ self.now.masks }
    {
        self.masks.as_slice()
    }

    /// The same for masks that part the CPUs of the machine: memory alone can run out.
    pub fn of(alloc: Global, machine: &Machine, parts: &[Mask]) -> Result<Topology, NoMemory>
        requires { parts_fault_of (length machine.now.cpus) parts.now ≡ None }
        ensures value { IfOk result (λ topology. topology ≡ domains_within machine.now.cpus machine.now.distances parts.now) }
        ensures all { IfOk result (λ topology. length topology.all ≡ length machine.now.cpus) }
    {
        match Topology::build(alloc, machine, parts) {
            Ok(topology) => Ok(topology),
            Err(BuildError::NoMemory) => Err(NoMemory),
            Err(_) => unreachable!(),
        }
    }

    /// The domains of a CPU, from the bottom: at most `MAX_LEVELS`, each with at most `MAX_CPUS` groups.
    pub fn domains(&self, cpu: u32) -> &[Domain]
        requires { cpu < length self.now.all }
        ensures domains { result.now ≡ domains_at self.now.all cpu }
        ensures few { AreFew result.now }
    {
        self.all.get(cpu as usize).as_slice()
    }

    /// How many domains a CPU has, at most `MAX_LEVELS`. Their positions are the numbers below that.
    pub fn count(&self, cpu: u32) -> u32
        requires { cpu < length self.now.all }
        ensures count { result ≡ length (domains_at self.now.all cpu) }
        ensures few { length (domains_at self.now.all cpu) ≤ MAX_LEVELS }
    {
        self.all.get(cpu as usize).len() as u32
    }

    /// The domain of a CPU at a position, from 0 at the bottom, without its groups.
    pub fn shape(&self, cpu: u32, position: u32) -> Shape
        requires cpu { cpu < length self.now.all }
        requires position { position < length (domains_at self.now.all cpu) }
        ensures { result ≡ (domain_at (domains_at self.now.all cpu) position).shape }
    {
        self.all.get(cpu as usize).get(position as usize).shape
    }

    /// How many groups the domain at a position has, at most `MAX_CPUS`.
    pub fn groups(&self, cpu: u32, position: u32) -> u32
        requires cpu { cpu < length self.now.all }
        requires position { position < length (domains_at self.now.all cpu) }
        ensures count { result ≡ length (domain_at (domains_at self.now.all cpu) position).groups }
        ensures few { length (domain_at (domains_at self.now.all cpu) position).groups ≤ MAX_CPUS }
    {
        self.all
            .get(cpu as usize)
            .get(position as usize)
            .groups
            .len() as u32
    }

    /// A group of the domain at a position, from 0 for the one that has the CPU.
    pub fn group(&self, cpu: u32, position: u32, i: u32) -> Mask
        requires cpu { cpu < length self.now.all }
        requires position { position < length (domains_at self.now.all cpu) }
        requires i { i < length (domain_at (domains_at self.now.all cpu) position).groups }
        ensures { result ≡ group_at (domain_at (domains_at self.now.all cpu) position) i }
    {
        *self
            .all
            .get(cpu as usize)
            .get(position as usize)
            .groups
            .get(i as usize)
    }
}
