//! Copies of what a trace says.
ghost use Rattle.std.specs.Prelude.{◌≡◌, IfOk};

use crate::trace::{Command, Distances, Header};
use lb_base::{Items, NoMemory};
use std::alloc::Global;

// A copy of a table of distances.
fn copy_distances(alloc: Global, table: &Distances) -> Result<Distances, NoMemory>
    ensures { IfOk result (λ copy. copy ≡ table.now) }
{
    let mut rows = Items::new(alloc);
    for row in table.as_slice() {
        rows.push(Items::from_slice(alloc, row.as_slice())?)?;
    }
    Ok(rows)
}

impl Header {
    /// A copy of the header.
    pub fn copy(&self, alloc: Global) -> Result<Header, NoMemory>
        ensures { IfOk result (λ copy. copy ≡ self.now) }
    {
        Ok(Header {
            cpus: Items::from_slice(alloc, self.cpus.as_slice())?,
            distances: copy_distances(alloc, &self.distances)?,
            parts: Items::from_slice(alloc, self.parts.as_slice())?,
            lanes: self.lanes,
            tasks: Items::from_slice(alloc, self.tasks.as_slice())?,
        })
    }
}

impl Command {
    /// A copy of the command.
    pub fn copy(&self, alloc: Global) -> Result<Command, NoMemory>
        ensures { IfOk result (λ copy. copy ≡ self.now) }
    {
        Ok(match self {
            Command::Wake { task } => Command::Wake { task: *task },
            Command::Sleep { task } => Command::Sleep { task: *task },
            Command::Exit { task } => Command::Exit { task: *task },
            Command::SetMask { task, mask } => Command::SetMask {
                task: *task,
                mask: *mask,
            },
            Command::Nice { task, nice } => Command::Nice {
                task: *task,
                nice: *nice,
            },
            Command::Tick { cpu } => Command::Tick { cpu: *cpu },
            Command::Rebuild { parts } => Command::Rebuild {
                parts: Items::from_slice(alloc, parts.as_slice())?,
            },
        })
    }
}
