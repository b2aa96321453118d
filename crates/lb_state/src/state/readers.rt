//! What can be read of a state. No reader takes memory.
ghost use Rattle.std.specs.Prelude.{◌≡◌, ◌<◌, ◌≤◌, length};
ghost use Rattle.std.specs.List.{slice_index_or};
ghost use Rattle.lb_base.specs.Figures.{no_fig};
ghost use Rattle.lb_domain.specs.Topologies.{domains_within};
ghost use Rattle.lb_core.specs.Machine.{queue_at, course_at, figures_at, entries_at, masks_at, place_at};

use super::State;
use lb_base::Fig;
use lb_core::{Course, Place};
use lb_domain::Topology;
use lb_queue::Queue;
use lb_trace::Header;

impl State {
    /// What the trace declares.
    pub fn header(&self) -> &Header
        ensures { result.now ≡ self.now.header }
    {
        self.engine.header()
    }

    /// How many lanes there are, numbered from 0.
    pub fn lanes(&self) -> u32
        ensures { result ≡ length self.now.courses }
    {
        self.engine.lanes()
    }

    /// The run queue of a CPU (docs/rules/queue.md).
    pub fn queue(&self, cpu: u32) -> &Queue
        requires { cpu < length self.now.queues }
        ensures { result.now.state ≡ queue_at self.now.queues cpu }
    {
        self.engine.queue(cpu)
    }

    /// The newest figure of a CPU (docs/rules/queue.md).
    pub fn figure(&self, cpu: u32) -> &Fig
        requires { cpu < length self.now.queues }
        ensures { result.now ≡ slice_index_or (figures_at self.now.figures cpu) (entries_at self.now cpu) no_fig }
    {
        let figures = self.engine.figures(cpu);
        &figures[figures.len() - 1]
    }

    /// The number of the last published version, from 1 (docs/rules/lanes.md).
    pub fn version(&self) -> u64
        ensures { result ≡ length self.now.versions }
    {
        self.engine.version()
    }

    /// The domains of each CPU within the masks of the last published version (docs/rules/domains.md).
    pub fn topology(&self) -> &Topology
        ensures { result.now ≡ domains_within self.now.header.cpus self.now.header.distances (masks_at self.now (length self.now.versions)) }
    {
        self.engine.topology_of(self.engine.version())
    }

    /// The domains of each CPU within the masks of a version that was published.
    pub fn topology_of(&self, version: u64) -> &Topology
        requires some { 1 ≤ version }
        requires published { version ≤ length self.now.versions }
        ensures { result.now ≡ domains_within self.now.header.cpus self.now.header.distances (masks_at self.now version) }
    {
        self.engine.topology_of(version)
    }

    /// Where a task is: on which queue, or in the hand of which lane.
    pub fn place(&self, task: u32) -> Place
        requires { task < length self.now.places }
        ensures { result ≡ place_at self.now task }
    {
        self.engine.place(task)
    }

    /// The course of a lane: what it may draw next.
    pub fn course(&self, lane: u32) -> &Course
        requires { lane < length self.now.courses }
        ensures { result.now ≡ course_at self.now.courses lane }
    {
        self.engine.course(lane)
    }

    /// The ticket of a lane's last entry; 0 where it has none.
    pub fn last(&self, lane: u32) -> u64
        requires { lane < length self.now.courses }
        ensures { result ≡ slice_index_or self.now.last lane 0 }
    {
        self.engine.last(lane)
    }

    /// Whether the end was drawn: no entry may be added then.
    pub fn has_ended(&self) -> bool
        ensures { result ≡ self.now.ended }
    {
        self.engine.has_ended()
    }
}
