//! The publication of a version.
ghost use Rattle.std.specs.Prelude.{◌≡◌, ◌+◌, ◌<◌, ◌^◌, IfOk, OnErr, OnOk, length};
ghost use Rattle.lb_ticket.specs.Seats.{KeepsView};
ghost use Rattle.lb_lane.specs.Publishes.{Published, PublishedNothing, RebuildAsks};

use crate::lane::Lane;
use crate::publisher::{PublisherCell, tell};
use crate::versions::Versions;
use lb_base::NoMemory;
use lb_cell::{MAX_ENTRIES, Names, Shared};
use lb_domain::Topology;
use lb_journal::Journal;
use lb_levels::Machine;
use lb_ticket::Seat;
use lb_trace::Command;
use std::alloc::Global;
use std::sync::Wait;

// Waits until the list can take an entry more. No run draws so many that it cannot, so the first test succeeds.
fn wait_until_it_can_grow<R: Wait>(rt: &R, seat: &Seat<Journal>)
    ensures { length seat.now.list + 1 < 2 ^ 40 }
{
    for _ in rt.forever() {
        if seat.len() < MAX_ENTRIES - 1 {
            return;
        }
    }
    unreachable!()
}

// Makes room for an entry. It refuses for want of memory alone.
fn make_room<R: Wait>(rt: &R, seat: &mut Seat<Journal>) -> Result<(), NoMemory>
    ensures same { (seat.new.table ≡ seat.old.table) × (seat.new.number ≡ seat.old.number) × (seat.new.list ≡ seat.old.list) }
    ensures short { length seat.new.list + 1 < 2 ^ 40 }
    ensures view { KeepsView seat.old seat.new }
    ensures ok { OnOk result (0 < seat.new.spare) }
{
    wait_until_it_can_grow(rt, seat);
    seat.reserve(1)
}

impl<N: Names + Versions> PublisherCell<N> {
    /// Publishes the masks of a `rebuild` as a new version, draws its `pub`, and tells the lane's looker of it, all in one
    /// hold of the lock; it answers the version. A refusal, for want of memory alone, publishes and draws nothing. It
    /// waits until no looker looks at the version before the last.
    pub fn publish<R: Wait>(
        &mut self,
        rt: &R,
        alloc: Global,
        shared: &Shared<'_, N>,
        machine: &Machine,
        lane: &mut Lane<N>,
    ) -> Result<u64, NoMemory>
        requires machine { (machine.now.cpus ≡ N.header.cpus) × (machine.now.distances ≡ N.header.distances) }
        requires asked { RebuildAsks N.header lane.old.side.course }
        ensures ok { IfOk result (λ version. Published N.header self.old self.new lane.old lane.new version) }
        ensures refused { OnErr result (PublishedNothing self.old self.new lane.old lane.new) }
    {
        lane.side.keeps();
        let Some(Command::Rebuild { parts }) = &lane.side.course().command else {
            unreachable!()
        };
        let topology = Topology::of(alloc, machine, parts.as_slice())?;
        make_room(rt, &mut self.seat)?;
        let version = self.publisher.publish(rt, alloc, topology)?;
        tell(rt, &mut lane.looker, &mut self.publisher);
        lane.side.draw_pub(alloc, shared, &mut self.seat, version);
        Ok(version)
    }
}
