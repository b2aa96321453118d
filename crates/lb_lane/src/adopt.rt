//! A lane takes up a version for a turn.
ghost use Rattle.std.specs.Prelude.{◌≡◌, ◌≤◌, true, IfOk, OnErr};
ghost use Rattle.lb_lane.specs.Own.{DrewNothing};
ghost use Rattle.lb_lane.specs.Uses.{Adopted, IsChosen, use_due};

use crate::chosen::Chosen;
use crate::lane::Lane;
use crate::room::make_room;
use crate::versions::Versions;
use lb_base::{Items, Kind, NoMemory};
use lb_cell::laws::saw_stays;
use lb_cell::{Cell, Names, Shared};
use lb_core::What;
use lb_journal::laws::uses_stay;
use std::alloc::Global;
use std::sync::Wait;

impl<N: Names + Versions> Lane<N> {
    /// Draws the `use` of a chosen version, in the hold of the lock of the queue that answers it: its ticket is above all
    /// that the queue has drawn. It refuses for want of memory alone, and draws nothing then.
    pub(crate) fn adopt<R: Wait>(
        &mut self,
        rt: &R,
        alloc: Global,
        shared: &Shared<'_, N>,
        cell: &mut Cell<N>,
        chosen: Chosen,
        kind: Kind,
    ) -> Result<u64, NoMemory>
        requires chosen { IsChosen N.header self.old chosen }
        requires due { use_due self.old.side.course.form self.old.side.course kind chosen.cpu ≡ true }
        ensures cell { cell.new ≡ cell.old }
        ensures ok { IfOk result (λ ticket. Adopted N.header cell.old self.old self.new chosen kind ticket) }
        ensures refused { OnErr result (DrewNothing self.old self.new) }
    {
        // what it saw is seen still, and what it read it has read still
        saw_stays();
        uses_stay();
        self.side.keeps();
        make_room(rt, &mut self.side)?;
        self.side.follow_queue(shared, cell);
        let Chosen {
            version,
            masks,
            cpu,
            domains,
        } = chosen;
        let what = What::Adopt { version, kind, cpu };
        let figs = Items::new(alloc);
        let ticket = self.side.draw(alloc, shared, what, None, masks, figs);
        self.turned = cpu;
        self.domains = domains;
        Ok(ticket)
    }
}
