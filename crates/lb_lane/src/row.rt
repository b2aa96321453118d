//! A lane takes up its next row.
ghost use Rattle.std.specs.Prelude.{◌≡◌, ◌<◌, length, OnOk, OnErr};
ghost use Rattle.lb_core.specs.declared.course.Form.TheVariants as form;
ghost use Rattle.lb_lane.specs.Own.{DrewNothing, TookRow};

use crate::enter::enter;
use crate::lane::Lane;
use crate::versions::Versions;
use lb_base::{Items, NoMemory};
use lb_cell::laws::saw_stays;
use lb_cell::{Names, Shared};
use lb_core::What;
use lb_levels::laws::a_partition_has_no_fault;
use std::alloc::Global;
use std::sync::Wait;

impl<N: Names + Versions> Lane<N> {
    /// Takes up the lane's next row, while no row is in service. It refuses for want of memory alone, and draws nothing
    /// then.
    pub fn row<R: Wait>(
        &mut self,
        rt: &R,
        alloc: Global,
        shared: &Shared<'_, N>,
    ) -> Result<(), NoMemory>
        requires rest { self.old.side.course.form ≡ form.Rest }
        requires more { self.old.side.course.rows < length self.old.rows }
        ensures ok { OnOk result (TookRow N.header self.old self.new) }
        ensures refused { OnErr result (DrewNothing self.old self.new) }
    {
        // what it saw is seen still, and what an accepted row names is declared
        saw_stays();
        a_partition_has_no_fault();
        self.side.keeps();
        let taken = self.side.course().rows;
        let row = self.rows.get(taken as usize);
        let what = What::Row {
            number: taken + 1,
            at: row.at,
            command: row.command.copy(alloc)?,
        };
        let command = Some(row.command.copy(alloc)?);
        let (masks, figs) = (Items::new(alloc), Items::new(alloc));
        enter(
            rt,
            alloc,
            shared,
            &mut self.side,
            what,
            command,
            masks,
            figs,
        )?;
        Ok(())
    }
}
