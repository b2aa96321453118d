//! A lane looks for a tickless CPU, after a tick's turn.
ghost use Rattle.std.specs.Prelude.{◌≡◌, IfOk, OnErr, length};
ghost use Rattle.lb_core.specs.Course.{widest_span};
ghost use Rattle.lb_lane.specs.Own.{SameRest, Unmoved};
ghost use Rattle.lb_lane.specs.Scans.{LaneScanned, MayScan, ScanAsks, Scanned};

use crate::enter::enter_above;
use crate::figures::{names_of, read_all};
use crate::lane::Lane;
use crate::versions::Versions;
use lb_base::{Mask, NoMemory};
use lb_cell::laws::saw_stays;
use lb_cell::{Lane as Side, Names, Shared};
use lb_core::What;
use lb_course::tickless_in;
use lb_domain::laws::spans_lie_inside;
use lb_journal::laws::uses_stay;
use std::alloc::Global;
use std::sync::Wait;

// The scan, of the lane's side alone.
fn scan_at<N: Names, R: Wait>(
    rt: &R,
    alloc: Global,
    shared: &Shared<'_, N>,
    side: &mut Side<N>,
    span: Mask,
) -> Result<Option<u32>, NoMemory>
    requires span { span ≡ widest_span N.header side.old.course }
    requires may { MayScan N.header (length N.board) side.old }
    ensures ok { IfOk result (λ target. Scanned N.header (length N.board) side.old side.new target) }
    ensures refused { OnErr result (Unmoved side.old side.new) }
{
    side.keeps();
    let due = span.without(side.course().excluded);
    let figs = read_all(rt, alloc, shared, side, due)?;
    let figures = names_of(alloc, figs.as_slice())?;
    let target = tickless_in(figs.as_slice()).first();
    let what = What::Scan { figures, target };
    enter_above(rt, alloc, shared, side, what, figs)?;
    Ok(target)
}

impl<N: Names + Versions> Lane<N> {
    /// Scans after a tick's turn: reads a figure of each CPU of the widest domain, and draws the scan above their tickets.
    /// It answers the CPU that is to be kicked: the least that just these figures show tickless. It refuses for want of
    /// memory alone, and draws nothing then. It waits while figures are written.
    pub fn scan<R: Wait>(
        &mut self,
        rt: &R,
        alloc: Global,
        shared: &Shared<'_, N>,
    ) -> Result<Option<u32>, NoMemory>
        requires { ScanAsks N.header self.old }
        ensures ok { IfOk result (λ target. LaneScanned N.header (length N.board) self.old self.new target) }
        ensures refused { OnErr result (Unmoved self.old.side self.new.side) }
        ensures rest { SameRest self.old self.new }
    {
        // what it saw and read stays; the span of a domain lies within the machine
        saw_stays();
        uses_stay();
        spans_lie_inside();
        self.side.keeps();
        let widest = self.domains.get(self.domains.len() - 1);
        let target = scan_at(rt, alloc, shared, &mut self.side, widest.shape.span)?;
        Ok(target)
    }
}
