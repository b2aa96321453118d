//! The looks and scans of a lane. They take no lock.
ghost use Rattle.std.specs.Prelude.{IfOk, OnErr, length};
ghost use Rattle.lb_lane.specs.Looks.{LaneLooked, LookAsks};
ghost use Rattle.lb_lane.specs.Own.{SameRest, Unmoved};
ghost use Rattle.lb_lane.specs.Scans.{LaneScanned, ScanAsks};

use crate::cpus::Cpus;
use lb_base::NoMemory;
use lb_cell::Names;
use lb_imbalance::Decision;
use lb_lane::{Lane, Versions};
use std::alloc::Global;
use std::sync::Wait;

impl<N: Names + Versions> Cpus<N> {
    /// Looks at the domain in work, as [`Lane::look`] does.
    pub fn look<R: Wait>(
        &self,
        rt: &R,
        alloc: Global,
        lane: &mut Lane<N>,
    ) -> Result<Decision, NoMemory>
        requires { LookAsks N.header lane.old }
        ensures ok { IfOk result (λ d. LaneLooked N.header (length N.board) lane.old lane.new d) }
        ensures refused { OnErr result (Unmoved lane.old.side lane.new.side) }
        ensures rest { SameRest lane.old lane.new }
    {
        lane.look(rt, alloc, &self.shared())
    }

    /// Looks for a tickless CPU after a tick's turn, as [`Lane::scan`] does.
    pub fn scan<R: Wait>(
        &self,
        rt: &R,
        alloc: Global,
        lane: &mut Lane<N>,
    ) -> Result<Option<u32>, NoMemory>
        requires { ScanAsks N.header lane.old }
        ensures ok { IfOk result (λ target. LaneScanned N.header (length N.board) lane.old lane.new target) }
        ensures refused { OnErr result (Unmoved lane.old.side lane.new.side) }
        ensures rest { SameRest lane.old lane.new }
    {
        lane.scan(rt, alloc, &self.shared())
    }
}
