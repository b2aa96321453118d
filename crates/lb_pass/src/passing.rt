//! One position of an open turn.
ghost use Rattle.std.specs.Prelude.{◌≡◌, IfOk, OnOk, OnErr};
ghost use Rattle.lb_lane.specs.Looks.{LookAsks};
ghost use Rattle.lb_lane_laws.specs.Stays.{SameRows, SameTurn};
ghost use Rattle.lb_pass.specs.Passes.{GoesOnAfter, HasSource, PassAsks, Passed, Settled, Stays, Stopped};

use crate::trying::attempt;
use lb_base::{Kind, NoMemory};
use lb_cell::Names;
use lb_cpu::Cpus;
use lb_interval::Outcome;
use lb_io::Gate;
use lb_journal::Journal;
use lb_lane::{Lane, Versions};
use lb_ticket::Coding;
use std::alloc::Global;
use std::sync::Wait;

// Attempts until no further look is due, or one moves nothing.
fn settle<N: Names + Versions, R: Wait, G: Gate>(
    rt: &R,
    alloc: Global,
    cpus: &Cpus<N>,
    lane: &mut Lane<N>,
    gate: &G,
) -> Result<(), NoMemory>
    requires { LookAsks N.header lane.old }
    ensures settled { OnOk result (Settled N.header N.book N.board ⟦<Journal as Coding>⟧.coding lane.old lane.new) }
    ensures stopped { OnErr result (Stopped N.header N.book N.board ⟦<Journal as Coding>⟧.coding lane.old lane.new) }
    ensures source { OnOk result (HasSource N.header lane.new) }
    ensures stays { Stays lane.old lane.new }
{
    for _ in rt.forever() {
        let pulled = attempt(rt, alloc, cpus, lane, gate)?;
        if !pulled {
            return Ok(());
        }
        if !lane.can_look() {
            return Ok(());
        }
    }
    unreachable!()
}

/// Makes the looks, takes and landings of one position of the lane's open turn, and its close, and answers how the position
/// ended (docs/rules/lanes.md, docs/rules/counters.md). After a take that found all that it examined pinned it looks again,
/// at the CPUs that are left. Of an outcome that asks for an active balance the request is still due. The lane passes the
/// gate after each look, between each `out` and its `in`, and after that.
///
/// It refuses for want of memory alone: what was drawn stands, no task is in a hand, and the position is not closed.
pub fn pass<N: Names + Versions, R: Wait, G: Gate>(
    rt: &R,
    alloc: Global,
    cpus: &Cpus<N>,
    lane: &mut Lane<N>,
    cpu: u32,
    position: u32,
    kind: Kind,
    gate: &G,
) -> Result<Outcome, NoMemory>
    requires { PassAsks N.header lane.old cpu position kind }
    ensures passed { IfOk result (λ outcome.
        Passed N.header N.book N.board ⟦<Journal as Coding>⟧.coding lane.old lane.new cpu outcome) }
    ensures goes_on { IfOk result (λ outcome.
        GoesOnAfter N.header outcome kind lane.old.side.course lane.new.side.course) }
    ensures stopped { OnErr result (Stopped N.header N.book N.board ⟦<Journal as Coding>⟧.coding lane.old lane.new) }
    ensures turn { SameTurn lane.old.side.course lane.new.side.course }
    ensures rows { SameRows lane.old lane.new }
{
    settle(rt, alloc, cpus, lane, gate)?;
    lane.keeps();
    let outcome = cpus.close(rt, alloc, lane)?;
    Ok(outcome)
}
