//! An attempt of a lane to pull at the position in work: a look, and the pull that it decides for.
ghost use Rattle.std.specs.Prelude.{◌≡◌, true, IfOk, OnOk, OnErr, MatchBool, length};
ghost use Rattle.lb_lane.specs.Looks.{LaneLooked, LookAsks};
ghost use Rattle.lb_lane.specs.Own.{SameRest, Unmoved};
ghost use Rattle.lb_pass.specs.Passes.{AsksFurther, Attempted, HasSource, LookedInVain, StopsAt};

use crate::pulling::pull;
use lb_base::NoMemory;
use lb_cell::Names;
use lb_cpu::Cpus;
use lb_domain::laws::{groups_part_the_span, spans_lie_inside};
use lb_imbalance::Decision;
use lb_imbalance::laws::decision_is_the_choice;
use lb_io::{Gate, Point};
use lb_journal::Journal;
use lb_lane::{Lane, Versions};
use lb_ticket::Coding;
use std::alloc::Global;
use std::sync::Wait;

// A look, after which the lane passes the gate.
fn look<N: Names + Versions, R: Wait, G: Gate>(
    rt: &R,
    alloc: Global,
    cpus: &Cpus<N>,
    lane: &mut Lane<N>,
    gate: &G,
) -> Result<Decision, NoMemory>
    requires { LookAsks N.header lane.old }
    ensures ok { IfOk result (λ d. LaneLooked N.header (length N.board) lane.old lane.new d) }
    ensures refused { OnErr result (Unmoved lane.old.side lane.new.side) }
    ensures rest { SameRest lane.old lane.new }
{
    let decision = cpus.look(rt, alloc, lane)?;
    gate.pass_here(lane.side().number(), Point::AfterLook);
    Ok(decision)
}

/// A look, and the pull that it decides for. It answers whether it pulled. It refuses for want of memory alone: then no
/// task is in a hand, and a look at most was drawn.
pub(crate) fn attempt<N: Names + Versions, R: Wait, G: Gate>(
    rt: &R,
    alloc: Global,
    cpus: &Cpus<N>,
    lane: &mut Lane<N>,
    gate: &G,
) -> Result<bool, NoMemory>
    requires { LookAsks N.header lane.old }
    ensures ok { IfOk result (λ b. MatchBool b
        (Attempted N.header N.book N.board ⟦<Journal as Coding>⟧.coding lane.old lane.new)
        (LookedInVain N.header N.board lane.old lane.new)) }
    ensures source { OnOk result (HasSource N.header lane.new) }
    ensures further { OnOk result (AsksFurther N.header lane.new) }
    ensures refused { OnErr result (StopsAt N.header N.board lane.old lane.new) }
{
    // the source of a pull is a CPU of the machine, and not of the local group, none of which is ever excluded
    decision_is_the_choice();
    groups_part_the_span();
    spans_lie_inside();
    lane.keeps();
    match look(rt, alloc, cpus, lane, gate)? {
        Decision::Pull {
            source,
            kind,
            imbalance,
        } => {
            pull(rt, alloc, cpus, lane, source, kind, imbalance, gate)?;
            Ok(true)
        }
        Decision::NotMine | Decision::Balanced => Ok(false),
    }
}
