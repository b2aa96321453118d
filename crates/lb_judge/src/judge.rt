//! The rules in the order in which they are asked.
ghost use Rattle.std.specs.Prelude.{◌≡◌, IfOk};
ghost use Rattle.lb_core.specs.Step.{first_broken};
ghost use Rattle.lb_ready.specs.Ready.{IsReady};
ghost use Rattle.lb_core.specs.declared.rule.Rule.TheVariants as rule;
ghost use Rattle.lb_core.specs.Step.{breaks};

use crate::answers::{breaks_owed, breaks_place, breaks_reply};
use crate::ends::breaks_end;
use crate::figures::{breaks_decision, breaks_figure};
use crate::leaving::{breaks_flight, breaks_pick};
use crate::rows::breaks_row;
use crate::stage::breaks_stage;
use crate::turns::breaks_counters;
use crate::versions::breaks_version;
use lb_base::NoMemory;
use lb_core::{Entry, Rule};
use lb_engine::Engine;
use std::alloc::Global;

/// The first rule that an entry at the next ticket breaks, or None where it may be added
/// (docs/rules/legality.md). It changes nothing.
#[tactic(auto, unfolding(lb_core::specs::Step::first_broken))]
pub fn first_broken(alloc: Global, engine: &Engine, entry: &Entry) -> Result<Option<Rule>, NoMemory>
    requires { IsReady engine.now.machine }
    ensures { IfOk result (λ rule. rule ≡ first_broken engine.now.machine entry.now) }
{
    if breaks_prev(engine, entry) {
        return Ok(Some(Rule::Prev));
    }
    if breaks_stage(engine, entry) {
        return Ok(Some(Rule::Stage));
    }
    if breaks_row(engine, entry) {
        return Ok(Some(Rule::Row));
    }
    if breaks_place(engine, entry) {
        return Ok(Some(Rule::Place));
    }
    if breaks_reply(engine, entry) {
        return Ok(Some(Rule::Reply));
    }
    if breaks_version(engine, entry) {
        return Ok(Some(Rule::Version));
    }
    if breaks_figure(engine, entry) {
        return Ok(Some(Rule::Figure));
    }
    if breaks_decision(engine, entry) {
        return Ok(Some(Rule::Decision));
    }
    if breaks_pick(alloc, engine, entry)? {
        return Ok(Some(Rule::Pick));
    }
    if breaks_flight(engine, entry) {
        return Ok(Some(Rule::Flight));
    }
    if breaks_counters(engine, entry) {
        return Ok(Some(Rule::Counters));
    }
    if breaks_owed(engine, entry) {
        return Ok(Some(Rule::Owed));
    }
    if breaks_end(engine, entry) {
        return Ok(Some(Rule::End));
    }
    Ok(None)
}

// Whether the entry does not name its lane's last ticket, which is 0 for an undeclared lane.
fn breaks_prev(engine: &Engine, entry: &Entry) -> bool
    requires { IsReady engine.now.machine }
    ensures { result ≡ breaks engine.now.machine entry.now rule.Prev }
{
    let last = if entry.lane < engine.lanes() {
        engine.last(entry.lane)
    } else {
        0
    };
    entry.prev != last
}
