//! A pull: tasks leave the source of the last look in a hand, and land at the turn's CPU.
ghost use Rattle.std.specs.Prelude.{ℕ, ◌≡◌, ◌<◌, Some, IfOk, OnOk, OnErr, length};
ghost use Rattle.lb_base.specs.declared.view.MoveKind.{MoveKind as MoveKindIs};
ghost use Rattle.lb_core.specs.Course.{env_of, turn_domain};
ghost use Rattle.lb_lane.specs.Lanes.{is_due};
ghost use Rattle.lb_pass.specs.Passes.{Carries, PullIsDue, Pulled};

use crate::asked::asked_of;
use lb_base::{MoveKind, NoMemory};
use lb_cell::Names;
use lb_cpu::Cpus;
use lb_detach::{EXAMINED_AT_MOST, Env};
use lb_io::{Gate, Point};
use lb_journal::Journal;
use lb_lane::{Lane, Versions};
use lb_queue::{Hand, OutCause};
use lb_ticket::Coding;
use std::alloc::Global;
use std::sync::Wait;

/// How many landings are booked for a pull: no more tasks leave by one.
const BOOKED: u64 = EXAMINED_AT_MOST as u64;

// What the take asks for that is due.
fn env<N: Names + Versions>(lane: &Lane<N>, kind: MoveKind, imbalance: u64) -> Env
    requires { (source : ℕ) × PullIsDue N.header lane.now.side.course source kind imbalance }
    ensures asked { env_of N.header lane.now.side.course ≡ Some result }
    ensures declared { result.to < length N.header.cpus }
{
    lane.keeps();
    let course = lane.side().course();
    let domain = &lane.domains()[course.position as usize];
    asked_of(course, domain, kind, imbalance)
}

// The tasks leave the source in a hand. The landing of a whole pull is booked before, and what they do not need of it is
// given up.
fn carry<N: Names + Versions, R: Wait>(
    rt: &R,
    alloc: Global,
    cpus: &Cpus<N>,
    lane: &mut Lane<N>,
    source: u32,
    env: &Env,
) -> Result<Hand, NoMemory>
    requires due { (kind : MoveKindIs) × (imbalance : ℕ) × PullIsDue N.header lane.old.side.course source kind imbalance }
    requires asked { env_of N.header lane.old.side.course ≡ Some env.now }
    requires declared { env.now.to < length N.header.cpus }
    ensures carries { IfOk result (λ hand.
        Carries N.header N.book N.board ⟦<Journal as Coding>⟧.coding lane.old lane.new source hand) }
    ensures refused { OnErr result (lane.new ≡ lane.old) }
{
    let mut hand = Hand::empty(alloc, env.to, EXAMINED_AT_MOST)?;
    if cpus.book(rt, env.to, BOOKED).is_err() {
        hand.put_away();
        return Err(NoMemory);
    }
    match cpus.take(rt, alloc, lane, source, env, &mut hand) {
        Ok(_taken) => {
            cpus.unbook_tasks(rt, env.to, BOOKED.saturating_sub(hand.len() as u64));
            Ok(hand)
        }
        Err(refused) => {
            cpus.unbook(rt, env.to, BOOKED);
            hand.put_away();
            Err(refused)
        }
    }
}

/// Pulls from the source what the last look decided. It refuses for want of memory alone: then no task is in a hand, and
/// nothing was drawn.
pub(crate) fn pull<N: Names + Versions, R: Wait, G: Gate>(
    rt: &R,
    alloc: Global,
    cpus: &Cpus<N>,
    lane: &mut Lane<N>,
    source: u32,
    kind: MoveKind,
    imbalance: u64,
    gate: &G,
) -> Result<(), NoMemory>
    requires { PullIsDue N.header lane.old.side.course source kind imbalance }
    ensures pulled { OnOk result (Pulled N.header N.book N.board ⟦<Journal as Coding>⟧.coding lane.old lane.new source) }
    ensures refused { OnErr result (lane.new ≡ lane.old) }
{
    let env = env(&*lane, kind, imbalance);
    let hand = carry(rt, alloc, cpus, lane, source, &env)?;
    gate.pass_here(lane.side().number(), Point::InHand);
    cpus.land(rt, alloc, lane, OutCause::Pull, hand);
    gate.pass_here(lane.side().number(), Point::AfterLand);
    Ok(())
}
