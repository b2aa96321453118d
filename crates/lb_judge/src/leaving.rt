//! The rules `pick` and `flight`: which tasks leave a queue, and which land.
ghost use Rattle.std.specs.Prelude.{◌≡◌, ◌==◌, ◌||◌, not, IfOk, false};
ghost use Rattle.lb_queue.specs.Tasks.{ids};
ghost use Rattle.lb_core.specs.declared.rule.Rule.TheVariants as rule;
ghost use Rattle.lb_core.specs.Same.{same_cause, same_numbers};
ghost use Rattle.lb_core.specs.Step.{breaks};
ghost use Rattle.lb_ready.specs.Ready.{IsReady};

use lb_base::NoMemory;
use lb_core::{Course, Entry, What};
use lb_due::{Out, out_of_queue, queue_of};
use lb_engine::Engine;
use lb_queue::OutCause;
use std::alloc::Global;

/// Whether the entry breaks the rule `pick`.
#[tactic(auto, unfolding(lb_core::specs::Machine::sight, lb_core::specs::Leaving::leaving))]
pub(crate) fn breaks_pick(alloc: Global, engine: &Engine, entry: &Entry) -> Result<bool, NoMemory>
    requires ready { IsReady engine.now.machine }
    requires stage { breaks engine.now.machine entry.now rule.Stage ≡ false }
    ensures { IfOk result (λ broken. broken ≡ breaks engine.now.machine entry.now rule.Pick) }
{
    match &entry.what {
        What::Out { cause, to, ids } => {
            let course = engine.course(entry.lane);
            match out_of_queue(alloc, engine, course, queue_of(engine, entry.owner))? {
                None => Ok(true),
                Some(due) => Ok(is_other(&due, *cause, *to, ids.as_slice())),
            }
        }
        _ => Ok(false),
    }
}

// Whether other tasks leave, or for another reason or CPU.
fn is_other(due: &Out, cause: OutCause, to: u32, ids: &[u32]) -> bool
    ensures { result ≡ (not (same_cause cause due.now.cause) || not (to == due.now.to) || not (same_numbers ids.now due.now.ids)) }
{
    if cause != due.cause {
        return true;
    }
    to != due.to || !are_same(ids, due.ids.as_slice())
}

// Whether two lists of ids are equal.
fn are_same(one: &[u32], other: &[u32]) -> bool
    ensures { result ≡ same_numbers one.now other.now }
{
    if one.len() != other.len() {
        return false;
    }
    for i in 0..one.len() {
        if one[i] != other[i] {
            return false;
        }
    }
    true
}

/// Whether the entry breaks the rule `flight`.
#[tactic(auto, unfolding(lb_core::specs::Machine::sight))]
pub(crate) fn breaks_flight(engine: &Engine, entry: &Entry) -> bool
    requires ready { IsReady engine.now.machine }
    requires stage { breaks engine.now.machine entry.now rule.Stage ≡ false }
    ensures { result ≡ breaks engine.now.machine entry.now rule.Flight }
{
    match &entry.what {
        What::Landed { ids } => !is_hand(engine.course(entry.lane), ids.as_slice()),
        _ => false,
    }
}

// Whether these are the tasks in the hand, in their order.
fn is_hand(course: &Course, tasks: &[u32]) -> bool
    ensures { result ≡ same_numbers tasks.now (ids course.now.hand) }
{
    if tasks.len() != course.hand.len() {
        return false;
    }
    for i in 0..tasks.len() {
        if tasks[i] != course.hand.get(i).id {
            return false;
        }
    }
    true
}
