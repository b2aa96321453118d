//! What the last look asks for.
ghost use Rattle.std.specs.Prelude.{ℕ, ◌≡◌, ◌<◌, Some, length};
ghost use Rattle.lb_core.specs.Course.{domain_at, env_of, turn_domain, turn_domains};
ghost use Rattle.lb_imbalance.specs.declared.decision.Decision.TheVariants as decided;
ghost use Rattle.lb_queue.specs.Turns.{counters_at};
ghost use Rattle.lb_trace.specs.declared.trace.Header.{Header as HeaderIs};

use lb_base::{Kind, MoveKind};
use lb_core::Course;
use lb_course::turn_kind;
use lb_detach::Env;
use lb_domain::Domain;
use lb_queue::tries;

// How many pulls at the position in work failed before this turn.
fn failures(course: &Course) -> u32
    ensures { result ≡ (counters_at course.now.counters course.now.position).failures }
{
    let position = course.position as usize;
    if position < course.counters.len() {
        course.counters.get(position).failures
    } else {
        0
    }
}

/// What the take asks for that is due after a look which decided to pull.
pub(crate) fn asked_of(course: &Course, domain: &Domain, kind: MoveKind, imbalance: u64) -> Env
    requires { (source : ℕ) × (course.now.decision ≡ Some (decided.Pull source kind imbalance)) }
    ensures { (h : HeaderIs) → turn_domain h course.now ≡ domain.now → env_of h course.now ≡ Some result }
{
    Env {
        to: course.cpu,
        idle: course.idle,
        newly: turn_kind(course) == Kind::Idle,
        kind,
        imbalance,
        failures: failures(course),
        tries: tries(domain.shape.name),
    }
}
