//! What the values read of the engine.
ghost use Rattle.std.specs.Prelude.{◌≡◌, ◌<◌, is_some};
ghost use Rattle.lb_queue.specs.Requests.{has_owed, has_pending};
ghost use Rattle.lb_core.specs.Stage.{push_is_due};
ghost use Rattle.lb_core.specs.Machine.{owned_queue};
ghost use Rattle.lb_core.specs.Elsewhere.{is_rest, all_rest, first_pending};
ghost use Rattle.lb_ready.specs.Ready.{IsReady};
ghost use Rattle.lb_due.specs.Owners.{HasQueue};

use lb_core::{Course, Form, Owner};
use lb_engine::Engine;
use lb_queue::Queue;
use lb_queue::laws::next_stops;

/// The queue that owns an entry.
pub fn queue_of(engine: &Engine, owner: Owner) -> &Queue
    requires { HasQueue engine.now.machine owner }
    ensures { result.now.state ≡ owned_queue owner engine.now.machine }
{
    match owner {
        Owner::Queue(cpu) => engine.queue(cpu),
        Owner::Lane(_) | Owner::Publisher => unreachable!(),
    }
}

/// Whether a stop request is owed.
pub fn has_owed(queue: &Queue) -> bool
    ensures { result ≡ has_owed queue.now.state }
{
    // a stop is next where one is owed
    next_stops();
    queue.next_stop(true).is_some()
}

/// Whether a stop request is pending.
pub fn has_pending(queue: &Queue) -> bool
    ensures { result ≡ has_pending queue.now.state }
{
    // a stop is next where one is pending
    next_stops();
    queue.next_stop(false).is_some()
}

/// Whether a push is due at a tick.
pub fn push_is_due(course: &Course, queue: &Queue) -> bool
    ensures { result ≡ push_is_due course.now queue.now.state }
{
    queue.active().is_some() && !course.pushed
}

/// Whether the form is rest.
pub fn is_rest(form: Form) -> bool
    ensures { result ≡ is_rest form }
{
    match form {
        Form::Rest => true,
        _ => false,
    }
}

/// Whether every lane is at rest.
pub fn all_rest(engine: &Engine) -> bool
    requires { IsReady engine.now.machine }
    ensures { result ≡ all_rest engine.now.machine }
{
    for lane in 0..engine.lanes() {
        if !is_rest(engine.course(lane).form) {
            return false;
        }
    }
    true
}

/// The least CPU with a pending stop request.
pub fn first_pending(engine: &Engine) -> Option<u32>
    requires { IsReady engine.now.machine }
    ensures { result ≡ first_pending engine.now.machine }
{
    for cpu in 0..engine.cpus() {
        if has_pending(engine.queue(cpu)) {
            return Some(cpu);
        }
    }
    None
}
