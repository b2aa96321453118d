//! Which stop request of a queue is served next.
ghost use Rattle.lb_base.specs.Sets.{least};
ghost use Rattle.std.specs.Prelude.{◌≡◌, ◌≤◌, ℕ, IfSome, Some, min, reverse, unwrap_or, if◌then◌else◌};
ghost use Rattle.lb_queue.specs.Lists.{IsLeastAsked};
ghost use Rattle.lb_queue.specs.Hands.{stop_goes};
ghost use Rattle.lb_queue.specs.Requests.{asks, next_asked, stop_of};
ghost use Rattle.lb_queue.specs.Tasks.{occurs, awake_ids, awake_with};

use crate::answers::Stop;
use crate::awake::Awake;
use crate::by_id::place_of_awake;

// The stop request of the least id, of the owed ones only if asked, in a list that is kept from the
// back to the front.
pub(crate) fn next_stop(awake: &[Awake], owed: bool) -> Option<Stop>
    requires { (u : ℕ) → occurs u (awake_ids awake.now) ≤ 1 }
    ensures value { result ≡ stop_of (next_asked owed (reverse awake.now)) }
    ensures goes { IfSome result (λ s. stop_goes (awake_with s.id (reverse awake.now)) ≡ Some s.to) }
{
    match least_asked(awake, owed) {
        Some(id) => stop_of(awake, id),
        None => None,
    }
}

// The least id of the tasks that are asked to leave.
fn least_asked(awake: &[Awake], owed: bool) -> Option<u32>
    ensures { IsLeastAsked owed awake.now result }
{
    let mut least = None;
    for a in awake {
        least = least_with(least, a, owed);
    }
    least
}

// The least id, with one task more.
fn least_with(least: Option<u32>, a: &Awake, owed: bool) -> Option<u32>
    ensures { result ≡ (if asks owed a.now then Some (min (unwrap_or least a.now.task.id) a.now.task.id) else least) }
{
    if !a.asks(owed) {
        return least;
    }
    let id = a.task.id();
    Some(least.unwrap_or(id).min(id))
}

// The request of a task goes to the least CPU of its mask.
fn stop_of(awake: &[Awake], id: u32) -> Option<Stop>
    requires { occurs id (awake_ids awake.now) ≤ 1 }
    ensures value { result ≡ stop_of (awake_with id (reverse awake.now)) }
    ensures goes { IfSome result (λ s. IfSome (awake_with id (reverse awake.now)) (λ a. least a.task.mask ≡ Some s.to)) }
{
    match place_of_awake(awake, id) {
        Some(at) => Some(awake[at].stop_request()),
        None => None,
    }
}
