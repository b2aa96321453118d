//! The list of awake tasks as a pull examines it, and put in the order that it leaves.
ghost use Rattle.std.specs.Prelude.{◌≡◌, ◌==◌, ◌≤◌, ℕ, length, map, position, reverse, slice_get, unwrap_or, option_and_then, vec_capacity, vec_len, ◌-◌};
ghost use Rattle.lb_queue.specs.Hands.{in_order};
ghost use Rattle.lb_queue.specs.Pulls.{IsTurned};
ghost use Rattle.lb_queue.specs.Tasks.{occurs, awake_ids};
ghost use Rattle.lb_queue.specs.Values.{view_at};

use crate::awake::Awake;
use crate::by_id::place_of_awake;
use lb_base::TaskView;

// What a pull at a moment sees of the awake tasks, from the front to the back. They are kept from the
// back to the front.
pub(crate) fn fill_views(views: &mut Vec<TaskView>, awake: &[Awake], now: u64)
    requires { length awake.now ≤ vec_capacity views.old }
    ensures items { views.new.items ≡ map (view_at now) (reverse awake.now) }
    ensures capacity { vec_capacity views.new ≡ vec_capacity views.old }
{
    views.clear();
    for a in awake {
        views.push_reserved(a.view(now));
    }
    views.reverse();
}

// The awake tasks stand in an order from now on, which has two parts of them the other way round. They
// are kept from the back to the front, and the order runs from the front to the back.
pub(crate) fn set_order(awake: &mut Vec<Awake>, order: &[u32])
    requires once { (u : ℕ) → occurs u (awake_ids awake.old.items) ≤ 1 }
    requires turned { IsTurned (awake_ids (reverse awake.old.items)) order.now }
    ensures items { reverse awake.new.items ≡ in_order order.now (reverse awake.old.items) }
    ensures len { vec_len awake.new ≡ vec_len awake.old }
    ensures capacity { vec_capacity awake.new ≡ vec_capacity awake.old }
{
    let back = place_of_last(awake, order);
    awake.rotate_left(back);
}

// Where the last task of an order is, or 0 where there is none.
fn place_of_last(awake: &[Awake], order: &[u32]) -> usize
    ensures value { result ≡ unwrap_or (option_and_then (λ id. position (λ a. a.task.id == id) awake.now)
        (slice_get order.now (length order.now - 1))) 0 }
    ensures within { result ≤ length awake.now }
{
    match order.last() {
        Some(id) => place_of_awake(awake, *id).unwrap_or(0),
        None => 0,
    }
}
