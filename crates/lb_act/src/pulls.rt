//! What a pull sees of a queue, and what it picks there.
ghost use Rattle.std.specs.Prelude.{◌≡◌, ◌≤◌, length, vec_capacity, IfOk};
ghost use Rattle.lb_detach.specs.Picks.{picked_ids};
ghost use Rattle.lb_queue.specs.Values.{views};

use lb_base::{NoMemory, TaskView};
use lb_detach::{Env, Picked, picks};
use lb_queue::Queue;
use std::alloc::Global;

/// The awake tasks of a queue from the front to the back, as a pull sees them at the moment `at` (ns).
pub fn views_of(alloc: Global, queue: &Queue, at: u64) -> Result<Vec<TaskView>, NoMemory>
    ensures { IfOk result (λ list. list.items ≡ views queue.now.state at) }
{
    let mut views = Vec::with_capacity(alloc, queue.len() as usize)?;
    for i in 0..queue.len() {
        views.push_reserved(queue.view(at, i));
    }
    Ok(views)
}

/// What a pull picks at a queue at the moment `at` (ns), in lists that have room for the take itself.
pub fn picks_of(alloc: Global, queue: &Queue, at: u64, env: &Env) -> Result<Picked, NoMemory>
    ensures ids { IfOk result (λ p. p.ids.items ≡ picked_ids env.now (views queue.now.state at)) }
    ensures ids_room { IfOk result (λ p. length queue.now.state.awake ≤ vec_capacity p.ids) }
    ensures order_room { IfOk result (λ p. length queue.now.state.awake ≤ vec_capacity p.order) }
{
    let views = views_of(alloc, queue, at)?;
    let mut picked = Picked::new(alloc, views.len())?;
    picks(&views, env, &mut picked);
    Ok(picked)
}
