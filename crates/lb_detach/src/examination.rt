//! The examination of a source, from the back of its list (docs/rules/picked-list.md).
ghost use Rattle.std.specs.Prelude.{◌+◌, ◌-◌, ◌^◌, ◌∷◌, ◌++◌, [], if◌then◌else◌, ◌≡◌, ◌<◌, ◌≤◌, ◌==◌, ◌&&◌, ◌||◌, nat_le, nat_lt, length, map, vec_len, vec_capacity};
ghost use Rattle.lb_detach.specs.Rules.{amount_of, fails_mask, refuses};
ghost use Rattle.lb_detach.specs.Picks.{left_before, examined, picked_ids, kept_ids, some_pinned, all_pinned};

use crate::Env;
use crate::picked::Picked;
use crate::refusal::{amount, is_refused, may_run};
use lb_base::TaskView;

/// After so many tasks the examination goes on only while none of them may run at the destination. So
/// no more leave by one pull.
pub const EXAMINED_AT_MOST: usize = 32;

// How far an examination has come.
#[derive(Clone, Copy, Drop)]
struct Progress {
    // how many tasks were examined
    examined: usize,
    // how many of them may run at the destination
    free: usize,
    // what is left to move
    left: u64,
}

// The examination ends here, where so many tasks were taken of so many that were awake.
fn is_over(env: &Env, at: &Progress, taken: usize, awake: usize) -> bool
    requires { taken ≤ awake }
    ensures { result ≡ (at.now.left == 0 || (env.now.idle && nat_le (awake - taken) 1) ||
        (env.now.newly && nat_lt 0 taken) || (nat_le EXAMINED_AT_MOST at.now.examined && nat_lt 0 at.now.free)) }
{
    at.left == 0
        || (env.idle && awake - taken <= 1)
        || (env.newly && taken > 0)
        || (at.examined >= EXAMINED_AT_MOST && at.free > 0)
}

fn is_all_pinned(at: &Progress) -> bool
    ensures { result ≡ (nat_lt 0 at.now.examined && (at.now.free == 0)) }
{
    at.examined > 0 && at.free == 0
}

// One task more, which is taken or stays.
fn examine(env: &Env, task: &TaskView, at: &mut Progress, picked: &mut Picked)
    requires examined_fits { at.old.examined + 1 < 2 ^ 64 }
    requires free_fits { at.old.free + 1 < 2 ^ 64 }
    requires ids_room { vec_len picked.old.ids < vec_capacity picked.old.ids }
    requires order_room { vec_len picked.old.order < vec_capacity picked.old.order }

    ensures ids { picked.new.ids.items ≡
        (if refuses env.now task.now at.old.left then picked.old.ids.items else picked.old.ids.items ++ task.now.id ∷ []) }
    ensures order { picked.new.order.items ≡
        (if refuses env.now task.now at.old.left then picked.old.order.items ++ task.now.id ∷ [] else picked.old.order.items) }
    ensures left { at.new.left ≡ (if refuses env.now task.now at.old.left then at.old.left else at.old.left - amount_of env.now.kind task.now) }
    ensures free { at.new.free ≡ (if fails_mask env.now task.now then at.old.free else at.old.free + 1) }
    ensures examined { at.new.examined ≡ at.old.examined + 1 }

    ensures free_at_most { at.new.free ≤ at.old.free + 1 }
    ensures ids_len { vec_len picked.new.ids ≤ vec_len picked.old.ids + 1 }
    ensures order_len { vec_len picked.new.order ≤ vec_len picked.old.order + 1 }
    ensures ids_capacity { vec_capacity picked.new.ids ≡ vec_capacity picked.old.ids }
    ensures order_capacity { vec_capacity picked.new.order ≡ vec_capacity picked.old.order }
{
    if is_refused(env, task, at.left) {
        picked.order.push_reserved(task.id);
    } else {
        picked.ids.push_reserved(task.id);
        at.left = at.left.saturating_sub(amount(env.kind, task));
    }
    if may_run(task.mask, env.to) {
        at.free += 1;
    }
    at.examined += 1;
}

// Adds the ids of the tasks, in their order.
fn append_ids(order: &mut Vec<u32>, list: &[TaskView])
    requires { vec_len order.old + length list.now ≤ vec_capacity order.old }
    ensures items { order.new.items ≡ order.old.items ++ map (λ t. t.id) list.now }
    ensures capacity { vec_capacity order.new ≡ vec_capacity order.old }
{
    for task in list {
        order.push_reserved(task.id);
    }
}

/// Fills `picked` with what the pull takes out of the list and what it leaves there. `list` has
/// the awake tasks from the front to the back, and `picked` has room for all of them; its rooms
/// stay as they were. It takes no memory (docs/rules/picked-list.md).
pub fn picks(list: &[TaskView], env: &Env, picked: &mut Picked)
    requires ids_room { length list.now ≤ vec_capacity picked.old.ids }
    requires order_room { length list.now ≤ vec_capacity picked.old.order }

    ensures ids { picked.new.ids.items ≡ picked_ids env.now list.now }
    ensures order { picked.new.order.items ≡ kept_ids env.now list.now }
    ensures some_pinned { picked.new.some_pinned ≡ some_pinned env.now list.now }
    ensures all_pinned { picked.new.all_pinned ≡ all_pinned env.now list.now }
    ensures left { picked.new.left ≡ left_before env.now list.now (examined env.now list.now) }

    ensures ids_capacity { vec_capacity picked.new.ids ≡ vec_capacity picked.old.ids }
    ensures order_capacity { vec_capacity picked.new.order ≡ vec_capacity picked.old.order }
{
    picked.ids.clear();
    picked.order.clear();
    let mut at = Progress {
        examined: 0,
        free: 0,
        left: env.imbalance,
    };
    'examine: while at.examined < list.len() && !is_over(env, &at, picked.ids.len(), list.len()) {
        examine(env, &list[list.len() - 1 - at.examined], &mut at, picked);
    }
    picked.order.reverse();
    append_ids(&mut picked.order, &list[..list.len() - at.examined]);
    picked.some_pinned = at.free < at.examined;
    picked.all_pinned = is_all_pinned(&at);
    picked.left = at.left;
}
