//! Tasks of a list, found by their numbers.
ghost use Rattle.std.specs.Prelude.{◌≡◌, ◌==◌, ◌≤◌, ◌+◌, ℕ, map, position, reverse, vec_len, vec_capacity, MatchOption, IfSome, is_some, false};
ghost use Rattle.lb_base.specs.Sets.{is_empty};
ghost use Rattle.lb_queue.specs.Tasks.{occurs, ids, awake_ids, task_with, awake_with, without_task, without_awake};

use crate::awake::Awake;
use crate::record::TaskRecord;
use crate::task::Task;

// Where a task is in a list.
pub(crate) fn place_of(tasks: &[Task], id: u32) -> Option<usize>
    ensures { result ≡ position (λ t. t.id == id) tasks.now }
{
    tasks.iter().position(|t| t.id() == id)
}

// Where an awake task is in a list.
pub(crate) fn place_of_awake(awake: &[Awake], id: u32) -> Option<usize>
    ensures { result ≡ position (λ a. a.task.id == id) awake.now }
{
    awake.iter().position(|a| a.task.id() == id)
}

// Whether a task is in a list.
#[tactic(auto, using(crate::proofs::Search::some_position))]
pub(crate) fn has_task(tasks: &[Task], id: u32) -> bool
    ensures { result ≡ is_some (task_with id tasks.now) }
{
    place_of(tasks, id).is_some()
}

// Whether an awake task is in a list that is kept from the back to the front.
#[tactic(auto, using(crate::proofs::Turned::some_turned))]
pub(crate) fn has_awake(awake: &[Awake], id: u32) -> bool
    ensures { result ≡ is_some (awake_with id (reverse awake.now)) }
{
    place_of_awake(awake, id).is_some()
}

// What is known of a task of a list.
pub(crate) fn found_task(tasks: &[Task], id: u32) -> Option<TaskRecord>
    ensures found { result ≡ task_with id tasks.now }
    ensures somewhere { IfSome result (λ t. is_empty t.mask ≡ false) }
{
    match place_of(tasks, id) {
        Some(at) => Some(tasks[at].record()),
        None => None,
    }
}

// Takes a task out of a list in which it stands at most once.
pub(crate) fn take_task(tasks: &mut Vec<Task>, id: u32) -> Option<Task>
    requires { occurs id (ids tasks.old.items) ≤ 1 }
    ensures found { result ≡ task_with id tasks.old.items }
    ensures rest { tasks.new.items ≡ without_task id tasks.old.items }
    ensures len { MatchOption result (vec_len tasks.new ≡ vec_len tasks.old) (λ _. vec_len tasks.new + 1 ≡ vec_len tasks.old) }
    ensures capacity { vec_capacity tasks.new ≡ vec_capacity tasks.old }
{
    match place_of(tasks, id) {
        Some(at) => Some(tasks.remove(at)),
        None => None,
    }
}

// Takes an awake task out of a list in which it stands at most once. The list is kept from the back
// to the front.
pub(crate) fn take_awake(awake: &mut Vec<Awake>, id: u32) -> Option<Awake>
    requires { occurs id (awake_ids awake.old.items) ≤ 1 }
    ensures found { result ≡ awake_with id (reverse awake.old.items) }
    ensures rest { reverse awake.new.items ≡ without_awake id (reverse awake.old.items) }
    ensures len { MatchOption result (vec_len awake.new ≡ vec_len awake.old) (λ _. vec_len awake.new + 1 ≡ vec_len awake.old) }
    ensures capacity { vec_capacity awake.new ≡ vec_capacity awake.old }
{
    match place_of_awake(awake, id) {
        Some(at) => Some(awake.remove(at)),
        None => None,
    }
}
