//! Histories of turns: a task is pulled at a tick, by a CPU that becomes idle and by a kicked one;
//! nothing is to move; and affinity hinders the pull.
ghost use Rattle.std.specs.Prelude.{◌≡◌, None};
ghost use Rattle.lb_rows.specs.Lines.{fault_of};
ghost use Rattle.lb_rows.specs.Balancing.{one_task_moves_history, one_task_stays_history, newly_idle_history, kicked_history, pinned_then_moved_history, pinned_twice_history};

/// At a tick an idle CPU pulls one of three tasks.
#[tactic(auto, using(crate::proofs::JudgedBalancing::one_task_moves))]
pub fn one_task_moves()
    ensures { fault_of one_task_moves_history ≡ None }
{}

/// A single task is not pulled.
#[tactic(auto, using(crate::proofs::JudgedBalancing::one_task_stays))]
pub fn one_task_stays()
    ensures { fault_of one_task_stays_history ≡ None }
{}

/// A CPU that becomes idle pulls a task.
#[tactic(auto, using(crate::proofs::JudgedBalancing::newly_idle))]
pub fn newly_idle()
    ensures { fault_of newly_idle_history ≡ None }
{}

/// A busy CPU's scan finds a tickless one, whose turn pulls a task.
#[tactic(auto, using(crate::proofs::JudgedBalancing::kicked))]
pub fn kicked()
    ensures { fault_of kicked_history ≡ None }
{}

/// A source whose tasks are all pinned is excluded, and the next one gives a task.
#[tactic(auto, using(crate::proofs::JudgedBalancing::pinned_then_moved))]
pub fn pinned_then_moved()
    ensures { fault_of pinned_then_moved_history ≡ None }
{}

/// With no other source the position is pinned, and waits longer each time.
#[tactic(auto, using(crate::proofs::JudgedBalancing::pinned_twice))]
pub fn pinned_twice()
    ensures { fault_of pinned_twice_history ≡ None }
{}
