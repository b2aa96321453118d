//! What holds of every picked list, as laws over the definitions: each function's contract is the
//! law, and its body is empty.
ghost use Rattle.std.specs.Prelude.{List};
ghost use Rattle.lb_base.specs.declared.view.TaskView.{TaskView};
ghost use Rattle.lb_detach.specs.declared.Env.{Env};
ghost use Rattle.lb_detach.specs.Laws.{IsSound, IsComplete, IsRearranged, TellsPinned};

/// No task is picked that the rule leaves.
pub fn picked_is_sound()
    ensures { (env : Env) (list : List TaskView) → IsSound env list }
{}

/// No task is left that the rule takes.
pub fn picked_is_complete()
    ensures { (env : Env) (list : List TaskView) → IsComplete env list }
{}

/// No task is lost, and none is doubled.
pub fn picked_and_kept_are_the_list()
    ensures { (env : Env) (list : List TaskView) → IsRearranged env list }
{}

/// The flags speak of the masks of the examined tasks.
pub fn flags_tell_pinned()
    ensures { (env : Env) (list : List TaskView) → TellsPinned env list }
{}
