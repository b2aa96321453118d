//! Which tasks a pull leaves where they are (docs/rules/picked-list.md).
ghost use Rattle.std.specs.Prelude.{◌≡◌};
ghost use Rattle.lb_base.specs.Mask.{has};
ghost use Rattle.lb_detach.specs.Rules.{amount_of, refuses};

use crate::Env;
use lb_base::{MAX_CPUS, Mask, MoveKind, TaskView};

/// Whether the mask has the CPU; it has none past the last.
pub fn may_run(mask: Mask, cpu: u32) -> bool
    ensures { result ≡ has mask cpu }
{
    if cpu < MAX_CPUS { mask.has(cpu) } else { false }
}

/// What taking the task moves.
pub fn amount(kind: MoveKind, task: &TaskView) -> u64
    ensures { result ≡ amount_of kind task.now }
{
    match kind {
        MoveKind::Load => task.load.max(1),
        MoveKind::Util => task.util,
        MoveKind::Tasks => 1,
    }
}

/// Whether the task stays, where so much is left to move.
#[tactic(auto, unfolding(crate::specs::Rules::refuses))]
pub fn is_refused(env: &Env, task: &TaskView, left: u64) -> bool
    ensures { result ≡ refuses env.now task.now left }
{
    if !may_run(task.mask, env.to) || task.running || (task.hot && env.failures <= env.tries) {
        return true;
    }
    match env.kind {
        MoveKind::Load => task.load.max(1) >> env.failures.min(63) > left,
        MoveKind::Util => task.util > left,
        MoveKind::Tasks => false,
    }
}
