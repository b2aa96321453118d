//! The choices of stop requests and of active balance (docs/rules/counters.md).
#![tactic(auto)]

ghost use Rattle.std.specs.Prelude.{◌≡◌, option_map};
ghost use Rattle.lb_base.specs.Mask.{has};
ghost use Rattle.lb_base.specs.Sets.{least};
ghost use Rattle.lb_active.specs.Choice.{is_wanted, nearest_back, pick_of};

use lb_base::{Kind, MAX_CPUS, Mask, TaskView};

/// Whether a turn of this kind that has failed so often asks the source to push a task; `tries`
/// are the domain's cache tries (docs/rules/counters.md).
pub fn wants_active(failures: u32, tries: u32, kind: Kind) -> bool
    ensures { result ≡ is_wanted failures tries kind }
{
    match kind {
        Kind::Idle => false,
        Kind::Tick | Kind::Nohz => u64::from(failures) > u64::from(tries) + 2,
    }
}

/// Where a task with a stop request goes: the least CPU of its mask, or None where it has none.
pub fn stop_target(mask: Mask) -> Option<u32>
    ensures { result ≡ least mask }
{
    mask.first()
}

/// The task that a push to the CPU `to` takes: the id of the one nearest the back whose mask has
/// `to`, or None where there is none. `list` runs from the front to the back
/// (docs/rules/queue.md).
pub fn active_pick(list: &[TaskView], to: u32) -> Option<u32>
    ensures { result ≡ pick_of list.now to }
{
    list.iter()
        .rev()
        .find(|t| may_run(t.mask, to))
        .map(|t| t.id)
}

// Whether the mask has the CPU; it has none past the last.
fn may_run(mask: Mask, cpu: u32) -> bool
    ensures { result ≡ has mask cpu }
{
    if cpu < MAX_CPUS { mask.has(cpu) } else { false }
}
