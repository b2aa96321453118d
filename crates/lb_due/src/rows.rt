//! Whether a row names only tasks, CPUs and masks that the header declares, as the rule `row` asks.
ghost use Rattle.std.specs.Prelude.{◌≡◌, ◌≤◌, ◌+◌, false};
ghost use Rattle.std.specs.List.{list_all};
ghost use Rattle.lb_base.specs.declared.mask.TheConstants.{MAX_CPUS};
ghost use Rattle.lb_base.specs.Sets.{is_below, are_disjoint, are_apart};
ghost use Rattle.lb_core.specs.declared.entry.What.TheVariants as what;
ghost use Rattle.lb_core.specs.Rules.{is_undeclared};
ghost use Rattle.lb_core.specs.Elsewhere.{ticked_elsewhere};
ghost use Rattle.lb_ready.specs.Ready.{IsReady};

use lb_base::Mask;
use lb_engine::Engine;
use lb_trace::Command;

/// Whether a command names a task or a CPU that is not declared, or masks that are no partition.
pub fn is_undeclared(engine: &Engine, command: &Command) -> bool
    requires { IsReady engine.now.machine }
    ensures { result ≡ is_undeclared engine.now.machine.header command.now }
{
    match command {
        Command::Wake { task }
        | Command::Sleep { task }
        | Command::Exit { task }
        | Command::SetMask { task, mask: _ }
        | Command::Nice { task, nice: _ } => *task as usize >= engine.header().tasks.len(),
        Command::Tick { cpu } => *cpu >= engine.cpus(),
        Command::Rebuild { parts: masks } => {
            !are_in(masks.as_slice(), engine.cpus()) || !are_disjoint(masks.as_slice())
        }
    }
}

// Whether the masks have CPUs of a machine of so many alone.
fn are_in(masks: &[Mask], cpus: u32) -> bool
    requires { cpus ≤ MAX_CPUS }
    ensures { result ≡ list_all (λ mask. is_below mask cpus) masks.now }
{
    masks.iter().all(|mask| is_in(*mask, cpus))
}

/// Whether a mask has CPUs of a machine of so many alone.
pub fn is_in(mask: Mask, cpus: u32) -> bool
    requires { cpus ≤ MAX_CPUS }
    ensures { result ≡ is_below mask cpus }
{
    mask.without(Mask::all(cpus)).first().is_none()
}

// Whether no two of the masks share a CPU.
fn are_disjoint(masks: &[Mask]) -> bool
    ensures { result ≡ are_disjoint masks.now }
{
    for i in 0..masks.len() {
        if !are_apart(masks[i], &masks[i + 1..]) {
            return false;
        }
    }
    true
}

// Whether the mask shares no CPU with one of the others.
fn are_apart(mask: Mask, others: &[Mask]) -> bool
    ensures { result ≡ list_all (are_apart mask) others.now }
{
    others.iter().all(|other| is_apart(mask, *other))
}

// Whether two masks share no CPU.
fn is_apart(mask: Mask, other: Mask) -> bool
    ensures { result ≡ are_apart mask other }
{
    mask.and(other).first().is_none()
}

/// Whether the command ticks a CPU that another lane ticks.
pub fn ticked_elsewhere(engine: &Engine, lane: u32, command: &Command) -> bool
    requires ready { IsReady engine.now.machine }
    requires declared { is_undeclared engine.now.machine.header command.now ≡ false }
    ensures { result ≡ ticked_elsewhere engine.now.machine lane (what.Row 0 0 command.now) }
{
    match command {
        Command::Tick { cpu } => match engine.ticked(*cpu) {
            None => false,
            Some(other) => other != lane,
        },
        Command::Wake { .. }
        | Command::Sleep { .. }
        | Command::Exit { .. }
        | Command::SetMask { .. }
        | Command::Nice { .. }
        | Command::Rebuild { .. } => false,
    }
}
