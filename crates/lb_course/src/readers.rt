//! What a command and a course say, in the words of the rules.
ghost use Rattle.std.specs.Prelude.{◌≡◌};
ghost use Rattle.lb_core.specs.Course.{
  turn_kind,
  is_tick,
  is_wake,
  is_rebuild,
  is_pull,
  source_of,
  is_all_pinned,
  ticked_cpu,
  task_of,
  named_at,
};
ghost use Rattle.lb_core.specs.QueueAfter.{cause_of};
ghost use Rattle.lb_core.specs.Stage.{is_settled, queue_due};

use crate::figures::target_of;
use lb_base::Kind;
use lb_core::{Course, Form};
use lb_imbalance::Decision;
use lb_queue::OutCause;
use lb_trace::Command;

/// The CPU that the command in service ticks.
pub fn ticked_cpu(command: &Option<Command>) -> Option<u32>
    ensures { result ≡ ticked_cpu command.now }
{
    match command {
        Some(Command::Tick { cpu }) => Some(*cpu),
        Some(
            Command::Wake { .. }
            | Command::Sleep { .. }
            | Command::Exit { .. }
            | Command::SetMask { .. }
            | Command::Nice { .. }
            | Command::Rebuild { .. },
        )
        | None => None,
    }
}

/// Whether the command in service is a tick.
pub fn is_tick(command: &Option<Command>) -> bool
    ensures { result ≡ is_tick command.now }
{
    ticked_cpu(command).is_some()
}

/// Whether the command in service is a wake.
pub fn is_wake(command: &Option<Command>) -> bool
    ensures { result ≡ is_wake command.now }
{
    matches!(command, Some(Command::Wake { .. }))
}

/// Whether the command in service is a rebuild.
pub fn is_rebuild(command: &Option<Command>) -> bool
    ensures { result ≡ is_rebuild command.now }
{
    matches!(command, Some(Command::Rebuild { .. }))
}

/// The task that the command in service is about.
pub fn task_of(command: &Option<Command>) -> Option<u32>
    ensures { result ≡ task_of command.now }
{
    match command {
        Some(
            Command::Wake { task }
            | Command::Sleep { task }
            | Command::Exit { task }
            | Command::SetMask { task, .. }
            | Command::Nice { task, .. },
        ) => Some(*task),
        Some(Command::Tick { .. } | Command::Rebuild { .. }) | None => None,
    }
}

/// The kind of the turn that is due or open; a tick's where there is none.
pub fn turn_kind(course: &Course) -> Kind
    ensures { result ≡ turn_kind course.now }
{
    match course.kind {
        Some(kind) => kind,
        None => Kind::Tick,
    }
}

/// Why the tasks in the hand left their queue; a wake where there are none.
pub fn cause_of(course: &Course) -> OutCause
    ensures { result ≡ cause_of course.now }
{
    match course.cause {
        Some(cause) => cause,
        None => OutCause::Wake,
    }
}

/// Whether the last look pulls.
pub fn is_pull(decision: Option<Decision>) -> bool
    ensures { result ≡ is_pull decision }
{
    match decision {
        Some(Decision::Pull { .. }) => true,
        Some(Decision::NotMine | Decision::Balanced) | None => false,
    }
}

/// Whether the last look moves nothing.
pub fn is_settled(decision: Option<Decision>) -> bool
    ensures { result ≡ is_settled decision }
{
    decision.is_some() && !is_pull(decision)
}

/// The CPU that the last look pulls from, or 0 where it does not pull.
pub fn source_of(decision: Option<Decision>) -> u32
    ensures { result ≡ source_of decision }
{
    match decision {
        Some(Decision::Pull { source, .. }) => source,
        Some(Decision::NotMine | Decision::Balanced) | None => 0,
    }
}

/// Whether the last take examined tasks, and all of them were pinned.
pub fn is_all_pinned(course: &Course) -> bool
    ensures { result ≡ is_all_pinned course.now.taken }
{
    match course.taken {
        Some(taken) => taken.all_pinned,
        None => false,
    }
}

/// The greatest number of a CPU's figures that the lane drew or named; 0 where there is no such CPU.
pub fn named_at(course: &Course, cpu: u32) -> u64
    ensures { result ≡ named_at course.now cpu }
{
    let cpu = cpu as usize;
    if cpu < course.named.len() {
        *course.named.get(cpu)
    } else {
        0
    }
}

/// The CPU whose queue draws the next entry, if the course decides it.
pub fn queue_due(course: &Course) -> Option<u32>
    ensures { result ≡ queue_due course.now.form course.now }
{
    match course.form {
        Form::Rest => None,
        Form::Asked | Form::Serving => ticked_cpu(&course.command),
        Form::Flight => Some(course.to),
        Form::Looked => {
            if is_pull(course.decision) {
                Some(source_of(course.decision))
            } else {
                Some(course.cpu)
            }
        }
        Form::Closed => Some(source_of(course.decision)),
        Form::Kicking => target_of(course),
        Form::Due
        | Form::Used
        | Form::Position
        | Form::Landed
        | Form::Done
        | Form::ScanDue
        | Form::Ended => Some(course.cpu),
    }
}
