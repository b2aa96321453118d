//! The answer of a queue to a command.
ghost use Rattle.std.specs.Prelude.{◌≡◌};
ghost use Rattle.lb_core.specs.Asks.{CommandAsks};
ghost use Rattle.lb_core.specs.QueueAfter.{answer_to};

use lb_queue::{Queue, Reply};
use lb_trace::Command;

/// Carries out a command of the moment `at` (ns) at a queue, or refuses it, as the reply says (docs/rules/queue.md). A
/// command that no queue answers is done, and changes nothing.
pub fn obey(queue: &mut Queue, at: u64, command: &Option<Command>) -> Reply
    requires { CommandAsks command.now queue.old.state }
    ensures step { (result, queue.new.state) ≡ answer_to command.now at queue.old.state }
    ensures booked { queue.new.booked ≡ queue.old.booked }
{
    match command {
        Some(Command::Wake { task }) => queue.wake(at, *task),
        Some(Command::Sleep { task }) => queue.sleep(at, *task),
        Some(Command::Exit { task }) => queue.exit(at, *task),
        Some(Command::SetMask { task, mask }) => queue.set_mask(at, *task, *mask),
        Some(Command::Nice { task, nice }) => queue.renice(at, *task, *nice),
        Some(Command::Tick { .. }) => {
            queue.tick(at);
            Reply::Done
        }
        Some(Command::Rebuild { .. }) | None => Reply::Done,
    }
}
