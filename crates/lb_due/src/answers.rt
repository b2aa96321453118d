//! What a queue replies, to a command and to a request.
ghost use Rattle.std.specs.Prelude.{◌≡◌, ◌||◌, ℕ, not, false, length};
ghost use Rattle.lb_base.specs.Sets.{is_empty, is_below};
ghost use Rattle.lb_queue.specs.Requests.{ask_active, kick};
ghost use Rattle.lb_core.specs.Rules.{leaves_instead};
ghost use Rattle.lb_core.specs.QueueAfter.{answer_to};
ghost use Rattle.lb_core.specs.Machine.{queue_at};
ghost use Rattle.lb_ready.specs.Ready.{IsReady, Names};
ghost use Rattle.lb_ready.specs.Next.{cpu_of_place};
ghost use Rattle.lb_due.specs.Replies.{AnswersAt, done_unless_gone};

use crate::rows::is_in;
use lb_base::Mask;
use lb_core::{Place, What};
use lb_engine::Engine;
use lb_queue::{AskReply, Queue, Reply};
use lb_ready::laws::calls_may_be_made;
use lb_trace::Command;

/// The CPU of the queue where a task is; None where a lane has it in its hand.
pub fn cpu_of_place(place: Place) -> Option<u32>
    ensures { result ≡ cpu_of_place place }
{
    match place {
        Place::Awake(cpu) | Place::Asleep(cpu) | Place::Gone(cpu) => Some(cpu),
        Place::Hand(_) => None,
    }
}

/// Whether the woken task leaves the queue, and no answer is due.
pub fn leaves_instead(command: &Option<Command>, queue: &Queue) -> bool
    ensures { result ≡ leaves_instead command.now queue.now.state }
{
    match command {
        Some(Command::Wake { task }) => queue.away(*task).is_some(),
        Some(
            Command::Sleep { .. }
            | Command::Exit { .. }
            | Command::SetMask { .. }
            | Command::Nice { .. }
            | Command::Tick { .. }
            | Command::Rebuild { .. },
        )
        | None => false,
    }
}

/// What the queue where the task is answers to the command in service.
pub fn reply_due(engine: &Engine, command: &Option<Command>) -> Reply
    requires ready { IsReady engine.now.machine }
    requires names { Names engine.now.machine.header command.now }
    ensures { (cpu at : ℕ) → AnswersAt command.now engine.now.machine cpu
        → result ≡ (answer_to command.now at (queue_at engine.now.machine.queues cpu)).0 }
{
    // a task stands in the list of its place
    calls_may_be_made();
    match command {
        Some(Command::Wake { task }) => match engine.place(*task) {
            Place::Awake(_) => Reply::Already,
            Place::Asleep(_) => Reply::Done,
            Place::Gone(_) => Reply::Gone,
            Place::Hand(_) => Reply::NotHere,
        },
        Some(Command::Sleep { task }) => match engine.place(*task) {
            Place::Awake(_) => Reply::Done,
            Place::Asleep(_) => Reply::Already,
            Place::Gone(_) => Reply::Gone,
            Place::Hand(_) => Reply::NotHere,
        },
        Some(Command::Exit { task }) => done_unless_gone(engine.place(*task), false),
        Some(Command::Nice { task, nice: _ }) => done_unless_gone(engine.place(*task), false),
        Some(Command::SetMask { task, mask }) => {
            done_unless_gone(engine.place(*task), is_bad_mask(engine, *mask))
        }
        Some(Command::Tick { .. } | Command::Rebuild { .. }) | None => Reply::Done,
    }
}

// What a queue answers to a command that is for each task that has not ended, and may be refused for its
// mask.
fn done_unless_gone(place: Place, is_bad: bool) -> Reply
    ensures { result ≡ done_unless_gone place is_bad }
{
    match place {
        Place::Awake(_) | Place::Asleep(_) => { if is_bad { Reply::BadMask } else { Reply::Done } }
        Place::Gone(_) => Reply::Gone,
        Place::Hand(_) => Reply::NotHere,
    }
}

// Whether a mask is empty, or has a CPU past the machine.
fn is_bad_mask(engine: &Engine, mask: Mask) -> bool
    requires { IsReady engine.now.machine }
    ensures { result ≡ (is_empty mask || not (is_below mask (length engine.now.machine.header.cpus))) }
{
    mask.first().is_none() || !is_in(mask, engine.cpus())
}

/// What a queue answers to an active request.
#[tactic(auto, unfolding(lb_queue::specs::Requests::ask_active))]
pub fn ask_due(queue: &Queue) -> AskReply
    ensures { (at to : ℕ) → result ≡ (ask_active queue.now.state at to).0 }
{
    if queue.active().is_some() {
        AskReply::Old
    } else {
        AskReply::New
    }
}

/// What a queue answers to a kick.
#[tactic(auto, unfolding(lb_queue::specs::Requests::kick))]
pub fn kick_due(queue: &Queue) -> AskReply
    ensures { (at : ℕ) → result ≡ (kick queue.now.state at).0 }
{
    if queue.kicked() {
        AskReply::Old
    } else {
        AskReply::New
    }
}
