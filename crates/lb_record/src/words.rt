//! The words of an entry's line, as `specs/Words` has them.
ghost use Rattle.std.specs.Prelude.{◌≡◌};
ghost use Rattle.lb_record.specs.Words.{turn_word, move_word, reply_word, request_word, cause_word, outcome_word};

use lb_base::{Kind, MoveKind};
use lb_core::OutcomeWord;
use lb_queue::{AskReply, OutCause, Reply};

// Why a turn is made.
pub(crate) fn turn_word(kind: Kind) -> &'static str
    ensures { result.now ≡ turn_word kind }
{
    match kind {
        Kind::Tick => "tick",
        Kind::Idle => "idle",
        Kind::Nohz => "nohz",
    }
}

// What a pull is to even out.
pub(crate) fn move_word(kind: MoveKind) -> &'static str
    ensures { result.now ≡ move_word kind }
{
    match kind {
        MoveKind::Load => "load",
        MoveKind::Util => "util",
        MoveKind::Tasks => "tasks",
    }
}

// What a queue answers to a command.
pub(crate) fn reply_word(reply: Reply) -> &'static str
    ensures { result.now ≡ reply_word reply }
{
    match reply {
        Reply::Done => "done",
        Reply::Already => "already",
        Reply::NotHere => "nothere",
        Reply::Gone => "gone",
        Reply::BadMask => "badmask",
    }
}

// Whether a request is new.
pub(crate) fn request_word(reply: AskReply) -> &'static str
    ensures { result.now ≡ request_word reply }
{
    match reply {
        AskReply::New => "new",
        AskReply::Old => "old",
    }
}

// Why tasks leave a queue.
pub(crate) fn cause_word(cause: OutCause) -> &'static str
    ensures { result.now ≡ cause_word cause }
{
    match cause {
        OutCause::Wake => "wake",
        OutCause::Stop => "stop",
        OutCause::Pull => "pull",
        OutCause::Push => "push",
    }
}

// How a position ended.
pub(crate) fn outcome_word(outcome: OutcomeWord) -> &'static str
    ensures { result.now ≡ outcome_word outcome }
{
    match outcome {
        OutcomeWord::NotMine => "notmine",
        OutcomeWord::Balanced => "balanced",
        OutcomeWord::Moved => "moved",
        OutcomeWord::Pinned => "pinned",
        OutcomeWord::Failed => "failed",
        OutcomeWord::Asking => "asking",
    }
}
