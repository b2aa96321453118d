//! The words that stand in entries, each read as what it says.
ghost use Rattle.std.specs.Prelude.{◌≡◌};
ghost use Rattle.lb_read.specs.Exact.{named};
ghost use Rattle.lb_read.specs.Words.{turn_words, move_words, reply_words, request_words, cause_words, outcome_words};

use lb_base::{Kind, MoveKind};
use lb_core::OutcomeWord;
use lb_queue::{AskReply, OutCause, Reply};

/// Why a turn is made.
pub(crate) fn turn_named(word: &[u8]) -> Option<Kind>
    ensures { result ≡ named turn_words word.now }
{
    if word == b"tick".as_slice() {
        Some(Kind::Tick)
    } else if word == b"idle".as_slice() {
        Some(Kind::Idle)
    } else if word == b"nohz".as_slice() {
        Some(Kind::Nohz)
    } else {
        None
    }
}

/// What a pull is to even out.
pub(crate) fn move_named(word: &[u8]) -> Option<MoveKind>
    ensures { result ≡ named move_words word.now }
{
    if word == b"load".as_slice() {
        Some(MoveKind::Load)
    } else if word == b"util".as_slice() {
        Some(MoveKind::Util)
    } else if word == b"tasks".as_slice() {
        Some(MoveKind::Tasks)
    } else {
        None
    }
}

/// What a queue answers to a command; `nothere` is no word of a history.
pub(crate) fn reply_named(word: &[u8]) -> Option<Reply>
    ensures { result ≡ named reply_words word.now }
{
    if word == b"done".as_slice() {
        Some(Reply::Done)
    } else if word == b"already".as_slice() {
        Some(Reply::Already)
    } else if word == b"gone".as_slice() {
        Some(Reply::Gone)
    } else if word == b"badmask".as_slice() {
        Some(Reply::BadMask)
    } else {
        None
    }
}

/// Whether a request is new.
pub(crate) fn request_named(word: &[u8]) -> Option<AskReply>
    ensures { result ≡ named request_words word.now }
{
    if word == b"new".as_slice() {
        Some(AskReply::New)
    } else if word == b"old".as_slice() {
        Some(AskReply::Old)
    } else {
        None
    }
}

/// Why tasks leave a queue.
pub(crate) fn cause_named(word: &[u8]) -> Option<OutCause>
    ensures { result ≡ named cause_words word.now }
{
    if word == b"wake".as_slice() {
        Some(OutCause::Wake)
    } else if word == b"stop".as_slice() {
        Some(OutCause::Stop)
    } else if word == b"pull".as_slice() {
        Some(OutCause::Pull)
    } else if word == b"push".as_slice() {
        Some(OutCause::Push)
    } else {
        None
    }
}

/// How a position ended.
pub(crate) fn outcome_named(word: &[u8]) -> Option<OutcomeWord>
    ensures { result ≡ named outcome_words word.now }
{
    if word == b"notmine".as_slice() {
        Some(OutcomeWord::NotMine)
    } else if word == b"balanced".as_slice() {
        Some(OutcomeWord::Balanced)
    } else if word == b"moved".as_slice() {
        Some(OutcomeWord::Moved)
    } else if word == b"pinned".as_slice() {
        Some(OutcomeWord::Pinned)
    } else if word == b"failed".as_slice() {
        Some(OutcomeWord::Failed)
    } else if word == b"asking".as_slice() {
        Some(OutcomeWord::Asking)
    } else {
        None
    }
}
