//! The kinds of entries, of commands and of decisions, by their words.
ghost use Rattle.std.specs.Prelude.{◌≡◌, MatchOption, Some, None};
ghost use Rattle.lb_read.specs.Exact.{named, take_field};
ghost use Rattle.lb_read.specs.KindWords.{decision_words, command_words, what_words};

use lb_text::Pieces;

/// The kinds of entry.
#[derive(Clone, Copy)]
pub(crate) enum WhatKind {
    Row,
    Adopt,
    Look,
    Scan,
    End,
    Did,
    Out,
    Landed,
    Turn,
    Shut,
    Close,
    Ask,
    Kick,
    Over,
    Pub,
}

/// The kinds of command.
#[derive(Clone, Copy)]
pub(crate) enum CommandKind {
    Wake,
    Sleep,
    Exit,
    SetMask,
    Nice,
    Tick,
    Rebuild,
}

/// The kinds of decision.
#[derive(Clone, Copy)]
pub(crate) enum DecisionKind {
    NotMine,
    Balanced,
    Pull,
}

/// The kind of a decision.
pub(crate) fn decision_named(word: &[u8]) -> Option<DecisionKind>
    ensures { result ≡ named decision_words word.now }
{
    if word == b"notmine".as_slice() {
        Some(DecisionKind::NotMine)
    } else if word == b"balanced".as_slice() {
        Some(DecisionKind::Balanced)
    } else if word == b"pull".as_slice() {
        Some(DecisionKind::Pull)
    } else {
        None
    }
}

// The kind of a command.
fn command_named(word: &[u8]) -> Option<CommandKind>
    ensures { result ≡ named command_words word.now }
{
    if word == b"wake".as_slice() {
        Some(CommandKind::Wake)
    } else if word == b"sleep".as_slice() {
        Some(CommandKind::Sleep)
    } else if word == b"exit".as_slice() {
        Some(CommandKind::Exit)
    } else if word == b"mask".as_slice() {
        Some(CommandKind::SetMask)
    } else if word == b"nice".as_slice() {
        Some(CommandKind::Nice)
    } else if word == b"tick".as_slice() {
        Some(CommandKind::Tick)
    } else if word == b"rebuild".as_slice() {
        Some(CommandKind::Rebuild)
    } else {
        None
    }
}

// The kind of an entry.
fn what_named(word: &[u8]) -> Option<WhatKind>
    ensures { result ≡ named what_words word.now }
{
    if word == b"row".as_slice() {
        Some(WhatKind::Row)
    } else if word == b"use".as_slice() {
        Some(WhatKind::Adopt)
    } else if word == b"look".as_slice() {
        Some(WhatKind::Look)
    } else if word == b"scan".as_slice() {
        Some(WhatKind::Scan)
    } else if word == b"end".as_slice() {
        Some(WhatKind::End)
    } else if word == b"did".as_slice() {
        Some(WhatKind::Did)
    } else if word == b"out".as_slice() {
        Some(WhatKind::Out)
    } else if word == b"in".as_slice() {
        Some(WhatKind::Landed)
    } else if word == b"turn".as_slice() {
        Some(WhatKind::Turn)
    } else if word == b"shut".as_slice() {
        Some(WhatKind::Shut)
    } else if word == b"close".as_slice() {
        Some(WhatKind::Close)
    } else if word == b"ask".as_slice() {
        Some(WhatKind::Ask)
    } else if word == b"kick".as_slice() {
        Some(WhatKind::Kick)
    } else if word == b"over".as_slice() {
        Some(WhatKind::Over)
    } else if word == b"pub".as_slice() {
        Some(WhatKind::Pub)
    } else {
        None
    }
}

/// The next kind of command.
#[tactic(auto, unfolding(crate::specs::Exact::take_field))]
pub(crate) fn next_command(fields: &mut Pieces) -> Option<CommandKind>
    ensures { MatchOption result
        (take_field (named command_words) fields.old ≡ None)
        (λ kind. take_field (named command_words) fields.old ≡ Some (kind, fields.new)) }
{
    command_named(fields.next_piece()?)
}

/// The next kind of entry.
#[tactic(auto, unfolding(crate::specs::Exact::take_field))]
pub(crate) fn next_what(fields: &mut Pieces) -> Option<WhatKind>
    ensures { MatchOption result
        (take_field (named what_words) fields.old ≡ None)
        (λ kind. take_field (named what_words) fields.old ≡ Some (kind, fields.new)) }
{
    what_named(fields.next_piece()?)
}
