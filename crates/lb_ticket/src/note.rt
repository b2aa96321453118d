//! A note: that an item was drawn, and what it leaves.
use crate::view::Bare;
use atomic_table::Seat as Token;
use std::marker::Model;

/// That an entry was drawn, and what its item leaves. It is of one ticket, and can be learnt once.
#[derive(Drop)]
pub struct Note {
    pub(crate) token: Token<(), Bare>,
}

impl Model for Note {
    ghost use Rattle.lb_ticket.specs.Seats.{NoteIs};
    ghost use Rattle.lb_ticket.specs.Bare.{IsBareNote};

    ghost Value = { NoteIs };

    ghost view = { λ n. record { table = n.token.table_id; facts = n.token.me.0.known } };

    ghost invariant = { λ n. IsBareNote n.token.me };
}
