//! The seats of a new book, cut up by whose they are.
ghost use Rattle.std.specs.Prelude.{◌≡◌, ◌+◌, ◌≤◌, ◌++◌, ◌∷◌, length, IfOk};

use lb_base::NoMemory;
use lb_journal::Journal;
use lb_ticket::Seat;
use lb_trace::MAX_LANES;

/// The seats of all owners, in the order of their numbers: the publisher's, those of the lanes that a trace has, those of
/// the lanes that it does not have, and those of the queues.
#[derive(Drop)]
pub(crate) struct Seats {
    pub(crate) publisher: Seat<Journal>,
    pub(crate) lanes: Vec<Seat<Journal>>,
    pub(crate) unused: Vec<Seat<Journal>>,
    pub(crate) queues: Vec<Seat<Journal>>,
}

/// Cuts up the seats of a book, of which there are 17 or more.
pub(crate) fn cut(mut seats: Vec<Seat<Journal>>, lanes: u32) -> Result<Seats, NoMemory>
    requires { (lanes ≤ 16) × (17 ≤ length seats.items) }
    ensures all { IfOk result (λ s. seats.items ≡ s.publisher ∷ s.lanes.items ++ s.unused.items ++ s.queues.items) }
    ensures lanes { IfOk result (λ s. length s.lanes.items ≡ lanes) }
    ensures unused { IfOk result (λ s. lanes + length s.unused.items ≡ 16) }
    ensures queues { IfOk result (λ s. 17 + length s.queues.items ≡ length seats.items) }
{
    let queues = seats.split_off(1 + MAX_LANES as usize)?;
    let unused = seats.split_off(1 + lanes as usize)?;
    let lanes = seats.split_off(1)?;
    let Some(publisher) = seats.pop() else {
        unreachable!()
    };
    seats.destroy_empty();
    Ok(Seats {
        publisher,
        lanes,
        unused,
        queues,
    })
}
