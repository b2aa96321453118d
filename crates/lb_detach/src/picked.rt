//! The picked list, in rooms that are kept from one pull to the next.
ghost use Rattle.std.specs.Prelude.{◌≡◌, ◌≤◌, [], false, IfOk, vec_capacity};

use lb_base::NoMemory;
use std::alloc::Global;

/// What one examination gave. It can be filled again and again: its rooms stay.
#[derive(Debug, Drop)]
pub struct Picked {
    /// The tasks that are taken, in the order in which they are.
    pub ids: Vec<u32>,
    /// The tasks that stay, from the front to the back.
    pub order: Vec<u32>,
    /// An examined task may not run at the destination.
    pub some_pinned: bool,
    /// Tasks were examined, and none of them may run at the destination.
    pub all_pinned: bool,
    /// What is left to move.
    pub left: u64,
}

impl Picked {
    /// Empty lists with room for `n` tasks.
    pub fn new(alloc: Global, n: usize) -> Result<Picked, NoMemory>
        ensures ids { IfOk result (λ p. p.ids.items ≡ []) }
        ensures order { IfOk result (λ p. p.order.items ≡ []) }
        ensures ids_room { IfOk result (λ p. n ≤ vec_capacity p.ids) }
        ensures order_room { IfOk result (λ p. n ≤ vec_capacity p.order) }
        ensures unpinned { IfOk result (λ p. (p.some_pinned ≡ false) × (p.all_pinned ≡ false)) }
        ensures left { IfOk result (λ p. p.left ≡ 0) }
    {
        let ids = Vec::with_capacity(alloc, n)?;
        let order = Vec::with_capacity(alloc, n)?;
        Ok(Picked {
            ids,
            order,
            some_pinned: false,
            all_pinned: false,
            left: 0,
        })
    }
}
