//! The counters that a position leaves at its queue.
ghost use Rattle.std.specs.Prelude.{◌≡◌, [], unwrap_or};
ghost use Rattle.lb_queue.specs.Turns.{counters_at, counters_closed, open_kind};

use lb_base::{Kind, Shape};
use lb_interval::{Counters, Outcome, after};
use lb_queue::{NANOSECONDS_PER_MILLISECOND, Queue, tries};

// The queue's counters of a position, or zeros where it has none.
fn counters_of(queue: &Queue, position: u32) -> Counters
    ensures { result ≡ counters_at (unwrap_or queue.now.state.counters []) position }
{
    match queue.counters(position) {
        Some(counters) => counters,
        None => Counters {
            last: 0,
            interval: 0,
            failures: 0,
            imb: false,
        },
    }
}

// The kind of the open turn; a tick's where none is open.
fn kind_of_turn(queue: &Queue) -> Kind
    ensures { result ≡ open_kind queue.now.state.open_turn }
{
    match queue.open_turn() {
        Some(turn) => turn.kind,
        None => Kind::Tick,
    }
}

/// The counters that a position of the open turn leaves, if it is closed at the moment `at` (ns) with this outcome:
/// `shape` is that of its domain, and `imb` the imbalance flag, where a take was made (docs/rules/counters.md).
#[tactic(auto, unfolding(lb_queue::specs::Turns::counters_closed))]
pub fn counters_left(
    queue: &Queue,
    at: u64,
    shape: &Shape,
    outcome: Outcome,
    imb: Option<bool>,
) -> Counters
    ensures { result ≡ counters_closed queue.now.state at shape.now outcome imb }
{
    after(
        &counters_of(queue, shape.position),
        kind_of_turn(queue),
        outcome,
        imb,
        shape.span.weight(),
        tries(shape.name),
        queue.clock().max(at) / NANOSECONDS_PER_MILLISECOND,
    )
}
