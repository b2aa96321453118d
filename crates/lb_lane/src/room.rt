//! Room for an entry of a lane's own list.
ghost use Rattle.std.specs.Prelude.{◌≡◌, ◌+◌, ◌<◌, ◌^◌, OnOk, length};
ghost use Rattle.lb_cell.specs.Reads.{SameBut};

use lb_base::NoMemory;
use lb_cell::{Lane as Side, Names};
use std::sync::Wait;

// Waits until the list can take an entry more. No run draws so many that it cannot, so the first test succeeds.
fn wait_until_it_can_grow<N: Names, R: Wait>(rt: &R, side: &Side<N>)
    ensures { length side.now.seat.list + 1 < 2 ^ 40 }
{
    for _ in rt.forever() {
        if side.can_grow() {
            return;
        }
    }
    unreachable!()
}

/// Makes room for an entry of a lane's own list. It refuses for want of memory alone.
pub(crate) fn make_room<N: Names, R: Wait>(rt: &R, side: &mut Side<N>) -> Result<(), NoMemory>
    ensures same { SameBut side.old side.new }
    ensures view { (side.new.seat.read ≡ side.old.seat.read) × (side.new.seat.next ≡ side.old.seat.next) }
    ensures ok { OnOk result (0 < side.new.seat.spare) }
{
    wait_until_it_can_grow(rt, side);
    side.reserve(1)
}
