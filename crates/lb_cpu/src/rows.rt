//! The rows of a trace, lane by lane.
ghost use Rattle.std.specs.Prelude.{◌≡◌, map, IfOk};
ghost use Rattle.std.specs.List.{range_with_len};
ghost use Rattle.lb_core.specs.OfTrace.{of_lane};

use lb_base::{Items, NoMemory};
use lb_trace::{Row, Rows};
use std::alloc::Global;

// A copy of a row.
fn copy(alloc: Global, row: &Row) -> Result<Row, NoMemory>
    ensures { IfOk result (λ copy. copy ≡ row.now) }
{
    Ok(Row {
        lane: row.lane,
        at: row.at,
        command: row.command.copy(alloc)?,
    })
}

// The rows of one lane, in their order.
fn rows_of(alloc: Global, rows: &[Row], lane: u32) -> Result<Rows, NoMemory>
    ensures { IfOk result (λ list. list ≡ of_lane lane rows.now) }
{
    let mut own = Items::new(alloc);
    for row in rows {
        if row.lane == lane {
            own.push(copy(alloc, row)?)?;
        }
    }
    Ok(own)
}

/// The rows of each lane, in their order.
pub(crate) fn rows_of_lanes(alloc: Global, rows: &[Row], lanes: u32) -> Result<Vec<Rows>, NoMemory>
    ensures { IfOk result (λ lists. lists.items ≡ map (λ lane. of_lane lane rows.now) (range_with_len 0 lanes)) }
{
    let mut lists = Vec::with_capacity(alloc, lanes as usize)?;
    for lane in 0..lanes {
        let list = rows_of(alloc, rows, lane)?;
        lists.push_reserved(list);
    }
    Ok(lists)
}
