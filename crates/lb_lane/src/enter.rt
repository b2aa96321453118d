//! The draw of one entry of a lane's own list.
ghost use Rattle.std.specs.Prelude.{◌≡◌, false, [], None, IfOk, OnErr};
ghost use Rattle.lb_core.specs.declared.rule.Rule.{Rule};
ghost use Rattle.lb_core.specs.Rules.{breaks_here};
ghost use Rattle.lb_journal.specs.Journal.{CarriesFigs, CarriesMasks};
ghost use Rattle.lb_cell.specs.Cells.{IsInRange};
ghost use Rattle.lb_cell.specs.Own.{OwnAsks, entry_own, own_left, sight_own};
ghost use Rattle.lb_cell.specs.Reads.{SameBut};
ghost use Rattle.lb_lane.specs.Figures.{AllEarlier};
ghost use Rattle.lb_lane.specs.Own.{Drew, Unmoved};

use crate::figures::mark_above_all;
use crate::room::make_room;
use lb_base::{Items, NoMemory};
use lb_cell::{Lane as Side, Names, Shared};
use lb_core::{Figs, What};
use lb_trace::{Command, Masks};
use std::alloc::Global;
use std::sync::Wait;

/// Draws an entry that breaks no rule in a lane's own list, and answers its ticket. It refuses for want of memory alone,
/// and draws nothing then.
pub(crate) fn enter<N: Names, R: Wait>(
    rt: &R,
    alloc: Global,
    shared: &Shared<'_, N>,
    side: &mut Side<N>,
    what: What,
    command: Option<Command>,
    masks: Masks,
    figs: Figs,
) -> Result<u64, NoMemory>
    requires asks { OwnAsks what side.old.course command }
    requires allowed { (rule : Rule)
        → breaks_here rule (sight_own N.header side.old masks figs) (entry_own side.old what) ≡ false }
    requires carries { CarriesMasks what masks × CarriesFigs what figs }
    requires range { IsInRange (own_left N.header side.old what masks figs) }
    ensures ok { IfOk result (λ ticket. Drew N.header side.old side.new what masks figs ticket) }
    ensures reader { side.new.known.reader ≡ side.old.known.reader }
    ensures refused { OnErr result (SameBut side.old side.new) }
    ensures view { OnErr result ((side.new.seat.read ≡ side.old.seat.read) × (side.new.seat.next ≡ side.old.seat.next)) }
{
    make_room(rt, side)?;
    Ok(side.draw(alloc, shared, what, command, masks, figs))
}

/// Draws an entry that names figures, above their tickets, and answers its ticket. It refuses for want of memory alone,
/// and draws nothing then.
pub(crate) fn enter_above<N: Names, R: Wait>(
    rt: &R,
    alloc: Global,
    shared: &Shared<'_, N>,
    side: &mut Side<N>,
    what: What,
    figs: Figs,
) -> Result<u64, NoMemory>
    requires asks { OwnAsks what side.old.course None }
    requires allowed { (rule : Rule) → breaks_here rule (sight_own N.header side.old [] figs) (entry_own side.old what) ≡ false }
    requires carries { CarriesMasks what [] × CarriesFigs what figs }
    requires range { IsInRange (own_left N.header side.old what [] figs) }
    ensures drew { IfOk result (λ ticket. Drew N.header side.old side.new what [] figs ticket) }
    ensures above { IfOk result (λ ticket. AllEarlier ticket figs) }
    ensures reader { side.new.known.reader ≡ side.old.known.reader }
    ensures refused { OnErr result (Unmoved side.old side.new) }
{
    mark_above_all(rt, shared, side, figs.as_slice());
    let masks = Items::new(alloc);
    let ticket = enter(rt, alloc, shared, side, what, None, masks, figs)?;
    Ok(ticket)
}
