//! The figures that a lane reads from the board.
ghost use Rattle.std.specs.Prelude.{ℕ, ◌≡◌, ◌<◌, ◌≤◌, [], ◌∷◌, true, IfOk, length, All};
ghost use Rattle.lb_base.specs.Mask.{has, members};
ghost use Rattle.lb_journal.specs.Journal.{names_of};
ghost use Rattle.lb_cell.specs.Reads.{SameBut};
ghost use Rattle.lb_lane.specs.Figures.{AllEarlier, AreOf, IsRead, Sees};

use lb_base::{Items, Mask, NoMemory};
use lb_cell::laws::look_sees_more;
use lb_cell::{Lane as Side, Names, Shared};
use lb_core::{CpuFig, FigName, FigNames, Figs};
use std::alloc::Global;
use std::sync::Wait;

// A figure of one CPU.
fn read_one<N: Names, R: Wait>(
    rt: &R,
    shared: &Shared<'_, N>,
    side: &mut Side<N>,
    cpu: u32,
) -> CpuFig
    requires { cpu < length N.board }
    ensures sees { Sees side.old side.new }
    ensures cpu { result.cpu ≡ cpu }
    ensures read { IsRead side.old.known.reader side.new.known.reader result }
{
    // what is seen of the other CPUs is as it was
    look_sees_more();
    let fig = side.read(rt, shared, cpu);
    CpuFig { cpu, fig }
}

/// A figure of each CPU of a mask. A refusal is for want of memory alone.
pub(crate) fn read_all<N: Names, R: Wait>(
    rt: &R,
    alloc: Global,
    shared: &Shared<'_, N>,
    side: &mut Side<N>,
    due: Mask,
) -> Result<Figs, NoMemory>
    requires { (k : ℕ) → has due k ≡ true → k < length N.board }
    ensures sees { Sees side.old side.new }
    ensures figs { IfOk result (λ figs. AreOf side.old.known.reader side.new.known.reader (members due) figs) }
    ensures inside { IfOk result (λ figs. All (λ f. f.cpu < length N.board) figs) }
{
    let mut figs = Items::new(alloc);
    let mut next = due.first();
    while let Some(cpu) = next {
        figs.push(read_one(rt, shared, side, cpu))?;
        next = due.next_after(cpu);
    }
    Ok(figs)
}

/// The names of figures.
pub(crate) fn names_of(alloc: Global, figs: &[CpuFig]) -> Result<FigNames, NoMemory>
    ensures { IfOk result (λ names. names ≡ names_of figs.now) }
{
    let mut names = Items::new(alloc);
    for read in figs {
        names.push(FigName {
            cpu: read.cpu,
            n: read.fig.n,
        })?;
    }
    Ok(names)
}

// The greatest ticket of figures.
fn top_ticket(figs: &[CpuFig]) -> u64
    ensures { All (λ f. f.fig.ticket ≤ result) figs.now }
{
    let mut top = 0;
    for i in 0..figs.len() {
        top = top.max(figs[i].fig.ticket);
    }
    top
}

// Marks until each further ticket of the lane is above this one. It is one that was drawn, so the first mark is.
fn mark_above<N: Names, R: Wait>(rt: &R, shared: &Shared<'_, N>, side: &mut Side<N>, ticket: u64)
    ensures same { SameBut side.old side.new }
    ensures above { ticket < side.new.seat.next }
    ensures later { side.old.seat.next ≤ side.new.seat.next }
    ensures view { (side.new.seat.read ≡ side.old.seat.read) × (side.new.seat.spare ≡ side.old.seat.spare) }
{
    for _ in rt.forever() {
        if ticket < side.mark(shared) {
            return;
        }
    }
    unreachable!()
}

/// Marks until each further ticket of the lane is above those of the figures.
pub(crate) fn mark_above_all<N: Names, R: Wait>(
    rt: &R,
    shared: &Shared<'_, N>,
    side: &mut Side<N>,
    figs: &[CpuFig],
)
    ensures same { SameBut side.old side.new }
    ensures above { AllEarlier side.new.seat.next figs.now }
    ensures later { side.old.seat.next ≤ side.new.seat.next }
    ensures view { (side.new.seat.read ≡ side.old.seat.read) × (side.new.seat.spare ≡ side.old.seat.spare) }
{
    mark_above(rt, shared, side, top_ticket(figs));
}
