//! The steps of the entries that lanes and the publisher draw.
ghost use Rattle.std.specs.Prelude.{◌≡◌, ◌<◌, ◌≤◌, ℕ, length, map, All, IfOk, OnOk, OnErr};
ghost use Rattle.std.specs.List.{slice_index_or};
ghost use Rattle.lb_base.specs.declared.mask.TheConstants.{MAX_CPUS};
ghost use Rattle.lb_base.specs.Figures.{no_fig};
ghost use Rattle.lb_core.specs.declared.entry.What.TheVariants as what;
ghost use Rattle.lb_core.specs.Machine.{course_at, figures_at, figures_named};
ghost use Rattle.lb_engine.specs.Asks.{IsPublished};

use super::Engine;
use lb_base::{Buffer, Fig, Items, Kind, Mask, NoMemory};
use lb_core::{CpuFig, FigName, Figs};
use lb_course::{asked, ended, looked, published, scanned, taken_up};
use lb_domain::Topology;
use lb_imbalance::Decision;
use lb_trace::Command;
use std::alloc::Global;

// The figure of a name.
fn figure_named(figures: &[Buffer<Fig>], name: FigName) -> CpuFig
    requires { IsPublished (map (λ b. b.items) figures.now) name }
    ensures { result ≡ record { cpu = name.cpu; fig = slice_index_or (figures_at (map (λ b. b.items) figures.now) name.cpu) name.n no_fig } }
{
    CpuFig {
        cpu: name.cpu,
        fig: figures[name.cpu as usize].as_slice()[name.n as usize],
    }
}

// The figures with these names.
fn figures_named(
    alloc: Global,
    figures: &[Buffer<Fig>],
    names: &[FigName],
) -> Result<Figs, NoMemory>
    requires { All (IsPublished (map (λ b. b.items) figures.now)) names.now }
    ensures { IfOk result (λ figs. figs ≡ figures_named (map (λ b. b.items) figures.now) names.now) }
{
    let mut figs = Items::new(alloc);
    for name in names {
        figs.push(figure_named(figures, *name))?;
    }
    Ok(figs)
}

#[tactic(auto, unfolding(lb_core::specs::Step::after, lb_core::specs::Machine::sight, lb_core::specs::CourseAfter::course_after))]
impl Engine {
    ghost use Rattle.lb_base.specs.declared.mask.Mask.{Mask};
    ghost use Rattle.lb_engine.specs.Asks.{TicksBelow, RebuildAsks};
    ghost use Rattle.lb_engine.specs.Steps.{becomes, of_lane, of_publisher, stepped};

    // A lane takes up its next row.
    pub(super) fn take_row(
        &mut self,
        alloc: Global,
        lane: u32,
        number: u64,
        at: u64,
        command: &Command,
    ) -> Result<(), NoMemory>
        requires lane { lane < length self.old.machine.courses }
        requires ticks { TicksBelow (length self.old.machine.ticked) command.now }
        ensures ok { OnOk result (self.new ≡ becomes (stepped self.old.machine (of_lane lane (what.Row number at command.now))) self.old) }
        ensures refused { OnErr result (self.new ≡ self.old) }
    {
        let copy = command.copy(alloc)?;
        if let Command::Tick { cpu } = command {
            self.ticked[*cpu as usize] = Some(lane);
        }
        asked(&mut self.courses[lane as usize], number, at, copy);
        Ok(())
    }

    // A lane takes up a version for a turn.
    pub(super) fn take_use(
        &mut self,
        alloc: Global,
        lane: u32,
        version: u64,
        kind: Kind,
        cpu: u32,
    ) -> Result<(), NoMemory>
        requires lane { lane < length self.old.machine.courses }
        requires some { 1 ≤ version }
        requires published { version ≤ length self.old.machine.versions }
        ensures ok { OnOk result (self.new ≡ becomes (stepped self.old.machine (of_lane lane (what.Adopt version kind cpu))) self.old) }
        ensures refused { OnErr result (self.new ≡ self.old) }
    {
        let topology = self.versions.get((version - 1) as usize);
        let masks = Items::from_slice(alloc, topology.masks())?;
        taken_up(&mut self.courses[lane as usize], version, masks, kind, cpu);
        Ok(())
    }

    // A lane reads the figures of a domain, and decides.
    pub(super) fn take_look(
        &mut self,
        alloc: Global,
        lane: u32,
        figures: &[FigName],
        decision: Decision,
    ) -> Result<(), NoMemory>
        requires lane { lane < length self.old.machine.courses }
        requires named { All (λ f. f.cpu < length (course_at self.old.machine.courses lane).named) figures.now }
        requires there { All (IsPublished self.old.machine.figures) figures.now }
        requires turned { (course_at self.old.machine.courses lane).cpu < MAX_CPUS }
        ensures ok { (p : ℕ) → (x : Mask) → OnOk result
            (self.new ≡ becomes (stepped self.old.machine (of_lane lane (what.Look p x figures.now decision))) self.old) }
        ensures refused { OnErr result (self.new ≡ self.old) }
    {
        let figs = figures_named(alloc, &self.figures, figures)?;
        looked(
            &mut self.courses[lane as usize],
            figures,
            figs.as_slice(),
            decision,
        );
        Ok(())
    }

    // A lane reads the figures of the widest domain, and finds a CPU to kick or none.
    pub(super) fn take_scan(
        &mut self,
        alloc: Global,
        lane: u32,
        figures: &[FigName],
        target: Option<u32>,
    ) -> Result<(), NoMemory>
        requires lane { lane < length self.old.machine.courses }
        requires named { All (λ f. f.cpu < length (course_at self.old.machine.courses lane).named) figures.now }
        requires there { All (IsPublished self.old.machine.figures) figures.now }
        ensures ok { OnOk result (self.new ≡ becomes (stepped self.old.machine (of_lane lane (what.Scan figures.now target))) self.old) }
        ensures refused { OnErr result (self.new ≡ self.old) }
    {
        let figs = figures_named(alloc, &self.figures, figures)?;
        scanned(
            alloc,
            &mut self.courses[lane as usize],
            figures,
            figs,
            target,
        );
        Ok(())
    }

    // Lane 0 ends the history.
    pub(super) fn take_end(&mut self, lane: u32)
        requires lane { lane < length self.old.machine.courses }
        ensures { (cpus : Mask) → self.new ≡ becomes (stepped self.old.machine (of_lane lane (what.End cpus))) self.old }
    {
        ended(&mut self.courses[lane as usize]);
        self.ended = true;
    }

    // The publisher publishes the masks of a row as a new version.
    pub(super) fn take_version(
        &mut self,
        alloc: Global,
        lane: u32,
        version: u64,
    ) -> Result<(), NoMemory>
        requires lane { lane < length self.old.machine.courses }
        requires rebuild { RebuildAsks (length self.old.machine.header.cpus) (course_at self.old.machine.courses lane).command }
        ensures ok { OnOk result (self.new ≡ becomes (stepped self.old.machine (of_publisher lane (what.Pub version))) self.old) }
        ensures refused { OnErr result (self.new ≡ self.old) }
    {
        if let Some(Command::Rebuild { parts }) = &self.courses[lane as usize].command {
            let topology = Topology::of(alloc, &self.layout, parts.as_slice())?;
            self.versions.push(topology)?;
        }
        published(alloc, &mut self.courses[lane as usize], version);
        Ok(())
    }
}
