//! The step of an entry that may be added.
ghost use Rattle.std.specs.Prelude.{◌≡◌, ◌+◌, ◌^◌, ◌<◌, ◌≤◌, ℕ, length, None, false, OnOk, OnErr};
ghost use Rattle.lb_base.specs.declared.mask.TheConstants.{MAX_CPUS};
ghost use Rattle.lb_core.specs.Machine.{course_at};
ghost use Rattle.lb_core.specs.Placed.{is_flight};
ghost use Rattle.lb_core.specs.Stage.{is_queue};

use super::Engine;
use lb_base::NoMemory;
use lb_core::{Entry, Owner, What};
use std::alloc::Global;

impl Engine {
    ghost use Rattle.lb_core.specs.Step.{after};
    ghost use Rattle.lb_engine.specs.Held.{HandsFit};
    ghost use Rattle.lb_engine.specs.Steps.{becomes, entry_of, of_queue, served, stepped};
    ghost use Rattle.lb_engine.specs.Takes.{TakeAsks, LaneAsks, ServeAsks, OfQueueAsks, HandsAfter, is_landing};

    // The step of an entry of a lane or the publisher, but for the last tickets.
    fn take_beside(
        &mut self,
        alloc: Global,
        owner: Owner,
        lane: u32,
        what: &What,
    ) -> Result<(), NoMemory>
        requires lane { lane < length self.old.machine.courses }
        requires owner { is_queue owner None ≡ false }
        requires asks { LaneAsks what.now self.old.machine (course_at self.old.machine.courses lane) }
        ensures ok { OnOk result (self.new ≡ becomes (stepped self.old.machine (entry_of owner lane what.now)) self.old) }
        ensures refused { OnErr result (self.new ≡ self.old) }
    {
        match what {
            What::Row {
                number,
                at,
                command,
            } => self.take_row(alloc, lane, *number, *at, command),
            What::Adopt { version, kind, cpu } => {
                self.take_use(alloc, lane, *version, *kind, *cpu)
            }
            What::Look {
                position: _,
                excluded: _,
                figures,
                decision,
            } => self.take_look(alloc, lane, figures.as_slice(), *decision),
            What::Scan { figures, target } => {
                self.take_scan(alloc, lane, figures.as_slice(), *target)
            }
            What::End { unserved: _ } => {
                self.take_end(lane);
                Ok(())
            }
            What::Pub { version } => self.take_version(alloc, lane, *version),
            _ => unreachable!(),
        }
    }

    // What an entry of a queue changes itself.
    fn serve(&mut self, alloc: Global, cpu: u32, lane: u32, what: &What) -> Result<(), NoMemory>
        requires lane { lane < length self.old.machine.courses }
        requires cpu { cpu < length self.old.machine.queues }
        requires few { length self.old.machine.header.cpus ≤ MAX_CPUS }
        requires asks { ServeAsks what.now self.old.machine cpu lane }
        requires hands { HandsFit self.old }
        requires flight { is_flight (course_at self.old.machine.courses lane).form ≡ is_landing what.now }
        ensures machine { OnOk result (self.new.machine ≡ served self.old.machine (of_queue cpu lane what.now)) }
        ensures hands { OnOk result (HandsAfter what.now self.old self.new cpu lane) }
        ensures spare { self.new.spare ≡ self.old.spare }
        ensures refused { OnErr result (self.new ≡ self.old) }
    {
        match what {
            What::Did { reply } => self.take_answer(alloc, lane, cpu, *reply),
            What::Out { cause, to, ids } => {
                self.take_out(alloc, lane, cpu, *cause, *to, ids.as_slice())?;
            }
            What::Landed { ids } => self.take_landing(alloc, lane, cpu, ids.as_slice()),
            What::Turn { positions } => self.take_turn(alloc, lane, cpu, *positions)?,
            What::Shut => self.take_shut(alloc, lane, cpu),
            What::Close {
                position: _,
                outcome,
                interval: _,
                failures: _,
            } => self.take_close(lane, cpu, *outcome),
            What::Ask { reply } => self.take_ask(lane, cpu, *reply),
            What::Kick { reply } => self.take_kick(alloc, lane, cpu, *reply),
            What::Over => self.take_over(alloc, lane, cpu),
            _ => unreachable!(),
        }
        Ok(())
    }

    // The step of an entry of a queue, but for the last tickets.
    fn take_of_queue(
        &mut self,
        alloc: Global,
        cpu: u32,
        lane: u32,
        what: &What,
    ) -> Result<(), NoMemory>
        requires lane { lane < length self.old.machine.courses }
        requires asks { OfQueueAsks what.now self.old.machine cpu lane }
        requires hands { HandsFit self.old }
        requires flight { is_flight (course_at self.old.machine.courses lane).form ≡ is_landing what.now }
        requires ticket { self.old.machine.ticket + 1 < 2 ^ 64 }
        ensures machine { OnOk result (self.new.machine ≡ stepped self.old.machine (of_queue cpu lane what.now)) }
        ensures hands { HandsFit self.new }
        ensures refused { OnErr result (self.new.machine ≡ self.old.machine) }
    {
        self.make_room(cpu)?;
        self.serve(alloc, cpu, lane, what)?;
        self.publish_figure(cpu, lane);
        Ok(())
    }

    // The step of an entry, but for the last tickets.
    fn step(&mut self, alloc: Global, entry: &Entry) -> Result<(), NoMemory>
        requires asks { TakeAsks self.old.machine entry.now }
        requires hands { HandsFit self.old }
        requires ticket { self.old.machine.ticket + 1 < 2 ^ 64 }
        ensures machine { OnOk result (self.new.machine ≡ stepped self.old.machine entry.now) }
        ensures hands { HandsFit self.new }
        ensures refused { OnErr result (self.new.machine ≡ self.old.machine) }
    {
        match entry.owner {
            Owner::Queue(cpu) => self.take_of_queue(alloc, cpu, entry.lane, &entry.what),
            Owner::Lane(_) => self.take_beside(alloc, entry.owner, entry.lane, &entry.what),
            Owner::Publisher => self.take_beside(alloc, entry.owner, entry.lane, &entry.what),
        }
    }

    /// The step of an entry that may be added.
    /// Where memory runs out the machine stays as it was: whatever is taken is taken before the first
    /// change. So it is where no ticket is left.
    pub fn take(&mut self, alloc: Global, entry: &Entry) -> Result<(), NoMemory>
        requires asks { TakeAsks self.old.machine entry.now }
        requires hands { HandsFit self.old }
        ensures machine { OnOk result (self.new.machine ≡ after self.old.machine entry.now) }
        ensures hands { HandsFit self.new }
        ensures refused { OnErr result (self.new.machine ≡ self.old.machine) }
    {
        if self.ticket == u64::MAX {
            return Err(NoMemory);
        }
        self.step(alloc, entry)?;
        self.ticket += 1;
        self.last[entry.lane as usize] = self.ticket;
        Ok(())
    }
}
