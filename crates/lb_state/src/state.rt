//! The state of the machine: its start, its step, and the entries that it draws.
ghost use Rattle.std.specs.Prelude.{◌≡◌, ◌<◌, ◌+◌, ℕ, length, true, None, Some, IfOk, IfSome, OnErr, option_copied};
ghost use Rattle.lb_trace.specs.Accepted.{IsHeader, is_row};
ghost use Rattle.lb_core.specs.declared.entry.Entry.{Entry};
ghost use Rattle.lb_core.specs.Machine.{start};
ghost use Rattle.lb_core.specs.Ranges.{what_fits, entry_fits};
ghost use Rattle.lb_core.specs.Step.{after, first_broken};
ghost use Rattle.lb_ready.specs.Next.{IsSerialNext};

use crate::laws::{hands_may_land, steps_may_be_taken};
use lb_base::NoMemory;
use lb_core::{Entry, MAX_TICKET, Rule};
use lb_draw::next_entry;
use lb_engine::Engine;
use lb_judge::first_broken;
use lb_ready::laws::{entries_fit, ready};
use lb_trace::{Header, Row};
use std::alloc::Global;
use std::marker::Model;

mod readers;

/// The machine after some legal entries of an accepted trace (docs/rules/lanes.md). Its engine changes in
/// place: no step copies a queue, a topology or the history.
///
/// Contracts see the machine itself.
pub struct State {
    alloc: Global,
    engine: Engine,
}

impl Model for State {
    ghost use Rattle.lb_core.specs.Machine.{MachineState};
    ghost use Rattle.lb_state.specs.Inside.{IsInside};

    ghost Value = { MachineState };

    ghost view = { λ s. s.engine.machine };

    ghost invariant = { λ s. IsInside s.engine };
}

impl State {
    /// The machine of an accepted header before any entry. It keeps the allocator.
    pub fn start(alloc: Global, header: &Header) -> Result<State, NoMemory>
        requires { IsHeader header.now }
        ensures { IfOk result (λ state. state ≡ start header.now) }
    {
        // the opening machine is ready
        ready();
        let engine = Engine::start(alloc, header)?;
        Ok(State { alloc, engine })
    }

    /// Judges an entry, and takes it where it may be added. The answer is the first rule that it breaks
    /// (docs/rules/legality.md): the machine stays as it was then. None says that it breaks no rule: the
    /// machine is the one after it. Where memory runs out, or no ticket is left, the machine stays as it was.
    pub fn step(&mut self, entry: &Entry) -> Result<Option<Rule>, NoMemory>
        requires { what_fits entry.now.what ≡ true }
        ensures judged { IfOk result (λ rule. rule ≡ first_broken self.old entry.now) }
        ensures taken { IfOk result (λ rule. rule ≡ None → self.new ≡ after self.old entry.now) }
        ensures broken { IfOk result (λ rule. IfSome rule (λ _. self.new ≡ self.old)) }
        ensures refused { OnErr result (self.new ≡ self.old) }
    {
        // an entry that may be added keeps the machine ready,
        ready();
        // and meets what its step asks of the engine
        steps_may_be_taken();
        let broken = first_broken(self.alloc, &self.engine, entry)?;
        if broken.is_none() {
            self.engine.take(self.alloc, entry)?;
        }
        Ok(broken)
    }

    /// Draws the serial entry of a lane, which takes up the last published version and reads each queue's
    /// last figure, and takes it. A lane at rest takes up the given row; without one, lane 0 serves the
    /// pending stops and then ends the history. A lane at work goes on, and leaves a row that it is given. None
    /// where the lane has to wait for others or has nothing to draw: the machine stays as it was then, as where
    /// memory runs out (docs/rules/lanes.md).
    ///
    /// So every serial entry of the lane that may be added is the answer, and the answer is one. No entry is
    /// drawn past ticket [`MAX_TICKET`].
    pub fn draw(&mut self, lane: u32, row: Option<&Row>) -> Result<Option<Entry>, NoMemory>
        requires lane { lane < length self.old.courses }
        requires own { IfSome row (λ r. r.now.lane ≡ lane) }
        requires accepted { IfSome row (λ r. is_row self.old.header r.now ≡ true) }
        ensures drawn { IfOk result (λ drawn. IfSome drawn (λ e. IsSerialNext self.old lane (option_copied row.entry) e)) }
        ensures all { IfOk result (λ drawn. (e : Entry) → IsSerialNext self.old lane (option_copied row.entry) e → drawn ≡ Some e) }
        ensures in_range { IfOk result (λ drawn. IfSome drawn (λ e. entry_fits (self.old.ticket + 1) e ≡ true)) }
        ensures taken { IfOk result (λ drawn. IfSome drawn (λ e. self.new ≡ after self.old e)) }
        ensures none { IfOk result (λ drawn. drawn ≡ None → self.new ≡ self.old) }
        ensures refused { OnErr result (self.new ≡ self.old) }
    {
        // an entry that may be added keeps the machine ready,
        ready();
        // says what is in range,
        entries_fit();
        // and meets what its step asks of the engine
        steps_may_be_taken();
        if self.engine.ticket() >= MAX_TICKET {
            return Err(NoMemory);
        }
        let drawn = next_entry(self.alloc, &self.engine, lane, row)?;
        if let Some(entry) = &drawn {
            self.engine.take(self.alloc, entry)?;
        }
        Ok(drawn)
    }
}

impl Drop for State {
    fn drop(self) {
        // the hands go to queues where they may land
        hands_may_land();
        let State { alloc: _, engine } = self;
        engine.end();
    }
}
