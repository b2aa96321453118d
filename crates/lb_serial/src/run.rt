//! The entries that were drawn so far, and the state that they leave.
ghost use Rattle.std.specs.Prelude.{◌≡◌, ◌<◌, ◌+◌, [], drop, length, true, IfOk, IfSome, OnOk, option_copied};
ghost use Rattle.lb_trace.specs.Accepted.{IsHeader, IsTrace, is_row};
ghost use Rattle.lb_core.specs.declared.entry.Entry.{Entry};
ghost use Rattle.lb_ready.specs.Laws.{is_at_rest};
ghost use Rattle.lb_ready.specs.Next.{IsSerialNext};

use lb_base::{Items, NoMemory};
use lb_core::{Form, History};
use lb_state::State;
use lb_trace::{Header, Row, Trace};
use std::alloc::Global;

/// A front of a serial history, and the state of the machine after it.
#[derive(Drop)]
pub struct Run {
    pub history: History,
    pub state: State,
}

impl Run {
    ghost use Rattle.lb_serial.specs.Fronts.{opening, with_entry, IsAtRest};

    /// Nothing is drawn yet.
    pub fn start(alloc: Global, header: &Header) -> Result<Run, NoMemory>
        requires { IsHeader header.now }
        ensures { IfOk result (λ run. run ≡ opening header.now) }
    {
        Ok(Run {
            history: History {
                header: header.copy(alloc)?,
                entries: Items::new(alloc),
            },
            state: State::start(alloc, header)?,
        })
    }

    /// The lane draws its next entry; at rest it takes up this row, if one is given.
    pub fn draw(&mut self, lane: u32, row: Option<&Row>) -> Result<(), NoMemory>
        requires lane { lane < length self.old.state.courses }
        requires own { IfSome row (λ r. r.now.lane ≡ lane) }
        requires accepted { IfSome row (λ r. is_row self.old.state.header r.now ≡ true) }
        ensures { (e : Entry) → IsSerialNext self.old.state lane (option_copied row.entry) e
            → OnOk result (self.new ≡ with_entry self.old e) }
    {
        match self.state.draw(lane, row)? {
            Some(entry) => self.history.entries.push(entry),
            None => Ok(()),
        }
    }

    // Whether the lane has no row in service.
    fn is_at_rest(&self, lane: u32) -> bool
        requires { lane < length self.now.state.courses }
        ensures { result ≡ is_at_rest self.now.state lane }
    {
        matches!(self.state.course(lane).form, Form::Rest)
    }

    // Serves the row of the trace at this place, from 0: its lane takes it up, and goes on until it rests.
    fn serve(&mut self, trace: &Trace, place: usize) -> Result<(), NoMemory>
        requires trace { IsTrace trace.now }
        requires place { place < length trace.now.rows }
        requires rest { IsAtRest trace.now (drop place trace.now.rows) self.old }
        ensures { OnOk result (IsAtRest trace.now (drop (place + 1) trace.now.rows) self.new) }
    {
        let row = trace.rows.get(place);
        let lane = row.lane;
        self.draw(lane, Some(row))?;
        while !self.is_at_rest(lane) {
            self.draw(lane, None)?;
        }
        Ok(())
    }

    /// Serves the rows of the trace in file order, each to its end.
    pub fn serve_rows(&mut self, trace: &Trace) -> Result<(), NoMemory>
        requires trace { IsTrace trace.now }
        requires rest { IsAtRest trace.now trace.now.rows self.old }
        ensures { OnOk result (IsAtRest trace.now [] self.new) }
    {
        for place in 0..trace.rows.len() {
            self.serve(trace, place)?;
        }
        Ok(())
    }
}
