//! What is counted of a history.
ghost use Rattle.std.specs.Prelude.{◌≡◌, ◌^◌, ◌<◌, ◌≤◌, length, true, IfOk};
ghost use Rattle.lb_trace.specs.Accepted.{IsHeader};
ghost use Rattle.lb_trace.specs.declared.trace.TheConstants.{MAX_TASKS};
ghost use Rattle.lb_core.specs.Legal.{IsLegalFront};
ghost use Rattle.lb_core.specs.Ranges.{entries_fit};
ghost use Rattle.lb_summary.specs.Summary.{level_balanced, steps_of, summary_of};
ghost use Rattle.lb_summary.specs.Counting.{with_pulled, with_tasks, counting, AreAtMost, Balances, PullsWhere, MayCount};

use lb_base::{LevelName, NoMemory};
use lb_core::{Entry, History, What};
use lb_queue::OutCause;
use lb_ready::laws::ready;
use lb_state::State;
use lb_turn::Turn;
use std::alloc::Global;

/// The counts of a history.
#[derive(Clone, Copy, Debug, PartialEq, Eq)]
pub struct Summary {
    /// The rows.
    pub rows: u64,
    /// All entries.
    pub entries: u64,
    /// The tasks that were pulled at SMT, in looks at threads of a core.
    pub pulled_smt: u64,
    /// The tasks that were pulled at MC.
    pub pulled_mc: u64,
    /// The tasks that were pulled at PKG.
    pub pulled_pkg: u64,
    /// The tasks that were pulled between nodes, whatever their distance.
    pub pulled_numa: u64,
    /// The tasks that were pushed.
    pub pushed: u64,
    /// The tasks that were stopped, at a tick or at the end.
    pub stopped: u64,
}

// The level of the domain that a lane balances.
fn level_balanced(state: &State, lane: u32) -> LevelName
    requires { Balances state.now lane }
    ensures { result ≡ level_balanced state.now lane }
{
    let course = state.course(lane);
    let topology = state.topology_of(course.version);
    let shape = Turn::new(state.header(), topology, course).shape();
    shape.name
}

impl Summary {
    // Counts tasks that were pulled at a level.
    fn count_pulled(&mut self, level: LevelName, tasks: u64)
        requires small { AreAtMost (2 ^ 63) self.old }
        requires few { tasks ≤ MAX_TASKS }
        ensures { self.new ≡ with_pulled level tasks self.old }
    {
        match level {
            LevelName::Smt => self.pulled_smt += tasks,
            LevelName::Mc => self.pulled_mc += tasks,
            LevelName::Pkg => self.pulled_pkg += tasks,
            LevelName::Numa(_) => self.pulled_numa += tasks,
        }
    }

    // Counts tasks that left a queue for this cause, by an entry of the lane.
    fn count_tasks(&mut self, before: &State, lane: u32, cause: OutCause, tasks: u64)
        requires small { AreAtMost (2 ^ 63) self.old }
        requires few { tasks ≤ MAX_TASKS }
        requires pulls { PullsWhere cause before.now lane }
        ensures { self.new ≡ with_tasks cause (level_balanced before.now lane) tasks self.old }
    {
        match cause {
            OutCause::Pull => self.count_pulled(level_balanced(before, lane), tasks),
            OutCause::Push => self.pushed += tasks,
            OutCause::Stop => self.stopped += tasks,
            // a wake to another queue is counted nowhere
            OutCause::Wake => (),
        }
    }

    // Counts an entry, in the state before it.
    #[tactic(auto, unfolding(crate::specs::Counting::counting))]
    fn count(&mut self, before: &State, entry: &Entry)
        requires small { AreAtMost (2 ^ 62) self.old }
        requires may { MayCount entry.now.what before.now entry.now.lane }
        ensures { self.new ≡ counting entry.now.what (level_balanced before.now entry.now.lane) self.old }
    {
        self.entries += 1;
        match &entry.what {
            What::Row {
                number: _,
                at: _,
                command: _,
            } => self.rows += 1,
            What::Out { cause, to: _, ids } => {
                self.count_tasks(before, entry.lane, *cause, ids.len() as u64)
            }
            _ => (),
        }
    }

    /// Counts the entries of a legal history, each in the state before it.
    pub fn of(alloc: Global, history: &History) -> Result<Summary, NoMemory>
        requires header { IsHeader history.now.header }
        requires legal { IsLegalFront history.now.header history.now.entries }
        requires entries { entries_fit history.now.entries ≡ true }
        requires few { length history.now.entries < 2 ^ 40 }
        ensures { IfOk result (λ summary. summary ≡ summary_of (steps_of history.now)) }
    {
        // each entry that may be added keeps the machine ready
        ready();
        let mut summary = Summary {
            rows: 0,
            entries: 0,
            pulled_smt: 0,
            pulled_mc: 0,
            pulled_pkg: 0,
            pulled_numa: 0,
            pushed: 0,
            stopped: 0,
        };
        let mut state = State::start(alloc, &history.header)?;
        for entry in history.entries.as_slice() {
            summary.count(&state, entry);
            // it may be added, so that it is taken
            state.step(entry)?;
        }
        Ok(summary)
    }
}
