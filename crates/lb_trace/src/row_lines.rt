//! The rows, each by what its fields say.
ghost use Rattle.std.specs.Prelude.{◌≡◌, ◌≤◌, ◌<◌, ◌^◌, ◌+◌, ◌-◌, ◌∷◌, ◌++◌, [], ◌||◌, nat_lt, true, false, length, is_none, Ok, Err, IfOk, IfErr, IfNone, IfSome, OnOk};
ghost use Rattle.csv.specs.Records.{fields_of};
ghost use Rattle.lb_trace.specs.declared.kind.LineKind.TheVariants as kinds;
ghost use Rattle.lb_trace.specs.declared.kind.RowKind.TheVariants as rows;
ghost use Rattle.lb_trace.specs.declared.reading.Reading.{Reading as Read};
ghost use Rattle.lb_trace.specs.Values.{number, lane_in, moment_in, subject_in};
ghost use Rattle.lb_trace.specs.Naming.{lanes_of};
ghost use Rattle.lb_trace.specs.Tests.{unless_bad, value_tests};
ghost use Rattle.lb_trace.specs.Grammar.{TakesLine};
ghost use Rattle.lb_trace.specs.Ticked.{is_other, AreTicked};

use crate::fields::{list_at, masks_from, nice_at, number_at};
use crate::line_error::LineError;
use crate::masks::{are_disjoint, has_no_cpu};
use crate::reading::Reading;
use crate::trace::{Code, Command, MAX_ID, MAX_MOMENT, MAX_TASKS, Row};
use csv::ByteRecord;
use lb_base::{MAX_CPUS, NoMemory};
use std::alloc::Global;

// The lane and the moment of a row.
fn lane_and_moment(fields: &ByteRecord) -> Option<(u64, u64)>
    ensures bad { IfNone result ((is_none (lane_in (fields_of fields.now)) || is_none (moment_in (fields_of fields.now))) ≡ true) }
    ensures good { IfSome result (λ p. ((is_none (lane_in (fields_of fields.now)) || is_none (moment_in (fields_of fields.now))) ≡ false)
        × (p.0 ≡ number (lane_in (fields_of fields.now))) × (p.1 ≡ number (moment_in (fields_of fields.now)))) }
{
    let lane = number_at(fields, 1, 0, MAX_ID)?;
    let at = number_at(fields, 2, 0, MAX_MOMENT)?;
    Some((lane, at))
}

// The task or the CPU of a row.
fn subject_in(fields: &ByteRecord) -> Option<u64>
    ensures { result ≡ subject_in (fields_of fields.now) }
{
    number_at(fields, 3, 0, MAX_ID)
}

// Whether a lane ticked, and it is another than this one.
fn is_other(ticking: Option<u64>, lane: u64) -> bool
    ensures { result ≡ is_other ticking lane }
{
    match ticking {
        Some(ticking) => ticking != lane,
        None => false,
    }
}

impl Reading {
    // Whether a lane is declared.
    fn has_lane(&self, lane: u64) -> bool
        ensures value { result ≡ nat_lt lane (lanes_of self.now) }
        ensures small { result ≡ true → lane < 2 ^ 32 }
    {
        match self.lanes {
            Some(lanes) => lane < u64::from(lanes),
            None => false,
        }
    }

    // Whether a task is declared.
    fn has_task(&self, task: u64) -> bool
        ensures { result ≡ nat_lt task (length self.now.tasks) }
    {
        task < self.tasks.len() as u64
    }

    // Takes a row without a fault.
    fn push_row(&mut self, lane: u64, at: u64, command: Command) -> Result<(), NoMemory>
        requires lane { lane < 2 ^ 32 }
        requires line { self.old.line < 2 ^ 64 - 1 }
        ensures { OnOk result (self.new ≡ record self.old {
          line = self.old.line + 1;
          rows = self.old.rows ++ record { lane = lane; at = at; command = command } ∷ [];
        }) }
    {
        let lane = lane as u32;
        self.rows.push(Row { lane, at, command })?;
        self.line += 1;
        Ok(())
    }

    // The lane, the moment and the task of a row that has nothing more, or the row's code.
    #[tactic(auto, unfolding(crate::specs::Tests::value_tests))]
    fn task_row(&self, fields: &ByteRecord) -> Result<(u64, u64, u32), Code>
        requires { length self.now.tasks ≤ MAX_TASKS }
        ensures good { IfOk result (λ p. (read : Read)
            → unless_bad (value_tests self.now (kinds.Row rows.Wake) (fields_of fields.now)) read ≡ Ok read) }
        ensures values { IfOk result (λ p. (p.0 < 2 ^ 32) × (p.0 ≡ number (lane_in (fields_of fields.now)))
            × (p.1 ≡ number (moment_in (fields_of fields.now))) × (p.2 ≡ number (subject_in (fields_of fields.now)))) }
        ensures bad { IfErr result (λ code. (read : Read)
            → unless_bad (value_tests self.now (kinds.Row rows.Wake) (fields_of fields.now)) read ≡ Err code) }
    {
        let (lane, at) = lane_and_moment(fields).ok_or(Code::Number)?;
        let task = subject_in(fields).ok_or(Code::Number)?;
        if !self.has_lane(lane) || !self.has_task(task) {
            return Err(Code::Id);
        }
        Ok((lane, at, task as u32))
    }

    /// Takes a `wake` row, or answers its code. Its place and number of fields are right.
    #[tactic(auto, unfolding(crate::specs::Tests::value_tests))]
    pub fn wake_line(&mut self, fields: &ByteRecord) -> Result<(), LineError>
        requires line { self.old.line < 2 ^ 64 - 1 }
        requires few { length self.old.tasks ≤ MAX_TASKS }
        ensures { TakesLine (kinds.Row rows.Wake) (fields_of fields.now) self.old self.new result }
    {
        let (lane, at, task) = self.task_row(fields)?;
        Ok(self.push_row(lane, at, Command::Wake { task })?)
    }

    /// Takes a `sleep` row, or answers its code. Its place and number of fields are right.
    #[tactic(auto, unfolding(crate::specs::Tests::value_tests))]
    pub fn sleep_line(&mut self, fields: &ByteRecord) -> Result<(), LineError>
        requires line { self.old.line < 2 ^ 64 - 1 }
        requires few { length self.old.tasks ≤ MAX_TASKS }
        ensures { TakesLine (kinds.Row rows.Sleep) (fields_of fields.now) self.old self.new result }
    {
        let (lane, at, task) = self.task_row(fields)?;
        Ok(self.push_row(lane, at, Command::Sleep { task })?)
    }

    /// Takes an `exit` row, or answers its code. Its place and number of fields are right.
    #[tactic(auto, unfolding(crate::specs::Tests::value_tests))]
    pub fn exit_line(&mut self, fields: &ByteRecord) -> Result<(), LineError>
        requires line { self.old.line < 2 ^ 64 - 1 }
        requires few { length self.old.tasks ≤ MAX_TASKS }
        ensures { TakesLine (kinds.Row rows.Exit) (fields_of fields.now) self.old self.new result }
    {
        let (lane, at, task) = self.task_row(fields)?;
        Ok(self.push_row(lane, at, Command::Exit { task })?)
    }

    /// Takes a `mask` row, or answers its code. Its place and number of fields are right.
    #[tactic(auto, unfolding(crate::specs::Tests::value_tests))]
    pub fn mask_line(&mut self, fields: &ByteRecord) -> Result<(), LineError>
        requires line { self.old.line < 2 ^ 64 - 1 }
        requires few { length self.old.tasks ≤ MAX_TASKS }
        ensures { TakesLine (kinds.Row rows.Mask) (fields_of fields.now) self.old self.new result }
    {
        let (lane, at) = lane_and_moment(fields).ok_or(Code::Number)?;
        let task = subject_in(fields).ok_or(Code::Number)?;
        let mask = list_at(fields, 4).ok_or(Code::List)?;
        if !self.has_lane(lane) || !self.has_task(task) {
            return Err(LineError::Bad(Code::Id));
        }
        let task = task as u32;
        Ok(self.push_row(lane, at, Command::SetMask { task, mask })?)
    }

    /// Takes a `nice` row, or answers its code. Its place and number of fields are right.
    #[tactic(auto, unfolding(crate::specs::Tests::value_tests))]
    pub fn nice_line(&mut self, fields: &ByteRecord) -> Result<(), LineError>
        requires line { self.old.line < 2 ^ 64 - 1 }
        requires few { length self.old.tasks ≤ MAX_TASKS }
        ensures { TakesLine (kinds.Row rows.Nice) (fields_of fields.now) self.old self.new result }
    {
        let (lane, at) = lane_and_moment(fields).ok_or(Code::Number)?;
        let task = subject_in(fields).ok_or(Code::Number)?;
        let nice = nice_at(fields, 4).ok_or(Code::Number)?;
        if !self.has_lane(lane) || !self.has_task(task) {
            return Err(LineError::Bad(Code::Id));
        }
        let task = task as u32;
        Ok(self.push_row(lane, at, Command::Nice { task, nice })?)
    }

    /// Takes a `tick` row, or answers its code, and notes which lane ticks the CPU. Its place and
    /// number of fields are right.
    #[tactic(auto, unfolding(crate::specs::Tests::value_tests), using(crate::proofs::TickFacts::one_tick))]
    pub fn tick_line(
        &mut self,
        fields: &ByteRecord,
        ticked: &mut [Option<u64>],
    ) -> Result<(), LineError>
        requires line { self.old.line < 2 ^ 64 - 1 }
        requires few { length self.old.cpus ≤ length ticked.old }
        requires small { length self.old.cpus ≤ MAX_CPUS }
        requires ticked { AreTicked self.old.rows ticked.old }
        ensures step { TakesLine (kinds.Row rows.Tick) (fields_of fields.now) self.old self.new result }
        ensures ticked { OnOk result (AreTicked self.new.rows ticked.new) }
    {
        let (lane, at) = lane_and_moment(fields).ok_or(Code::Number)?;
        let cpu = subject_in(fields).ok_or(Code::Number)?;
        if !self.has_lane(lane) || cpu >= self.cpus.len() as u64 {
            return Err(LineError::Bad(Code::Id));
        }
        let place = cpu as usize;
        if is_other(ticked[place], lane) {
            return Err(LineError::Bad(Code::Ticks));
        }
        ticked[place] = Some(lane);
        let cpu = cpu as u32;
        Ok(self.push_row(lane, at, Command::Tick { cpu })?)
    }

    /// Takes a `rebuild` row, or answers its code. Its place and number of fields are right.
    #[tactic(auto, unfolding(crate::specs::Tests::value_tests))]
    pub fn rebuild_line(&mut self, alloc: Global, fields: &ByteRecord) -> Result<(), LineError>
        requires line { self.old.line < 2 ^ 64 - 1 }
        requires few { length self.old.cpus ≤ MAX_CPUS }
        ensures { TakesLine (kinds.Row rows.Rebuild) (fields_of fields.now) self.old self.new result }
    {
        let (lane, at) = lane_and_moment(fields).ok_or(Code::Number)?;
        let parts = masks_from(alloc, fields, 3)?.ok_or(Code::List)?;
        if !self.has_lane(lane) {
            return Err(LineError::Bad(Code::Id));
        }
        if has_no_cpu(parts.as_slice(), self.cpus.len() as u32) {
            return Err(LineError::Bad(Code::NoCpu));
        }
        if !are_disjoint(parts.as_slice()) {
            return Err(LineError::Bad(Code::Overlap));
        }
        Ok(self.push_row(lane, at, Command::Rebuild { parts })?)
    }
}
