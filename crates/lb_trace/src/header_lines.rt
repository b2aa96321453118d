//! The lines of the header, each by what its fields say.
ghost use Rattle.std.specs.Prelude.{◌≡◌, ◌≤◌, ◌<◌, ◌-◌, ◌^◌, true, false, length, IfNone, IfSome};
ghost use Rattle.csv.specs.Records.{fields_of};
ghost use Rattle.lb_trace.specs.declared.kind.LineKind.TheVariants as kinds;
ghost use Rattle.lb_trace.specs.Values.{number, nice, id_in, home_in, nice_at, cpu_of};
ghost use Rattle.lb_trace.specs.Spelling.{misspells_number};
ghost use Rattle.lb_trace.specs.Places.{can_stand, has_fields};
ghost use Rattle.lb_trace.specs.Grammar.{TakesLine};
ghost use Rattle.lb_trace.specs.Sound.{IsSound};

use crate::fields::{distances_in, list_at, masks_from, nice_at, number_at};
use crate::line_error::LineError;
use crate::machine::{cpu_clashes, is_bad_distance, is_nested, nodes_of};
use crate::masks::{are_disjoint, has_no_cpu, is_no_mask};
use crate::reading::Reading;
use crate::trace::{Code, MAX_CORE, MAX_ID, MAX_LANES, MAX_NODES, TaskRow};
use csv::ByteRecord;
use lb_base::{MAX_CPUS, NoMemory};
use lb_levels::CpuRow;
use std::alloc::Global;

// The id of a CPU and what it is part of.
fn cpu_in(fields: &ByteRecord) -> Option<(u64, CpuRow)>
    ensures bad { IfNone result (misspells_number kinds.Cpu (fields_of fields.now) ≡ true) }
    ensures good { IfSome result (λ p. (misspells_number kinds.Cpu (fields_of fields.now) ≡ false)
        × (p.0 ≡ number (id_in (fields_of fields.now))) × (p.1 ≡ cpu_of (fields_of fields.now))) }
{
    let id = number_at(fields, 1, 0, MAX_ID)?;
    let core = number_at(fields, 2, 0, MAX_CORE)? as u32;
    let cache = number_at(fields, 3, 0, MAX_CORE)? as u32;
    let node = number_at(fields, 4, 0, MAX_NODES - 1)? as u32;
    Some((id, CpuRow { core, cache, node }))
}

// The id, the nice value and the home of a task.
fn task_in(fields: &ByteRecord) -> Option<(u64, i32, u64)>
    ensures bad { IfNone result (misspells_number kinds.Task (fields_of fields.now) ≡ true) }
    ensures good { IfSome result (λ p. (misspells_number kinds.Task (fields_of fields.now) ≡ false)
        × (p.0 ≡ number (id_in (fields_of fields.now))) × (p.1 ≡ nice (nice_at 2 (fields_of fields.now)))
        × (p.2 ≡ number (home_in (fields_of fields.now)))) }
{
    let id = number_at(fields, 1, 0, MAX_ID)?;
    let nice = nice_at(fields, 2)?;
    let home = number_at(fields, 3, 0, MAX_ID)?;
    Some((id, nice, home))
}

impl Reading {
    /// Takes a `cpu` line, or answers its code. Its place and number of fields are right.
    #[tactic(auto, unfolding(crate::specs::Tests::value_tests))]
    pub fn cpu_line(&mut self, fields: &ByteRecord) -> Result<(), LineError>
        requires { self.old.line < 2 ^ 64 - 1 }
        ensures { TakesLine kinds.Cpu (fields_of fields.now) self.old self.new result }
    {
        let (id, cpu) = cpu_in(fields).ok_or(Code::Number)?;
        if id != self.cpus.len() as u64 {
            return Err(LineError::Bad(Code::Id));
        }
        if cpu_clashes(self.cpus.as_slice(), cpu) {
            return Err(LineError::Bad(Code::Cpu));
        }
        self.cpus.push(cpu)?;
        self.line += 1;
        Ok(())
    }

    /// Takes a `dist` line, or answers its code. Its place and number of fields are right.
    #[tactic(auto, unfolding(crate::specs::Tests::value_tests))]
    pub fn dist_line(&mut self, alloc: Global, fields: &ByteRecord) -> Result<(), LineError>
        requires line { self.old.line < 2 ^ 64 - 1 }
        requires sound { IsSound self.old }
        requires place { can_stand self.old kinds.Dist ≡ true }
        requires count { has_fields self.old kinds.Dist (length (fields_of fields.now)) ≡ true }
        ensures { TakesLine kinds.Dist (fields_of fields.now) self.old self.new result }
    {
        let nodes = nodes_of(self.cpus.as_slice());
        let Some(distances) = distances_in(alloc, fields)? else {
            return Err(LineError::Bad(Code::Number));
        };
        self.distances.push(distances)?;
        let table = self.distances.as_slice();
        if is_bad_distance(table, nodes) {
            return Err(LineError::Bad(Code::Dist));
        }
        if table.len() == nodes && !is_nested(alloc, self.cpus.as_slice(), table)? {
            return Err(LineError::Bad(Code::Nested));
        }
        self.line += 1;
        Ok(())
    }

    /// Takes a `parts` line, or answers its code. Its place and number of fields are right.
    #[tactic(auto, unfolding(crate::specs::Tests::value_tests))]
    pub fn parts_line(&mut self, alloc: Global, fields: &ByteRecord) -> Result<(), LineError>
        requires line { self.old.line < 2 ^ 64 - 1 }
        requires few { length self.old.cpus ≤ MAX_CPUS }
        ensures { TakesLine kinds.Parts (fields_of fields.now) self.old self.new result }
    {
        let masks = masks_from(alloc, fields, 1)?.ok_or(Code::List)?;
        if has_no_cpu(masks.as_slice(), self.cpus.len() as u32) {
            return Err(LineError::Bad(Code::NoCpu));
        }
        if !are_disjoint(masks.as_slice()) {
            return Err(LineError::Bad(Code::Overlap));
        }
        self.parts = Some(masks);
        self.line += 1;
        Ok(())
    }

    /// Takes a `lanes` line, or answers its code. Its place and number of fields are right.
    #[tactic(auto, unfolding(crate::specs::Tests::value_tests))]
    pub fn lanes_line(&mut self, fields: &ByteRecord) -> Result<(), LineError>
        requires { self.old.line < 2 ^ 64 - 1 }
        ensures { TakesLine kinds.Lanes (fields_of fields.now) self.old self.new result }
    {
        let lanes = number_at(fields, 1, 1, MAX_LANES).ok_or(Code::Number)?;
        self.lanes = Some(lanes as u32);
        self.line += 1;
        Ok(())
    }

    /// Takes a `task` line, or answers its code. Its place and number of fields are right.
    #[tactic(auto, unfolding(crate::specs::Tests::value_tests))]
    pub fn task_line(&mut self, fields: &ByteRecord) -> Result<(), LineError>
        requires line { self.old.line < 2 ^ 64 - 1 }
        requires few { length self.old.cpus ≤ MAX_CPUS }
        ensures { TakesLine kinds.Task (fields_of fields.now) self.old self.new result }
    {
        let (id, nice, home) = task_in(fields).ok_or(Code::Number)?;
        let mask = list_at(fields, 4).ok_or(Code::List)?;
        if id != self.tasks.len() as u64 || home >= self.cpus.len() as u64 {
            return Err(LineError::Bad(Code::Id));
        }
        if is_no_mask(mask, self.cpus.len() as u32) {
            return Err(LineError::Bad(Code::Mask));
        }
        let home = home as u32;
        self.tasks.push(TaskRow { nice, home, mask })?;
        self.line += 1;
        Ok(())
    }
}
