//! What was read so far, and the line after it.
ghost use Rattle.std.specs.Prelude.{◌≡◌, ◌<◌, ◌^◌, ◌-◌, ◌∷◌, ◌++◌, ◌==◌, if◌then◌else◌, ℕ, List, true, false, None, length, IfErr, OnOk, Ok, Err};
ghost use Rattle.csv.specs.Records.{fields_of};
ghost use Rattle.lb_fields.specs.Pieces.{is_plain};
ghost use Rattle.lb_fields.specs.Standing.{Stands};
ghost use Rattle.lb_trace.specs.declared.kind.LineKind.TheVariants as kinds;
ghost use Rattle.lb_trace.specs.declared.reading.Reading.{Reading as Read};
ghost use Rattle.lb_trace.specs.Kinds.{line_kind};
ghost use Rattle.lb_trace.specs.Places.{has_machine, can_stand, is_past_rows, row_has_fields, has_fields};
ghost use Rattle.lb_trace.specs.Tests.{Tests, unless_bad, byte_tests, kind_tests};
ghost use Rattle.lb_trace.specs.Grammar.{after_line, line_at, ended, nothing_read, Steps, TakesLine};
ghost use Rattle.lb_trace.specs.Sound.{IsSound};
ghost use Rattle.lb_trace.specs.Ticked.{AreTicked};

use crate::kind::{LineKind, RowKind, line_kind};
use crate::line_error::LineError;
use crate::machine::nodes_of;
use crate::trace::{Code, CpuRows, Distances, MAX_ROWS, MAX_TASKS, Masks, Rows, TaskRows};
use csv::{ByteRecord, Reader};
use lb_base::{Items, MAX_CPUS};
use lb_fields::{is_plain, next_fields};
use lb_text::LINE_FEED;
use std::alloc::Global;

/// What the lines so far say, and the number of the next line, from 1.
#[derive(Drop)]
pub struct Reading {
    pub line: u64,
    pub cpus: CpuRows,
    pub distances: Distances,
    pub parts: Option<Masks>,
    pub lanes: Option<u32>,
    pub tasks: TaskRows,
    pub rows: Rows,
}

// A row of this kind has so many fields.
fn row_has_fields(kind: RowKind, count: usize) -> bool
    ensures { result ≡ row_has_fields kind count }
{
    match kind {
        RowKind::Mask | RowKind::Nice => count == 5,
        RowKind::Rebuild => count >= 4,
        RowKind::Wake | RowKind::Sleep | RowKind::Exit | RowKind::Tick => count == 4,
    }
}

impl Reading {
    /// Before the first line.
    pub fn new(alloc: Global) -> Reading
        ensures { result ≡ nothing_read }
    {
        Reading {
            line: 1,
            cpus: Items::new(alloc),
            distances: Items::new(alloc),
            parts: None,
            lanes: None,
            tasks: Items::new(alloc),
            rows: Items::new(alloc),
        }
    }

    // There are CPUs, and a row of distances for each of their nodes.
    fn has_machine(&self) -> bool
        ensures { result ≡ has_machine self.now }
    {
        !self.cpus.is_empty() && self.distances.len() == nodes_of(self.cpus.as_slice())
    }

    // A line of this kind can stand here.
    fn can_stand(&self, kind: LineKind) -> bool
        ensures { result ≡ can_stand self.now kind }
    {
        match kind {
            LineKind::Version => self.line == 1,
            LineKind::Cpu => self.distances.is_empty() && self.cpus.len() < MAX_CPUS as usize,
            LineKind::Dist => self.distances.len() < nodes_of(self.cpus.as_slice()),
            LineKind::Parts => {
                self.has_machine() && self.lanes.is_none() && self.parts.is_none()
            }
            LineKind::Lanes => self.has_machine() && self.lanes.is_none(),
            LineKind::Task => {
                self.lanes.is_some()
                    && self.rows.is_empty()
                    && (self.tasks.len() as u64) < MAX_TASKS
            }
            LineKind::Row(_) => self.lanes.is_some(),
        }
    }

    // It is a row, and the most rows were read.
    fn is_past_rows(&self, kind: LineKind) -> bool
        ensures { result ≡ is_past_rows self.now kind }
    {
        match kind {
            LineKind::Row(_) => self.rows.len() as u64 >= MAX_ROWS,
            _ => false,
        }
    }

    // A line of this kind has so many fields.
    fn has_fields(&self, kind: LineKind, count: usize) -> bool
        ensures { result ≡ has_fields self.now kind count }
    {
        match kind {
            LineKind::Version | LineKind::Lanes => count == 2,
            LineKind::Cpu | LineKind::Task => count == 5,
            LineKind::Dist => count > 0 && count - 1 == nodes_of(self.cpus.as_slice()),
            LineKind::Parts => count >= 2,
            LineKind::Row(kind) => row_has_fields(kind, count),
        }
    }

    // Takes a row, whose place and number of fields are right.
    fn row_line(
        &mut self,
        alloc: Global,
        kind: RowKind,
        fields: &ByteRecord,
        ticked: &mut [Option<u64>],
    ) -> Result<(), LineError>
        requires line { self.old.line < 2 ^ 64 - 1 }
        requires sound { IsSound self.old }
        requires lanes { length ticked.old ≡ MAX_CPUS }
        requires ticked { AreTicked self.old.rows ticked.old }
        ensures step { TakesLine (kinds.Row kind) (fields_of fields.now) self.old self.new result }
        ensures ticked { OnOk result (AreTicked self.new.rows ticked.new) }
    {
        match kind {
            RowKind::Wake => self.wake_line(fields),
            RowKind::Sleep => self.sleep_line(fields),
            RowKind::Exit => self.exit_line(fields),
            RowKind::Mask => self.mask_line(fields),
            RowKind::Nice => self.nice_line(fields),
            RowKind::Tick => self.tick_line(fields, ticked),
            RowKind::Rebuild => self.rebuild_line(alloc, fields),
        }
    }

    // Takes a line by its kind, whose place and number of fields are right.
    fn line_of(
        &mut self,
        alloc: Global,
        kind: LineKind,
        fields: &ByteRecord,
        ticked: &mut [Option<u64>],
    ) -> Result<(), LineError>
        requires line { self.old.line < 2 ^ 64 - 1 }
        requires sound { IsSound self.old }
        requires place { can_stand self.old kind ≡ true }
        requires count { has_fields self.old kind (length (fields_of fields.now)) ≡ true }
        requires lanes { length ticked.old ≡ MAX_CPUS }
        requires ticked { AreTicked self.old.rows ticked.old }
        ensures step { TakesLine kind (fields_of fields.now) self.old self.new result }
        ensures ticked { OnOk result (AreTicked self.new.rows ticked.new) }
    {
        match kind {
            LineKind::Version => {
                self.line += 1;
                Ok(())
            }
            LineKind::Cpu => self.cpu_line(fields),
            LineKind::Dist => self.dist_line(alloc, fields),
            LineKind::Parts => self.parts_line(alloc, fields),
            LineKind::Lanes => self.lanes_line(fields),
            LineKind::Task => self.task_line(fields),
            LineKind::Row(kind) => self.row_line(alloc, kind, fields, ticked),
        }
    }

    // Takes a line by its fields.
    #[tactic(auto, unfolding(crate::specs::Tests::kind_tests, crate::specs::Tests::place_tests))]
    fn kind_line(
        &mut self,
        alloc: Global,
        fields: &ByteRecord,
        ticked: &mut [Option<u64>],
    ) -> Result<(), LineError>
        requires line { self.old.line < 2 ^ 64 - 1 }
        requires sound { IsSound self.old }
        requires lanes { length ticked.old ≡ MAX_CPUS }
        requires ticked { AreTicked self.old.rows ticked.old }
        ensures step { Steps result self.new (unless_bad (kind_tests self.old (line_kind (fields_of fields.now)) (fields_of fields.now))
            (after_line self.old (line_kind (fields_of fields.now)) (fields_of fields.now))) }
        ensures ticked { OnOk result (AreTicked self.new.rows ticked.new) }
    {
        let kind = line_kind(fields).ok_or(Code::Kind)?;
        if !self.can_stand(kind) {
            return Err(LineError::Bad(Code::Order));
        }
        if self.is_past_rows(kind) {
            return Err(LineError::Bad(Code::Many));
        }
        if !self.has_fields(kind, fields.len()) {
            return Err(LineError::Bad(Code::Fields));
        }
        self.line_of(alloc, kind, fields, ticked)
    }

    // The code of a line by its bytes alone, where it has one.
    #[tactic(auto, unfolding(crate::specs::Tests::byte_tests))]
    fn test_bytes(&self, cut: bool, line: &[u8]) -> Result<(), Code>
        ensures good { OnOk result ((ts : Tests) → (read : Read)
            → unless_bad (byte_tests self.now cut line.now ++ ts) read ≡ unless_bad ts read) }
        ensures bad { IfErr result (λ code. (ts : Tests) → (read : Read)
            → unless_bad (byte_tests self.now cut line.now ++ ts) read ≡ Err code) }
        ensures plain { OnOk result (is_plain line.now ≡ true) }
        ensures cut { OnOk result (cut ≡ false) }
    {
        if !is_plain(line) {
            return Err(Code::Byte);
        }
        if cut {
            return Err(Code::Cut);
        }
        if self.line == 1 && line != b"lbtrace,1".as_slice() {
            return Err(Code::Header);
        }
        Ok(())
    }

    // The code of a text that ends here, where it has one.
    #[tactic(auto, unfolding(crate::specs::Grammar::ended, crate::specs::Tests::end_tests))]
    fn test_end(&self) -> Result<(), LineError>
        ensures { Steps result self.now (ended self.now) }
    {
        if self.line == 1 {
            return Err(LineError::Bad(Code::Header));
        }
        if self.lanes.is_none() {
            return Err(LineError::Bad(Code::Order));
        }
        Ok(())
    }

    /// Takes what stands after the last line feed: the end of the text, or a line that is cut off.
    #[tactic(auto, unfolding(crate::specs::Grammar::line_at, crate::specs::Tests::line_tests))]
    pub fn test_last(&self, last: &[u8]) -> Result<(), LineError>
        ensures { Steps result self.now (if length last.now == 0 then ended self.now else line_at self.now true last.now) }
    {
        if last.is_empty() {
            return self.test_end();
        }
        Ok(self.test_bytes(true, last)?)
    }

    /// Takes the next line, before which the reader of fields stands.
    #[tactic(auto, unfolding(crate::specs::Grammar::line_at, crate::specs::Tests::line_tests))]
    pub fn take_line(
        &mut self,
        alloc: Global,
        line: &[u8],
        reader: &mut Reader<&[u8]>,
        fields: &mut ByteRecord,
        ticked: &mut [Option<u64>],
    ) -> Result<(), LineError>
        requires line { self.old.line < 2 ^ 64 - 1 }
        requires sound { IsSound self.old }
        requires lanes { length ticked.old ≡ MAX_CPUS }
        requires ticked { AreTicked self.old.rows ticked.old }
        ensures step { (tail : List ℕ) → (is_plain line.now ≡ true → Stands reader.old (line.now ++ LINE_FEED ∷ tail))
            → Steps result self.new (line_at self.old false line.now) × OnOk result (Stands reader.new tail) }
        ensures ticked { OnOk result (AreTicked self.new.rows ticked.new) }
    {
        self.test_bytes(false, line)?;
        if line.is_empty() {
            return Err(LineError::Bad(Code::Kind));
        }
        next_fields(reader, line, fields)?;
        self.kind_line(alloc, fields, ticked)
    }
}
