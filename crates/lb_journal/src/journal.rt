//! The item of a ticket book: an entry with what its owner knows of it.
ghost use Rattle.std.specs.Prelude.{◌≡◌, ◌<◌, ◌^◌};
ghost use Rattle.lb_journal.specs.Journal.{number_of};

use lb_core::{Course, Entry, Figs, Owner};
use lb_ticket::Item;
use lb_trace::{Header, Masks};
use std::marker::Model;
use std::snapshot::Snapshot;

/// An entry with what its owner knows of it: the header of its machine, the course that it quotes and the course
/// that it leaves, and the masks of a `use` or the figures of a look or a scan. At run time only the entry is
/// kept.
///
/// As owners of a ticket book the publisher has number 0, lane l has number l + 1, and the queue of CPU c has
/// number 17 + c.
#[derive(Drop)]
pub struct Journal {
    entry: Entry,
    header: Snapshot<Header>,
    course: Snapshot<Course>,
    after: Snapshot<Course>,
    masks: Snapshot<Masks>,
    figs: Snapshot<Figs>,
}

impl Model for Journal {
    ghost use Rattle.std.specs.Prelude.{◌<◌, ◌^◌};
    ghost use Rattle.lb_journal.specs.Journal.{Journal as JournalIs, number_of};

    ghost Value = { JournalIs };

    ghost view = { λ j. record {
      header = j.header.value;
      entry = j.entry;
      course = j.course.value;
      after = j.after.value;
      masks = j.masks.value;
      figs = j.figs.value;
    } };

    ghost invariant = { λ j. number_of j.entry.owner < 2 ^ 32 };
}

/// What an entry leaves: its lane, and the course of that lane after it. No value of it is made.
pub struct Left {
    course: Snapshot<Course>,
    lane: u32,
}

impl Model for Left {
    ghost use Rattle.lb_journal.specs.Journal.{Left as LeftIs};

    ghost Value = { LeftIs };

    ghost view = { λ l. record { course = l.course.value; lane = l.lane } };
}

impl Journal {
    /// An entry with what its owner knows of it: the header, the quoted course (the opening course where nothing
    /// is quoted), the course that it leaves, and the masks and figures that it carries.
    pub fn new(
        entry: Entry,
        header: Snapshot<Header>,
        course: Snapshot<Course>,
        after: Snapshot<Course>,
        masks: Snapshot<Masks>,
        figs: Snapshot<Figs>,
    ) -> Journal
        requires { number_of entry.owner < 2 ^ 32 }
        ensures { result ≡ record {
          header = header.value;
          entry = entry;
          course = course.value;
          after = after.value;
          masks = masks.value;
          figs = figs.value;
        } }
    {
        Journal {
            entry,
            header,
            course,
            after,
            masks,
            figs,
        }
    }

    /// The entry alone, which is what a history has of it.
    pub fn into_entry(self) -> Entry
        ensures { result ≡ self.entry }
    {
        let Journal {
            entry,
            header: _,
            course: _,
            after: _,
            masks: _,
            figs: _,
        } = self;
        entry
    }
}

impl Item for Journal {
    ghost use Rattle.lb_journal.specs.Journal.{meaning_of_journal};

    type Left = Left;

    ghost means = { meaning_of_journal };

    fn owner(&self) -> u32 {
        match self.entry.owner {
            Owner::Publisher => 0,
            Owner::Lane(lane) => lane + 1,
            Owner::Queue(cpu) => cpu + 17,
        }
    }

    fn lane(&self) -> u32 {
        self.entry.lane
    }

    fn quote(&self) -> Option<u64> {
        if self.entry.prev == 0 {
            None
        } else {
            Some(self.entry.prev)
        }
    }
}
