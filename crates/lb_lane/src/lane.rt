//! A lane, as a type: its side of the entries at queues, and what it has beside it.
use crate::versions::Versions;
use lb_base::Items;
use lb_cell::{Lane as Side, Names};
use lb_core::Form;
use lb_domain::Domain;
use lb_journal::Journal;
use lb_ticket::Coding;
use lb_topub::Looker;
use lb_trace::Rows;
use std::marker::Model;

/// A lane: its side of the entries that it draws at queues, a looker at versions, its rows, and the domains that its
/// turn looks at.
#[derive(Drop)]
pub struct Lane<N: Names + Versions> {
    pub(crate) side: Side<N>,
    pub(crate) looker: Looker,
    pub(crate) rows: Rows,
    pub(crate) vouched: u64,
    pub(crate) turned: u32,
    pub(crate) domains: Items<Domain>,
}

impl<N: Names + Versions> Model for Lane<N> {
    ghost use Rattle.lb_lane.specs.Lanes.{LaneIs, LaneKeeps};

    ghost Value = { LaneIs };

    ghost view = { λ l. record {
      side = l.side;
      looker = l.looker;
      rows = l.rows;
      vouched = l.vouched;
      turned = l.turned;
      domains = l.domains;
    } };

    ghost invariant = { λ l.
        LaneKeeps N.header N.board N.versions ⟦<Journal as Coding>⟧.coding
        (record {
          side = l.side;
          looker = l.looker;
          rows = l.rows;
          vouched = l.vouched;
          turned = l.turned;
          domains = l.domains;
        }) };
}

impl<N: Names + Versions> Lane<N> {
    ghost use Rattle.std.specs.Prelude.{◌≡◌, ◌<◌, ◌↔◌, false, IsTrue, length};
    ghost use Rattle.lb_core.specs.declared.course.Form.TheVariants as form;
    ghost use Rattle.lb_lane.specs.Lanes.{LaneKeeps, is_due};
    ghost use Rattle.lb_turn.specs.Turns.{ShowsDomains};

    /// What the lane may do next, and its number.
    pub fn side(&self) -> &Side<N>
        ensures { result.now ≡ self.now.side }
    {
        &self.side
    }

    /// Whether there are rows that it has not taken up.
    pub fn has_rows(&self) -> bool
        ensures { IsTrue result ↔ (self.now.side.course.rows < length self.now.rows) }
    {
        self.side.course().rows < self.rows.len() as u64
    }

    /// Whether it is at rest, and has taken up all its rows.
    pub fn is_done(&self) -> bool
        ensures { IsTrue result ↔ ((self.now.side.course.form ≡ form.Rest) × (self.now.side.course.rows ≡ length self.now.rows)) }
    {
        self.side.course().form == Form::Rest && !self.has_rows()
    }

    /// What every lane keeps.
    pub fn keeps(&self)
        ensures { LaneKeeps N.header N.board N.versions ⟦<Journal as Coding>⟧.coding self.now }
    {
        // reads a field of it, so that what it keeps is known
        let _vouched = self.vouched;
    }

    /// The domains that it has of the CPU of its turn: those of the version that it used last, until a turn is due of
    /// which it has taken up none.
    pub fn domains(&self) -> &[Domain]
        ensures domains { result.now ≡ self.now.domains }
        ensures turn { is_due self.now.side.course.form ≡ false → ShowsDomains N.header result.now self.now.side.course }
    {
        self.domains.as_slice()
    }
}
