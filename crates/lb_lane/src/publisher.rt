//! The publisher behind its lock.
ghost use Rattle.std.specs.Prelude.{◌≡◌, ◌≤◌, ◌++◌, OnOk, length, map};
ghost use mathlib.Core.List.{IsPrefix};
ghost use Rattle.lb_cell.specs.Reads.{SameBut};
ghost use Rattle.lb_lane.specs.Publishers.{PublisherKeeps};
ghost use Rattle.lb_ticket.specs.Facts.{held_of};

use crate::lane::Lane;
use crate::versions::Versions;
use lb_cell::laws::saw_stays;
use lb_cell::{Names, Shared};
use lb_journal::Journal;
use lb_journal::laws::uses_stay;
use lb_ticket::{Coding, Seat};
use lb_topub::{Looker, Publisher};
use std::marker::{Model, PhantomData};
use std::sync::Wait;

/// What stands behind the publisher's lock: the publisher, and its entries.
#[derive(Drop)]
pub struct PublisherCell<N: Names + Versions> {
    pub(crate) publisher: Publisher,
    pub(crate) seat: Seat<Journal>,
    pub(crate) names: PhantomData<N>,
}

impl<N: Names + Versions> Model for PublisherCell<N> {
    ghost use Rattle.lb_lane.specs.Publishers.{PublisherIs, PublisherKeeps};

    ghost Value = { PublisherIs };

    ghost view = { λ p. record { publisher = p.publisher; seat = p.seat } };

    ghost invariant = { λ p.
        PublisherKeeps N.header N.book N.versions (record { publisher = p.publisher; seat = p.seat }) };
}

/// Tells a looker of all versions. It never refuses, so the first try succeeds.
pub(crate) fn tell<R: Wait>(rt: &R, looker: &mut Looker, publisher: &mut Publisher)
    requires { looker.old.book ≡ publisher.old.book }
    ensures publisher { publisher.new ≡ publisher.old }
    ensures book { looker.new.book ≡ looker.old.book }
    ensures later { IsPrefix looker.old.topologies looker.new.topologies }
    ensures told { IsPrefix publisher.old.topologies looker.new.topologies }
{
    for _ in rt.forever() {
        if looker.told(publisher).is_ok() {
            return;
        }
    }
    unreachable!()
}

impl<N: Names + Versions> PublisherCell<N> {
    /// What is kept behind the lock.
    pub fn keeps(&self)
        ensures { PublisherKeeps N.header N.book N.versions self.now }
    {
        // reads a field of it, so that what it keeps is known
        let _seat = &self.seat;
    }

    /// Lets a lane vouch for all versions: it reads the `pub` of each, so that each further ticket of it is above them,
    /// and its looker is told of them.
    pub fn vouch<R: Wait>(&mut self, rt: &R, shared: &Shared<'_, N>, lane: &mut Lane<N>)
        ensures cell { self.new ≡ self.old }
        ensures vouched { lane.new.vouched ≡ length self.old.publisher.topologies }
        ensures told { IsPrefix self.old.publisher.topologies lane.new.looker.topologies }
        ensures side { SameBut lane.old.side lane.new.side }
        ensures later { lane.old.side.seat.next ≤ lane.new.side.seat.next }
        ensures read { lane.new.side.seat.read
            ≡ lane.old.side.seat.read ++ map (held_of ⟦<Journal as Coding>⟧.coding) self.old.seat.list }
        ensures rest { (lane.new.rows ≡ lane.old.rows) × (lane.new.turned ≡ lane.old.turned)
            × (lane.new.domains ≡ lane.old.domains) }
    {
        // what the lane saw and read stays
        saw_stays();
        uses_stay();
        lane.side.follow(shared, &mut self.seat);
        tell(rt, &mut lane.looker, &mut self.publisher);
        lane.vouched = self.seat.len() + 1;
    }
}
