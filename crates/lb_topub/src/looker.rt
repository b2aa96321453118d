//! A looker, and its look at a version.
ghost use Rattle.std.specs.Prelude.{◌≡◌, length, IfOk, IfErr, OnOk, OnErr};
ghost use mathlib.Core.List.{IsPrefix};
ghost use Rattle.left_right.specs.Sides.{view};
ghost use Rattle.lb_topub.specs.Versions.{IsNewest};
ghost use Rattle.lb_topub.specs.Shown.{Knows};

use crate::history::Known;
use crate::publisher::Publisher;
use crate::shown::{Finds, OneBook, Shown};
use lb_base::NoMemory;
use lb_domain::Topology;
use left_right::reader::{Reader, Reading};
use std::marker::Model;
use std::sync::Wait;

pub(crate) type Side = Reader<Shown, Option<Known>, OneBook>;

/// Looks at versions, one after the other. Contracts see the versions that it has seen or was told of.
#[derive(Drop)]
pub struct Looker {
    pub(crate) side: Side,
    pub(crate) known: Known,
}

impl Model for Looker {
    ghost use Rattle.left_right.specs.Sides.{view as view_of};
    ghost use Rattle.lb_topub.specs.Versions.{VersionsSeen};
    ghost use Rattle.lb_topub.specs.Shown.{Knows};

    ghost Value = { VersionsSeen };

    ghost view = { λ l. l.known };

    ghost invariant = { λ l. Knows l.known.book (view_of l.side.place) };
}

/// A look at one version. A publisher that shows a further version waits until it is given back, and it cannot be
/// dropped. Contracts see all versions up to this one.
pub struct Looked {
    reading: Reading<Shown, Option<Known>, OneBook>,
}

impl Model for Looked {
    ghost use Rattle.left_right.specs.Sides.{view as view_of};
    ghost use Rattle.lb_topub.specs.Versions.{VersionsSeen};
    ghost use Rattle.lb_topub.specs.Shown.{Knows};

    ghost Value = { VersionsSeen };

    ghost view = { λ l. l.reading.part.value.known };

    ghost invariant = { λ l. Knows l.reading.part.value.known.book (view_of l.reading.place) };
}

// A look at what is shown now. It is refused where the publisher is gone.
fn enter(side: Side, known: &Known) -> Result<Looked, Side>
    requires { Knows known.now.book (view side.place) }
    ensures ok { IfOk result (λ l. l.book ≡ known.now.book) }
    ensures refused { IfErr result (λ s. Knows known.now.book (view s.place)) }
{
    let reading = side.enter_as::<Finds>()?;
    Ok(Looked { reading })
}

impl Looker {
    /// A look at one version, which is not earlier than any that this looker saw or was told of. It tries again until
    /// it is let in, and takes no memory.
    pub fn look<R: Wait>(self, rt: &R) -> Looked
        ensures book { result.book ≡ self.book }
        ensures later { IsPrefix self.topologies result.topologies }
    {
        let Looker { mut side, known } = self;
        for _ in rt.forever() {
            match enter(side, &known) {
                Ok(looked) => {
                    if known.len() <= looked.version() {
                        known.begins(&looked.reading.get().known);
                        return looked;
                    }
                    let Looked { reading } = looked;
                    side = reading.leave();
                }
                Err(refused) => side = refused,
            }
        }
        unreachable!()
    }

    /// Makes known all that the publisher has published: later looks are not earlier. It never refuses; were memory
    /// wanting, the looker would be as before.
    pub fn told(&mut self, publisher: &mut Publisher) -> Result<(), NoMemory>
        requires book { self.old.book ≡ publisher.old.book }
        ensures publisher { publisher.new ≡ publisher.old }
        ensures book { self.new.book ≡ self.old.book }
        ensures later { IsPrefix self.old.topologies self.new.topologies }
        ensures told { OnOk result (IsPrefix publisher.old.topologies self.new.topologies) }
        ensures refused { OnErr result (self.new ≡ self.old) }
    {
        if self.known.len() <= publisher.known.len() {
            self.known.begins(&publisher.known);
            self.known = publisher.known.again();
        } else {
            publisher.known.begins(&self.known);
        }
        Ok(())
    }
}

impl Looked {
    /// The version's number, from 1.
    pub fn version(&self) -> u64
        ensures { result ≡ length self.now.topologies }
    {
        self.reading.get().known.len()
    }

    /// The version's topology.
    pub fn topology(&self) -> &Topology
        ensures { IsNewest result.now self.now.topologies }
    {
        self.reading.get().topology()
    }

    /// Gives the looker back, which has seen this version. It takes no memory and waits for nobody.
    pub fn back(self) -> Looker
        ensures { result ≡ self }
    {
        let Looked { reading } = self;
        let known = reading.get().known.again();
        Looker {
            side: reading.leave(),
            known,
        }
    }
}
