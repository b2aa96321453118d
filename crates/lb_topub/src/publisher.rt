//! The publisher of versions: it adds the next topology, and shows it to lookers (docs/rules/threads.md).
ghost use Rattle.std.specs.Prelude.{◌≡◌, ◌<◌, ◌≤◌, [], ◌∷◌, length, replicate, IfOk, OnErr};
ghost use Rattle.lb_topub.specs.Versions.{add_version};

use crate::copies;
use crate::copies::Copies;
use crate::history::{Head, Known};
use crate::looker::Looker;
use crate::shown::Shown;
use lb_base::NoMemory;
use lb_domain::Topology;
use std::alloc::Global;
use std::marker::Model;
use std::mem::ManuallyDrop;
use std::sync::{Arc, Wait};

/// Publishes versions, one after the other. Contracts see all that were published. `gather` ends it; where it is
/// dropped instead, its last two versions stay in memory, since nobody may wait for its lookers then.
pub struct Publisher {
    head: Head,
    pub(crate) known: Known,
    copies: Copies,
}

impl Model for Publisher {
    ghost use Rattle.std.specs.Prelude.{◌≡◌};
    ghost use Rattle.left_right.specs.Sides.{view as view_of};
    ghost use Rattle.lb_topub.specs.Versions.{VersionsSeen};
    ghost use Rattle.lb_topub.specs.History.{head_of};
    ghost use Rattle.lb_topub.specs.Shown.{Knows};

    ghost Value = { VersionsSeen };

    ghost view = { λ p. p.known };

    ghost invariant = { λ p. (p.head ≡ head_of p.known.book) × (p.copies.desk.shown.value.known ≡ p.known) };
}

impl Publisher {
    /// A publisher of a first topology, which is version 1, and so many lookers, which have seen that version. There
    /// are 1 to 16 lookers. It refuses for want of memory alone.
    pub fn new<R: Wait>(
        rt: &R,
        alloc: Global,
        first: Topology,
        lookers: u32,
    ) -> Result<(Publisher, Vec<Looker>), NoMemory>
        requires { (0 < lookers) × (lookers ≤ 16) }
        ensures first { IfOk result (λ r. r.0.topologies ≡ first ∷ []) }
        ensures lookers { IfOk result (λ r. r.1.items ≡ replicate lookers r.0) }
    {
        let (head, nothing) = Known::open();
        let Ok(mut made) = Vec::with_capacity(alloc, lookers as usize) else {
            return Err(NoMemory);
        };
        let Ok(topology) = Arc::new(alloc, first) else {
            return Err(NoMemory);
        };
        let known = nothing.with(rt, &head, &topology);
        let shown = Shown::new(known.again(), topology);
        let mut copies = copies::of(rt, alloc, shown, lookers)?;
        for looker in 0..lookers {
            made.push_reserved(copies::new_looker(rt, &mut copies, &known));
        }
        let publisher = Publisher {
            head,
            known,
            copies,
        };
        Ok((publisher, made))
    }

    /// Publishes a topology, and answers its version, which is one more than the last. A refusal publishes nothing.
    /// It waits until no looker looks at the version before the last.
    pub fn publish<R: Wait>(
        &mut self,
        rt: &R,
        alloc: Global,
        next: Topology,
    ) -> Result<u64, NoMemory>
        ensures ok { IfOk result (λ version. (self.new ≡ add_version self.old next) × (version ≡ length self.new.topologies)) }
        ensures refused { OnErr result (self.new ≡ self.old) }
    {
        if self.known.len() == u64::MAX {
            return Err(NoMemory);
        }
        let Ok(topology) = Arc::new(alloc, next) else {
            return Err(NoMemory);
        };
        let known = self.known.with(rt, &self.head, &topology);
        let version = known.len();
        let shown = Shown::new(known.again(), topology);
        copies::show(rt, &mut self.copies, shown);
        self.known = known;
        Ok(version)
    }

    // Ends it, and answers the last version. It waits for the lookers.
    pub(crate) fn end<R: Wait>(self, rt: &R) -> u64
        ensures { result ≡ length self.topologies }
    {
        let Publisher {
            head: _,
            known,
            copies,
        } = self;
        drop(copies.take(rt));
        known.len()
    }
}

impl Drop for Publisher {
    fn drop(self) {
        let Self {
            head: _,
            known: _,
            copies,
        } = self;
        let _left = unsafe { ManuallyDrop::new_unchecked(copies) };
    }
}
