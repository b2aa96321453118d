//! The value that lookers look at: a version with its topology. There are two copies of it, so it takes in a whole
//! version at a time, and the copies share the topology.
ghost use Rattle.std.specs.Prelude.{◌≡◌, IfOk};
ghost use Rattle.std.specs.Arc.{arc_value};
ghost use Rattle.lb_topub.specs.Versions.{IsNewest};

use crate::history::Known;
use atomic_table::{Join, Split};
use crossbeam_utils::rule::{Outcome, Protocol};
use lb_domain::Topology;
use left_right::Absorb;
use std::alloc::{AllocError, Global};
use std::sync::Arc;

/// A version: all versions up to this one, as they are known, and its topology.
#[derive(Drop)]
pub struct Shown {
    pub(crate) known: Known,
    topology: Arc<Topology, Global>,
    ghost newest: { IsNewest (arc_value topology) known.topologies },
}

impl Shown {
    pub(crate) fn new(known: Known, topology: Arc<Topology, Global>) -> Shown
        requires { IsNewest (arc_value topology) known.topologies }
        ensures { result.known ≡ known }
    {
        Shown { known, topology }
    }

    // A second owner of the topology. It refuses where the count of owners is full.
    pub(crate) fn another(&self) -> Result<Shown, AllocError>
        ensures { IfOk result (λ s. s.known ≡ self.now.known) }
    {
        Ok(Shown {
            known: self.known.again(),
            topology: Arc::try_clone(&self.topology)?,
        })
    }

    pub(crate) fn topology(&self) -> &Topology
        ensures { IsNewest result.now self.now.known.topologies }
    {
        &self.topology
    }
}

impl Absorb<Shown> for Shown {
    type State = Known;

    ghost state = { λ s. s.known };

    ghost applied = { λ _ next. next.known };

    fn absorb_first(&mut self, operation: &Shown, _other: &Shown) -> Result<(), AllocError> {
        *self = operation.another()?;
        Ok(())
    }

    fn absorb_second(&mut self, operation: Shown, _other: &Shown) -> Result<(), Shown> {
        *self = operation;
        Ok(())
    }
}

/// The rule of what is shown: whoever knows whose versions they are knows the same as what is shown. A holder of the
/// value does not know it at first; its first look, or the publisher, tells it.
pub struct OneBook;

impl Protocol<Shown, Option<Known>> for OneBook {
    ghost use Rattle.std.specs.Prelude.{None};
    ghost use Rattle.lb_topub.specs.Shown.{AllOf};

    ghost holds = { λ s. AllOf s.known.book };

    ghost first = { None };
}

/// A look, or a new version: what is shown now is known.
pub struct Finds;

impl Outcome<Shown, Option<Known>> for Finds {
    ghost use Rattle.lb_topub.specs.Shown.{finds};

    ghost then = { λ v x y w. finds v y.known w };
}

/// The publisher tells a looker whose versions they are.
pub struct Telling;

impl Split<Option<Known>> for Telling {
    ghost left = { λ v. v };

    ghost right = { λ v. v };
}

impl Join<Option<Known>> for Telling {
    ghost use Rattle.std.specs.Prelude.{None};

    ghost both = { λ v w. w };

    ghost spent = { None };
}
