//! The shapes of the domains of a turn, with which a queue opens it.
ghost use Rattle.std.specs.Prelude.{◌≡◌, ◌≤◌, length};
ghost use Rattle.lb_levels.specs.declared.limits.TheConstants.{MAX_LEVELS};
ghost use Rattle.lb_core.specs.Course.{turn_domains, shapes_of};

use super::Turn;
use lb_base::{LevelName, Mask, Shape};
use lb_domain::Domain;
use lb_levels::MAX_LEVELS;
use std::marker::Model;

/// The shapes of the domains of a CPU, from the bottom. It takes no memory.
#[derive(Drop)]
pub struct Shapes {
    list: [Shape; MAX_LEVELS as usize],
    count: usize,
}

impl Model for Shapes {
    ghost use Rattle.std.specs.Prelude.{◌≤◌, List, take};
    ghost use Rattle.lb_base.specs.declared.shape.Shape.{Shape};
    ghost use Rattle.lb_levels.specs.declared.limits.TheConstants.{MAX_LEVELS};

    ghost Value = { List Shape };

    ghost view = { λ s. take s.count s.list };

    ghost invariant = { λ s. s.count ≤ MAX_LEVELS };
}

impl Shapes {
    /// The shapes as a slice.
    pub fn as_slice(&self) -> &[Shape]
        ensures { result.now ≡ self.now }
    {
        &self.list[..self.count]
    }
}

// The shapes of domains.
fn shapes_of(domains: &[Domain]) -> Shapes
    requires { length domains.now ≤ MAX_LEVELS }
    ensures { result ≡ shapes_of domains.now }
{
    let none = Shape {
        name: LevelName::Smt,
        below: None,
        position: 0,
        span: Mask::none(),
    };
    let mut list = [none; MAX_LEVELS as usize];
    for i in 0..domains.len() {
        list[i] = domains[i].shape;
    }
    Shapes {
        list,
        count: domains.len(),
    }
}

impl<'a> Turn<'a> {
    /// The shapes of the domains of the turn's CPU, at most `MAX_LEVELS`.
    pub fn shapes(&self) -> Shapes
        ensures value { result ≡ shapes_of (turn_domains self.now.header self.now.course) }
        ensures few { length (turn_domains self.now.header self.now.course) ≤ MAX_LEVELS }
    {
        shapes_of(self.domains)
    }
}
