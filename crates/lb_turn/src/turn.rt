//! The turn that a lane has in work, over the domains that its CPU has in one version.
ghost use Rattle.std.specs.Prelude.{◌≡◌, ◌≤◌, nat_lt, length};
ghost use Rattle.lb_levels.specs.declared.limits.TheConstants.{MAX_LEVELS};
ghost use Rattle.lb_core.specs.Course.{turn_domains, turn_domain};
ghost use Rattle.lb_queue.specs.Turns.{counters_at, tries_of};

use lb_base::Shape;
use lb_core::Course;
use lb_domain::{Domain, Topology};
use lb_interval::Counters;
use lb_queue::tries;
use lb_trace::Header;
use std::marker::Model;

mod ends;
mod looks;
mod shapes;

pub use ends::{flag, word_of};
pub use looks::local_group;
pub use shapes::Shapes;

/// The turn of a lane: what the trace declares, the domains of the turn's CPU in the version that the lane took up
/// last, and the lane's course. Contracts see the header and the course.
#[derive(Drop)]
pub struct Turn<'a> {
    header: &'a Header,
    domains: &'a [Domain],
    course: &'a Course,
}

impl<'a> Model for Turn<'a> {
    ghost use Rattle.lb_turn.specs.Turns.{TurnState, ShowsDomains};

    ghost Value = { TurnState };

    ghost view = { λ t. record { header = t.header.now; course = t.course.now } };

    ghost invariant = { λ t. ShowsDomains t.header.now t.domains.now t.course.now };
}

impl<'a> Turn<'a> {
    ghost use Rattle.lb_turn.specs.Turns.{HasDomain, IsTurn, ShowsDomains};

    /// The turn of a course, over the topology of the version that it took up.
    pub fn new(header: &'a Header, topology: &'a Topology, course: &'a Course) -> Turn<'a>
        requires { IsTurn header.now topology.now course.now }
        ensures { result ≡ record { header = header.now; course = course.now } }
    {
        Turn {
            header,
            domains: topology.domains(course.cpu),
            course,
        }
    }

    /// The turn of a course, over the domains of its CPU in the version that it took up.
    pub fn with(header: &'a Header, domains: &'a [Domain], course: &'a Course) -> Turn<'a>
        requires { ShowsDomains header.now domains.now course.now }
        ensures { result ≡ record { header = header.now; course = course.now } }
    {
        Turn {
            header,
            domains,
            course,
        }
    }

    /// How many domains the turn's CPU has.
    pub fn count(&self) -> u32
        ensures count { result ≡ length (turn_domains self.now.header self.now.course) }
        ensures few { result ≤ MAX_LEVELS }
    {
        self.domains.len() as u32
    }

    /// Whether the turn's CPU has domains.
    pub fn has_domains(&self) -> bool
        ensures { result ≡ nat_lt 0 (length (turn_domains self.now.header self.now.course)) }
    {
        self.count() > 0
    }

    /// The shape of the domain in work.
    pub fn shape(&self) -> Shape
        requires { HasDomain self.now }
        ensures { result ≡ (turn_domain self.now.header self.now.course).shape }
    {
        self.domains[self.course.position as usize].shape
    }

    /// The cache tries of the domain in work (docs/rules/domains.md).
    pub fn tries(&self) -> u32
        requires { HasDomain self.now }
        ensures { result ≡ tries_of (turn_domain self.now.header self.now.course).shape.name }
    {
        tries(self.shape().name)
    }

    /// The counters that the turn found at the position in work, or zeros where it found none.
    pub fn counters(&self) -> Counters
        ensures { result ≡ counters_at self.now.course.counters self.now.course.position }
    {
        let position = self.course.position as usize;
        if position < self.course.counters.len() {
            *self.course.counters.get(position)
        } else {
            Counters {
                last: 0,
                interval: 0,
                failures: 0,
                imb: false,
            }
        }
    }
}
