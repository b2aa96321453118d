//! Whether a look or a scan of a lane may be drawn.
ghost use Rattle.std.specs.Prelude.{ℕ, ◌≡◌, ◌↔◌, true, false, IsTrue};
ghost use Rattle.lb_base.specs.Mask.{has};
ghost use Rattle.lb_core.specs.Course.{turn_domain};
ghost use Rattle.lb_lane.specs.Lanes.{is_due};
ghost use Rattle.lb_lane.specs.Looks.{LookAsks, look_due};
ghost use Rattle.lb_lane.specs.Scans.{ScanAsks};
ghost use Rattle.lb_trace.specs.declared.trace.Header.{Header as HeaderIs};

use crate::lane::Lane;
use crate::versions::Versions;
use lb_base::Mask;
use lb_cell::Names;
use lb_core::{Course, Form};
use lb_course::is_all_pinned;
use lb_domain::Domain;
use lb_turn::local_group;

// Whether no CPU is in both masks.
fn are_apart(a: Mask, b: Mask) -> bool
    ensures { IsTrue result ↔ ((k : ℕ) → has a k ≡ true → has b k ≡ false) }
{
    a.and(b).first().is_none()
}

// Whether a look at the domain in work is due.
fn look_due(course: &Course, domain: &Domain) -> bool
    ensures due { (h : HeaderIs) → turn_domain h course.now ≡ domain.now → result ≡ look_due course.now.form h course.now }
    ensures late { result ≡ true → is_due course.now.form ≡ false }
{
    let others = domain
        .shape
        .span
        .without(course.excluded)
        .without(local_group(domain));
    match course.form {
        Form::Position => true,
        Form::Landed => is_all_pinned(course) && others.first().is_some(),
        _ => false,
    }
}

impl<N: Names + Versions> Lane<N> {
    /// Whether a look at the position in work may be drawn.
    pub fn can_look(&self) -> bool
        ensures { IsTrue result ↔ LookAsks N.header self.now }
    {
        let course = self.side.course();
        let position = course.position as usize;
        if position >= self.domains.len() {
            return false;
        }
        let domain = self.domains.get(position);
        look_due(course, domain) && are_apart(local_group(domain), course.excluded)
    }

    /// Whether a scan may be drawn.
    pub fn can_scan(&self) -> bool
        ensures { IsTrue result ↔ ScanAsks N.header self.now }
    {
        self.side.course().form == Form::ScanDue && !self.domains.is_empty()
    }
}
