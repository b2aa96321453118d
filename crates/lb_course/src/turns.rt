//! The moves of turns: a version is taken up, the turn opens, its positions close, and it ends.
ghost use Rattle.std.specs.Prelude.{◌≡◌, ◌<◌, nat_lt, length, Some};
ghost use Rattle.lb_base.specs.declared.mask.TheConstants.{MAX_CPUS};
ghost use Rattle.lb_base.specs.Sets.{least};
ghost use Rattle.lb_trace.specs.declared.trace.Header.{Header};
ghost use Rattle.lb_core.specs.declared.course.Form.TheVariants as form;
ghost use Rattle.lb_core.specs.Course.{turn_kind, turn_domains};
ghost use Rattle.lb_core.specs.CourseAfter.{is_due_at, goes_to, goes_on, kicks_next, closes, turn_ends};

use crate::figures::tickless_in;
use crate::readers::turn_kind;
use crate::rest::{begin_anew, rest};
use lb_base::{Kind, MAX_CPUS, Mask};
use lb_core::{CounterRows, Course, Form, OutcomeWord};
use lb_trace::Masks;
use std::alloc::Global;

// A turn of this kind is due at the CPU.
pub(crate) fn be_due_at(course: &mut Course, kind: Kind, cpu: u32)
    ensures { course.new ≡ is_due_at kind cpu course.old }
{
    course.form = Form::Due;
    course.kind = Some(kind);
    course.cpu = cpu;
}

/// The course after a version, with its partition masks, was taken up for a turn of a CPU.
pub fn taken_up(course: &mut Course, version: u64, masks: Masks, kind: Kind, cpu: u32)
    ensures { course.new ≡ record course.old {
      form = form.Used;
      version = version;
      masks = masks;
      kind = Some kind;
      cpu = cpu;
      named_version = version;
    } }
{
    course.form = Form::Used;
    course.version = version;
    course.masks = masks;
    course.kind = Some(kind);
    course.cpu = cpu;
    course.named_version = version;
}

/// The course after a turn has opened with these positions. `counters` are those that it found, one for
/// each domain of its CPU, from the bottom.
pub fn turn_opens(course: &mut Course, positions: Mask, counters: CounterRows)
    ensures { course.new ≡ goes_to (least positions) (record course.old { positions = positions; counters = counters }) }
{
    course.positions = positions;
    course.counters = counters;
    go_to(course, positions.first());
}

// A position is next, or the turn is done.
fn go_to(course: &mut Course, position: Option<u32>)
    ensures { course.new ≡ goes_to position course.old }
{
    begin_anew(course);
    match position {
        None => {
            course.form = Form::Done;
            course.position = 0;
        }
        Some(position) => {
            course.form = Form::Position;
            course.position = position;
        }
    }
}

/// The course after the position in work was done: the next one is due, or the end of the turn. So it goes
/// on after an active request, too.
pub fn go_on(course: &mut Course)
    requires { course.old.position < MAX_CPUS }
    ensures { course.new ≡ goes_on course.old }
{
    let next = course.positions.next_after(course.position);
    go_to(course, next);
}

/// The course after the position in work was closed with this outcome.
pub fn close(course: &mut Course, word: OutcomeWord)
    requires { course.old.position < MAX_CPUS }
    ensures { course.new ≡ closes word course.old }
{
    match word {
        OutcomeWord::Asking => course.form = Form::Closed,
        OutcomeWord::NotMine => go_to(course, None),
        OutcomeWord::Moved => {
            if turn_kind(course) == Kind::Idle {
                go_to(course, None);
            } else {
                go_on(course);
            }
        }
        OutcomeWord::Balanced | OutcomeWord::Pinned | OutcomeWord::Failed => go_on(course),
    }
}

/// The course after a turn has ended, or was shut. `has_domains` says whether its CPU has domains in the
/// version that was taken up.
#[tactic(auto, unfolding(lb_core::specs::CourseAfter::turn_ends))]
pub fn turn_ends(alloc: Global, course: &mut Course, has_domains: bool)
    requires { course.old.cpu < MAX_CPUS }
    ensures { (h : Header) → has_domains ≡ nat_lt 0 (length (turn_domains h course.old))
        → course.new ≡ turn_ends h course.old }
{
    match turn_kind(course) {
        Kind::Tick => {
            if course.awake > 1 && has_domains {
                begin_anew(course);
                course.form = Form::ScanDue;
            } else {
                rest(alloc, course);
            }
        }
        Kind::Idle => rest(alloc, course),
        Kind::Nohz => {
            let next = tickless_in(course.figures.as_slice()).next_after(course.cpu);
            kick_next(alloc, course, next);
        }
    }
}

// The turn of a kicked CPU, or rest.
pub(crate) fn kick_next(alloc: Global, course: &mut Course, cpu: Option<u32>)
    ensures { course.new ≡ kicks_next cpu course.old }
{
    match cpu {
        None => rest(alloc, course),
        Some(cpu) => be_due_at(course, Kind::Nohz, cpu),
    }
}
