//! The answer of a queue to a `use`: a turn opens, or is refused where one is open.
ghost use Rattle.std.specs.Prelude.{◌≡◌, ◌<◌, ◌≤◌, nat_lt, [], false, length, is_some, unwrap_or, IsSome, IfOk};
ghost use Rattle.lb_base.specs.declared.mask.TheConstants.{MAX_CPUS};
ghost use Rattle.lb_base.specs.Sets.{least};
ghost use Rattle.lb_queue.specs.declared.queue.TheConstants.{MAX_SHAPES};
ghost use Rattle.lb_queue.specs.Turns.{AreInOrder, FitCounters, opened, shut, counters_found};
ghost use Rattle.lb_trace.specs.declared.trace.Header.{Header};
ghost use Rattle.lb_core.specs.Course.{turn_kind, turn_domains};
ghost use Rattle.lb_core.specs.CourseAfter.{goes_to, turn_ends};

use lb_base::{Items, Mask, NoMemory, Shape};
use lb_core::{CounterRows, Course};
use lb_course::{turn_ends, turn_kind, turn_opens};
use lb_interval::Counters;
use lb_queue::Queue;
use std::alloc::Global;

/// `count` counters, which stand for those that a turn is to find.
pub fn blank_counters(alloc: Global, count: usize) -> Result<CounterRows, NoMemory>
    ensures { IfOk result (λ rows. length rows ≡ count) }
{
    let blank = Counters {
        last: 0,
        interval: 0,
        failures: 0,
        imb: false,
    };
    let blanks = vec![in alloc; blank; count]?;
    Ok(Items::from_slice(alloc, &blanks)?)
}

// As many counters as there are take the place of others.
fn fill(rows: &mut CounterRows, counters: &[Counters])
    requires { length rows.old ≡ length counters.now }
    ensures { rows.new ≡ counters.now }
{
    for i in 0..counters.len() {
        rows.set(i, counters[i]);
    }
}

// The counters of a queue take the place of as many others.
fn note_counters(rows: &mut CounterRows, queue: &Queue)
    requires { length rows.old ≡ length (unwrap_or queue.now.state.counters []) }
    ensures { rows.new ≡ unwrap_or queue.now.state.counters [] }
{
    match queue.all_counters() {
        None => fill(rows, &[]),
        Some(counters) => fill(rows, counters),
    }
}

/// A lane's turn opens at a queue with these positions, and the course notes the counters that it found there.
/// `shapes` are those of the domains of the turn's CPU, and `counters` has a place for each of them.
pub fn open_turn(
    queue: &mut Queue,
    course: &mut Course,
    lane: u32,
    shapes: &[Shape],
    positions: Mask,
    mut counters: CounterRows,
)
    requires closed { is_some queue.old.state.open_turn ≡ false }
    requires few { length shapes.now ≤ MAX_SHAPES }
    requires in_order { AreInOrder shapes.now }
    requires fit { FitCounters queue.old.state course.old.version shapes.now }
    requires counters { length counters ≡ length shapes.now }
    ensures queue { queue.new.state
        ≡ opened queue.old.state course.old.at lane (turn_kind course.old) course.old.version shapes.now }
    ensures course { course.new ≡ goes_to (least positions) (record course.old {
      positions = positions;
      counters = counters_found queue.old.state course.old.at course.old.version shapes.now;
    }) }
    ensures booked { queue.new.booked ≡ queue.old.booked }
{
    let kind = turn_kind(course);
    let _opened = queue.turn(course.at, lane, kind, course.version, shapes);
    note_counters(&mut counters, queue);
    turn_opens(course, positions, counters);
}

/// A lane's turn is refused at a queue where one is open, and ends for the course. `has_domains` says whether the
/// turn's CPU has domains, of which `shapes` are the shapes.
pub fn refuse_turn(
    alloc: Global,
    queue: &mut Queue,
    course: &mut Course,
    lane: u32,
    shapes: &[Shape],
    has_domains: bool,
)
    requires open { IsSome queue.old.state.open_turn }
    requires few { length shapes.now ≤ MAX_SHAPES }
    requires in_order { AreInOrder shapes.now }
    requires fit { FitCounters queue.old.state course.old.version shapes.now }
    requires turned { course.old.cpu < MAX_CPUS }
    ensures queue { queue.new.state ≡ shut queue.old.state course.old.at (turn_kind course.old) }
    ensures course { (h : Header) → has_domains ≡ nat_lt 0 (length (turn_domains h course.old))
        → course.new ≡ turn_ends h course.old }
    ensures booked { queue.new.booked ≡ queue.old.booked }
{
    let kind = turn_kind(course);
    let _refused = queue.turn(course.at, lane, kind, course.version, shapes);
    turn_ends(alloc, course, has_domains);
}
