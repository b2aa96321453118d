//! Machines behind their locks: each lane serves one row, and the lists of all owners are closed.
ghost use Rattle.std.specs.Prelude.{◌≡◌, [], ◌∷◌, Some, length, slice_get};
ghost use Rattle.lb_core.specs.declared.course.Form.TheVariants as form;
ghost use Rattle.lb_cpu.specs.Numbering.{EachFrom};
ghost use Rattle.lb_thread_tests.specs.Machines.{IsNamed};

use lb_cell::Names;
use lb_cpu::{Blank, Cpus};
use lb_journal::Journal;
use lb_lane::{Lane, Versions};
use lb_queue::Reply;
use lb_ticket::Lists;
use lb_trace::laws::accepted;
use lb_trace::{Row, Trace};
use std::alloc::Global;
use std::marker::Brand;
use std::process::Abort;
use std::sync::Wait;
use std::thread::{Threads, join};

// The lane serves its next row.
fn serve<N: Names + Versions, R: Abort + Wait>(
    rt: &R,
    alloc: Global,
    cpus: &Cpus<N>,
    mut lane: Lane<N>,
    row: &Row,
) -> (Lane<N>, Reply)
    requires rest { lane.side.course.form ≡ form.Rest }
    requires next { slice_get lane.rows lane.side.course.rows ≡ Some row.now }
{
    let Ok(reply) = cpus.command(rt, alloc, &mut lane, row) else {
        panic!(rt; "no reply")
    };
    (lane, reply)
}

// The closed lists of a machine and its lanes.
fn lists_of<N: Names + Versions, R: Abort + Wait>(
    rt: &R,
    alloc: Global,
    cpus: Cpus<N>,
    lanes: Vec<Lane<N>>,
) -> Lists<Journal>
    requires numbers { EachFrom (λ k l. l.side.number ≡ k) 0 lanes.items }
    requires count { length lanes.items ≡ N.header.lanes }
{
    let Ok(ended) = cpus.rest(rt, alloc, lanes) else {
        panic!(rt; "no rest")
    };
    ended.close()
}

// One lane serves a row: the reply, and the closed lists.
fn one_lane<N: Names + Versions, R: Abort + Wait>(
    rt: &R,
    alloc: Global,
    blank: Blank,
    row: &Row,
) -> (Reply, Lists<Journal>)
    requires header { blank.header ≡ N.header }
    requires names { (blank.book ≡ N.book) × (blank.board ≡ N.board) × (blank.versions ≡ N.versions) }
    requires rows { blank.rows ≡ (row.now ∷ []) ∷ [] }
{
    let Ok((cpus, mut lanes)) = Cpus::<N>::start(alloc, blank) else {
        panic!(rt; "no machine")
    };
    let Some(lane) = lanes.pop() else {
        panic!(rt; "no lane")
    };
    let (lane, reply) = serve(rt, alloc, &cpus, lane, row);
    assert!(rt; lanes.is_empty() && lane.side().number() == 0);
    let Ok(()) = lanes.push(lane) else {
        panic!(rt; "no room")
    };
    (reply, lists_of(rt, alloc, cpus, lanes))
}

// Two lanes serve a row each, on two threads: the replies, and the closed lists.
fn two_lanes<N: Names + Versions + Send + Sync, R: Abort + Threads + Wait + Sync>(
    rt: &R,
    alloc: Global,
    blank: Blank,
    row: &Row,
    other: &Row,
) -> (Reply, Reply, Lists<Journal>)
    requires header { blank.header ≡ N.header }
    requires names { (blank.book ≡ N.book) × (blank.board ≡ N.board) × (blank.versions ≡ N.versions) }
    requires rows { blank.rows ≡ (row.now ∷ []) ∷ (other.now ∷ []) ∷ [] }
{
    let Ok((cpus, mut lanes)) = Cpus::<N>::start(alloc, blank) else {
        panic!(rt; "no machine")
    };
    let Some(second) = lanes.pop() else {
        panic!(rt; "no second lane")
    };
    let Some(first) = lanes.pop() else {
        panic!(rt; "no first lane")
    };
    let shared = &cpus;
    let ((first, reply), (second, answer)) = join(
        rt,
        move ||
            requires { (first.side.course.form ≡ form.Rest)
                × (slice_get first.rows first.side.course.rows ≡ Some row.now) }
        { serve(rt, alloc, shared, first, row) },
        move ||
            requires { (second.side.course.form ≡ form.Rest)
                × (slice_get second.rows second.side.course.rows ≡ Some other.now) }
        { serve(rt, alloc, shared, second, other) },
    );
    assert!(rt; lanes.is_empty());
    assert!(rt; first.side().number() == 0);
    assert!(rt; second.side().number() == 1);
    let Ok(()) = lanes.push(first) else {
        panic!(rt; "no room")
    };
    let Ok(()) = lanes.push(second) else {
        panic!(rt; "no room")
    };
    (reply, answer, lists_of(rt, alloc, cpus, lanes))
}

// The trace of a text, and its machine before any entry.
fn blank_of<R: Abort + Wait>(rt: &R, alloc: Global, text: &[u8]) -> (Trace, Blank)
    ensures { IsNamed result.0 result.1 }
{
    // a trace that was read keeps to the limits that a machine is made within
    accepted();
    let Ok(trace) = Trace::read(alloc, text) else {
        panic!(rt; "no trace")
    };
    let Ok(blank) = Blank::new(rt, alloc, &trace) else {
        panic!(rt; "no blank")
    };
    (trace, blank)
}

// Whether the owner's list has this ticket alone.
fn has_alone(lists: &Lists<Journal>, owner: usize, ticket: u64) -> bool {
    match lists.of.get(owner) {
        Some(list) => match list.as_slice() {
            [drawn] => drawn.ticket == ticket,
            _ => false,
        },
        None => false,
    }
}

// How many entries there are, and how many with this ticket.
fn counts(lists: &Lists<Journal>, ticket: u64) -> (usize, usize) {
    let mut all = 0usize;
    let mut found = 0usize;
    for list in &lists.of {
        for drawn in list {
            all = all.saturating_add(1);
            if drawn.ticket == ticket {
                found = found.saturating_add(1);
            }
        }
    }
    (all, found)
}

// A task at home on CPU 0, which may run on CPU 1 alone.
const ONE_LANE: &[u8] = b"lbtrace,1
cpu,0,0,0,0
cpu,1,1,0,0
dist,10
lanes,1
task,0,0,0,1
wake,0,0,0
";

#[test]
fn a_wake_stands_on_three_lists(rt: HostRuntime) {
    let (trace, blank) = blank_of(&rt, rt.alloc(), ONE_LANE);
    let [row] = trace.rows.as_slice() else {
        panic!(rt; "no row")
    };
    assert!(rt; trace.header.lanes == 1 && row.lane == 0);
    let (reply, lists) = one_lane::<Brand, HostRuntime>(&rt, rt.alloc(), blank, row);
    assert!(rt; reply == Reply::Done);
    assert!(rt; has_alone(&lists, 1, 1) && has_alone(&lists, 17, 2) && has_alone(&lists, 18, 3));
}

// The same, and a second lane that wakes a task on the CPU where the first one's lands.
const TWO_LANES: &[u8] = b"lbtrace,1
cpu,0,0,0,0
cpu,1,1,0,0
dist,10
lanes,2
task,0,0,0,1
task,1,0,1,1
wake,0,0,0
wake,1,0,1
";

#[test]
#[tactic(auto, using(crate::proofs::Machines::rows_of_two))]
fn two_lanes_draw_each_ticket_once(rt: HostRuntime) {
    let (trace, blank) = blank_of(&rt, rt.alloc(), TWO_LANES);
    let [row, other] = trace.rows.as_slice() else {
        panic!(rt; "no rows")
    };
    assert!(rt; trace.header.lanes == 2);
    assert!(rt; row.lane == 0);
    assert!(rt; other.lane == 1);
    let (reply, answer, lists) = two_lanes::<Brand, HostRuntime>(
        &rt,
        rt.alloc(),
        blank,
        row,
        other,
    );
    assert!(rt; reply == Reply::Done && answer == Reply::Done);
    for ticket in 1..=5 {
        assert!(rt; counts(&lists, ticket) == (5, 1));
    }
}
