//! Two lanes that meet: lane 0 wakes tasks on CPU 1 and pulls from it to CPU 0, and lane 1 has rows of its own.
use crate::meeting::{Meeting, Place};
use crate::shown::{Line, shows};
use lb_audit::laws::texts_may_be_judged;
use lb_audit::{Verdict, check};
use lb_io::Point;
use lb_read::read_history;
use lb_ready::laws::entries_fit;
use lb_record::history_text;
use lb_threads::run_lanes;
use lb_trace::Trace;
use lb_trace::laws::accepted;
use std::alloc::Global;
use std::process::Abort;
use std::sync::Wait;
use std::thread::Threads;

// A run of two lanes, and what its history is to show.
#[derive(Drop)]
struct Case {
    // the lines of further tasks
    tasks: &'static str,
    // the rows of lane 1
    rows: &'static str,
    place: Place,
    shows: &'static [Line],
}

// Two CPUs of one cache, two lanes and three tasks at home on CPU 1.
const MACHINE: &str = "lbtrace,1
cpu,0,0,0,0
cpu,1,1,0,0
dist,10
lanes,2
task,0,0,1,0-1
task,1,0,1,0-1
task,2,0,1,0-1
";

// Lane 0 wakes the three tasks, and CPU 0 pulls one of them at its tick.
const ROWS: &str = "wake,0,0,0
wake,0,0,1
wake,0,0,2
tick,0,2000000,0
";

// The trace of a case, as a text.
fn text_of(rt: &impl Abort, alloc: Global, case: &Case) -> String {
    let Ok(text) = [MACHINE, case.tasks, ROWS, case.rows].concat(alloc) else {
        panic!(rt; "no room")
    };
    text
}

// The text of a history that the lanes of a trace made, which pass the gate on their way.
fn run_text<R: Abort + Threads + Wait + Sync>(
    rt: &R,
    alloc: Global,
    text: &str,
    gate: &Meeting,
) -> Vec<u8> {
    // a text that is accepted keeps to the limits, and what a history of it says is in range
    accepted();
    entries_fit();
    let Ok(trace) = Trace::read(alloc, text.as_bytes()) else {
        panic!(rt; "no trace")
    };
    let Ok(history) = run_lanes(rt, alloc, &trace, gate) else {
        panic!(rt; "no history")
    };
    let Ok(text) = history_text(alloc, &history.header, history.entries.as_slice()) else {
        panic!(rt; "no text")
    };
    text
}

// Whether the text of a history is read back, and judged to be legal.
fn is_legal(alloc: Global, text: &[u8]) -> bool {
    // what a text reads as meets what `check` asks for
    texts_may_be_judged();
    match read_history(alloc, text) {
        Ok(read) => matches!(check(alloc, &read), Ok(Verdict::Legal)),
        Err(_) => false,
    }
}

// Runs a case: the lanes meet, and their history is legal and shows what it is to show.
fn run_case<R: Abort + Threads + Wait + Sync>(rt: &R, alloc: Global, case: &Case) {
    let trace = text_of(rt, alloc, case);
    let gate = Meeting::new(case.place);
    let text = run_text(rt, alloc, &trace, &gate);
    assert!(rt; gate.was_kept());
    assert!(rt; is_legal(alloc, &text));
    let Ok(text) = str::from_utf8(&text) else {
        panic!(rt; "no text")
    };
    assert!(rt; shows(text, case.shows));
}

// Lane 0 at the point, for the first time, until lane 1 has had so many rows answered.
fn until_answered(point: Point, rows: u64) -> Place {
    Place {
        point,
        pass: 1,
        until: Point::AfterRow,
        times: rows,
    }
}

// Lane 0 before its tick, which is its fourth row, until lane 1 has had its row answered.
fn before_tick() -> Place {
    Place {
        point: Point::BeforeRow,
        pass: 4,
        until: Point::AfterRow,
        times: 1,
    }
}

#[test]
fn commands_go_on_while_a_task_is_in_hand(rt: HostRuntime) {
    let case = Case {
        tasks: "",
        rows: "nice,1,0,0,5\nmask,1,0,1,0-1\n",
        place: until_answered(Point::InHand, 1),
        shows: &[
            ("Q1@0", "out pull 0 1"),
            ("L1", "row 1 nice 0 0 5"),
            ("Q1@1", "did done"),
            ("Q0@0", "in 1"),
            ("Q0@1", "did done"),
        ],
    };
    run_case(&rt, rt.alloc(), &case);
}

#[test]
fn a_turn_keeps_its_version_while_another_is_published(rt: HostRuntime) {
    let case = Case {
        tasks: "",
        rows: "rebuild,1,0,0,1\n",
        place: until_answered(Point::InHand, 1),
        shows: &[
            ("L0", "use 1 tick 0"),
            ("Q1@0", "out pull 0 1"),
            ("P@1", "pub 2"),
            ("Q0@0", "in 1"),
            ("Q0@0", "over"),
        ],
    };
    run_case(&rt, rt.alloc(), &case);
}

#[test]
fn a_task_in_hand_ends_where_it_lands(rt: HostRuntime) {
    let case = Case {
        tasks: "",
        rows: "exit,1,0,1\n",
        place: Place {
            until: Point::BeforeRow,
            ..until_answered(Point::InHand, 1)
        },
        shows: &[
            ("Q1@0", "out pull 0 1"),
            ("Q0@0", "in 1"),
            ("Q0@1", "did done"),
        ],
    };
    run_case(&rt, rt.alloc(), &case);
}

#[test]
fn a_turn_is_shut_while_another_is_open(rt: HostRuntime) {
    let case = Case {
        tasks: "task,3,0,0,0\n",
        rows: "wake,1,0,3\nsleep,1,0,3\n",
        place: until_answered(Point::InHand, 2),
        shows: &[
            ("Q1@0", "out pull 0 1"),
            ("Q0@1", "did done"),
            ("Q0@1", "did done"),
            ("L1", "use 1 idle 0"),
            ("Q0@1", "shut"),
            ("Q0@0", "in 1"),
        ],
    };
    run_case(&rt, rt.alloc(), &case);
}

#[test]
fn a_pull_takes_what_is_there_after_its_look(rt: HostRuntime) {
    let case = Case {
        tasks: "",
        rows: "sleep,1,0,1\n",
        place: until_answered(Point::AfterLook, 1),
        shows: &[
            ("L0", "look 0 - 0:2,1:3 pull 1 tasks 1"),
            ("Q1@1", "did done"),
            ("Q1@0", "out pull 0 2"),
        ],
    };
    run_case(&rt, rt.alloc(), &case);
}

#[test]
fn a_look_reads_what_another_lane_did(rt: HostRuntime) {
    let case = Case {
        tasks: "task,3,0,1,0-1\n",
        rows: "wake,1,0,3\n",
        place: before_tick(),
        shows: &[
            ("Q1@1", "did done"),
            ("L0", "row 4 tick 0 2000000"),
            ("L0", "look 0 - 0:2,1:4 pull 1 tasks 2"),
            ("Q1@0", "out pull 0 1;2"),
        ],
    };
    run_case(&rt, rt.alloc(), &case);
}

#[test]
fn a_turn_uses_what_another_lane_published(rt: HostRuntime) {
    let case = Case {
        tasks: "",
        rows: "rebuild,1,0,0,1\n",
        place: before_tick(),
        shows: &[
            ("P@1", "pub 2"),
            ("L0", "row 4 tick 0 2000000"),
            ("L0", "use 2 tick 0"),
            ("Q0@0", "turn -"),
        ],
    };
    run_case(&rt, rt.alloc(), &case);
}

#[test]
fn a_landed_task_sleeps_before_the_position_closes(rt: HostRuntime) {
    let case = Case {
        tasks: "",
        rows: "sleep,1,0,1\n",
        place: until_answered(Point::AfterLand, 1),
        shows: &[
            ("Q0@0", "in 1"),
            ("L1", "row 1 sleep 1 0"),
            ("Q0@1", "did done"),
            ("Q0@1", "shut"),
            ("Q0@0", "close 0 moved 2 0"),
        ],
    };
    run_case(&rt, rt.alloc(), &case);
}
