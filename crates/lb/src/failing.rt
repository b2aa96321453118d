//! Calls of the program of which each read and each write fails in turn, and a write of the status. In between,
//! the source and the sinks move one byte a call.
use crate::bytewise::{Ended, Fails, NONE, call, sink, text_of};
use crate::status::Status;
use crate::writing::finish;
use lb_core::Rule;
use lb_trace::Code;
use std::alloc::Global;
use std::process::Abort;
use std::sync::Wait;
use std::thread::Threads;

// Three tasks wake on CPU 1, and CPU 0 pulls one of them at its tick.
const TRACE: &[u8] = b"lbtrace,1
cpu,0,0,0,0
cpu,1,1,0,0
dist,10
lanes,1
task,0,0,1,0-1
task,1,0,1,0-1
task,2,0,1,0-1
wake,0,0,0
wake,0,0,1
wake,0,0,2
tick,0,2000000,0
";

// A history that lacks its end.
const WITHOUT_END: &[u8] = b"lbhist 1
= cpu,0,0,0,0
= dist,10
= parts,0
= lanes,1
";

// Whether a call ended so, and its sinks took these bytes.
fn has_ended(ended: &Ended, status: Status, out: &[u8], err: &[u8]) -> bool {
    ended.status == status && ended.out.bytes() == out && ended.err.bytes() == err
}

// Each read fails in turn, at last the one that would find the end: nothing is written, and the fault is told.
// Without a fault, the same bytes are written as where all is moved at once.
fn each_read_fails<R: Abort + Threads + Wait + Sync>(
    rt: &R,
    alloc: Global,
    word: &str,
    input: &[u8],
) {
    let reads = input.len() as u64 + 1;
    for read in 1..=reads {
        let ended = call(rt, alloc, word, input, Fails { read, ..NONE });
        assert!(rt;
            has_ended(&ended, Status::ReadFault, b"", b"lb: read fault\n"),
            "read {read}"
        );
    }
    let text = text_of(rt, alloc, word, input);
    let later = Fails {
        read: reads + 1,
        ..NONE
    };
    let ended = call(rt, alloc, word, input, later);
    assert!(rt; has_ended(&ended, Status::Done, &text, b""));
}

// Each write of the text fails in turn: the bytes before it were taken and no others, and the fault is told.
fn each_write_fails<R: Abort + Threads + Wait + Sync>(
    rt: &R,
    alloc: Global,
    word: &str,
    input: &[u8],
) {
    let text = text_of(rt, alloc, word, input);
    for at in 0..text.len() {
        let write = at as u64 + 1;
        let ended = call(rt, alloc, word, input, Fails { write, ..NONE });
        assert!(rt;
            has_ended(
                &ended,
                Status::WriteFault,
                &text[..at],
                b"lb: write fault\n"
            ),
            "write {write}"
        );
    }
}

#[test]
fn each_read_and_each_write_of_a_pull_fails_in_turn(rt: HostRuntime) {
    let history = text_of(&rt, rt.alloc(), "step", TRACE);
    for (word, input) in [
        ("step", TRACE),
        ("check", history.as_slice()),
        ("run", TRACE),
    ] {
        each_read_fails(&rt, rt.alloc(), word, input);
        each_write_fails(&rt, rt.alloc(), word, input);
    }
}

// A call that writes nothing, and the text of its status.
#[derive(Clone, Copy, Debug)]
struct Case {
    word: &'static str,
    input: &'static [u8],
    fails: Fails,
    status: Status,
    text: &'static [u8],
}

// Each write of the status fails in turn: the bytes before it were taken, and nothing after them.
fn each_tell_fails<R: Abort + Threads + Wait + Sync>(rt: &R, alloc: Global, case: &Case) {
    for at in 0..case.text.len() {
        let fails = Fails {
            tell: at as u64 + 1,
            ..case.fails
        };
        let ended = call(rt, alloc, case.word, case.input, fails);
        assert!(rt;
            has_ended(&ended, Status::WriteFault, b"", &case.text[..at]),
            "byte {at}"
        );
    }
    let ended = call(rt, alloc, case.word, case.input, case.fails);
    assert!(rt; has_ended(&ended, case.status, b"", case.text));
}

#[test]
fn each_write_of_a_status_fails_in_turn(rt: HostRuntime) {
    let cases = [
        Case {
            word: "step",
            input: TRACE,
            fails: Fails { read: 1, ..NONE },
            status: Status::ReadFault,
            text: b"lb: read fault\n",
        },
        Case {
            word: "help",
            input: b"",
            fails: NONE,
            status: Status::Usage,
            text: b"lb: usage\n",
        },
        Case {
            word: "topo",
            input: b"LBTRACE,1\n",
            fails: NONE,
            status: Status::Refused {
                line: 1,
                code: Code::Byte,
            },
            text: b"lb: line 1: byte\n",
        },
        Case {
            word: "run",
            input: TRACE,
            fails: Fails { write: 1, ..NONE },
            status: Status::WriteFault,
            text: b"lb: write fault\n",
        },
        Case {
            word: "check",
            input: WITHOUT_END,
            fails: NONE,
            status: Status::Illegal {
                ticket: 1,
                rule: Rule::End,
            },
            text: b"lb: ticket 1: end\n",
        },
    ];
    for case in &cases {
        each_tell_fails(&rt, rt.alloc(), case);
    }
}

#[test]
fn each_write_of_want_of_memory_fails_in_turn(rt: HostRuntime) {
    let text = b"lb: no memory\n";
    for at in 0..=text.len() {
        let mut out = sink(&rt, rt.alloc(), 0);
        let mut err = sink(&rt, rt.alloc(), at as u64 + 1);
        let status = finish(rt.alloc(), Err(Status::NoMemory), &mut out, &mut err);
        let wanted = if at < text.len() {
            Status::WriteFault
        } else {
            Status::NoMemory
        };
        assert!(rt;
            status == wanted && out.bytes().is_empty() && err.bytes() == &text[..at],
            "byte {at}"
        );
    }
}
