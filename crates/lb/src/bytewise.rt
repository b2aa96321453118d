//! Calls of the program over a source and sinks in memory that move one byte a call, of which some fail.
ghost use Rattle.std.specs.Prelude.{Some};

use crate::status::Status;
use crate::top::top;
use lb_io::{Failed, MemSink, MemSource, OpenGate, Sink, Source};
use std::alloc::Global;
use std::marker::Model;
use std::process::Abort;
use std::sync::Wait;
use std::thread::Threads;

/// A source in memory that gives one byte a call at most.
#[derive(Drop)]
struct ByteSource {
    bytes: MemSource,
}

impl Model for ByteSource {
    ghost use Rattle.lb_io.specs.Memory.{Input};

    ghost Value = { Input };

    ghost view = { λ s. s.bytes };
}

impl Source for ByteSource {
    ghost left = { λ s. Some s.left };

    ghost faults = { λ s. s.faults };

    fn read(&mut self, buf: &mut [u8]) -> Result<usize, Failed> {
        let most = buf.len().min(1);
        self.bytes.read(&mut buf[..most])
    }
}

/// A sink in memory that takes one byte a call at most.
#[derive(Drop)]
pub struct ByteSink {
    bytes: MemSink,
}

impl Model for ByteSink {
    ghost use Rattle.lb_io.specs.Memory.{Output};

    ghost Value = { Output };

    ghost view = { λ s. s.bytes };
}

impl ByteSink {
    /// What it took.
    pub fn bytes(&self) -> &[u8] {
        self.bytes.bytes()
    }
}

impl Sink for ByteSink {
    ghost taken = { λ s. Some s.taken };

    ghost faults = { λ s. s.faults };

    fn write(&mut self, bytes: &[u8]) -> Result<usize, Failed> {
        let most = bytes.len().min(1);
        self.bytes.write(&bytes[..most])
    }
}

/// Which read, which write of the text and which write of the status fails, counted from 1; 0 where none does.
#[derive(Clone, Copy, Debug)]
pub struct Fails {
    /// The read that fails.
    pub read: u64,
    /// The write of the text that fails.
    pub write: u64,
    /// The write of the status that fails.
    pub tell: u64,
}

/// No call fails.
pub const NONE: Fails = Fails {
    read: 0,
    write: 0,
    tell: 0,
};

/// How a call of the program ended.
#[derive(Drop)]
pub struct Ended {
    /// The status that it answered.
    pub status: Status,
    /// The sink of its text.
    pub out: ByteSink,
    /// The sink of what is told of its status.
    pub err: ByteSink,
}

// These bytes, copied.
fn copied(rt: &impl Abort, alloc: Global, bytes: &[u8]) -> Vec<u8> {
    let Ok(bytes) = Vec::from_slice(alloc, bytes) else {
        panic!(rt; "no room")
    };
    bytes
}

// A list of the one call that fails.
fn listed(rt: &impl Abort, alloc: Global, call: u64) -> Vec<u64> {
    let Ok(calls) = Vec::from_slice(alloc, &[call]) else {
        panic!(rt; "no room")
    };
    calls
}

// The words of a command of one word.
fn words_of(rt: &impl Abort, alloc: Global, word: &str) -> Vec<String> {
    let Ok(word) = String::from_str(alloc, word) else {
        panic!(rt; "no room")
    };
    let mut words = Vec::new(alloc);
    assert!(rt; words.push(word).is_ok());
    words
}

/// A sink that took nothing yet, and fails at this call.
pub fn sink(rt: &impl Abort, alloc: Global, call: u64) -> ByteSink {
    ByteSink {
        bytes: MemSink::new(alloc, listed(rt, alloc, call)),
    }
}

/// Calls the program with a command of one word. Its source and its sinks move one byte a call.
pub fn call<R: Abort + Threads + Wait + Sync>(
    rt: &R,
    alloc: Global,
    word: &str,
    input: &[u8],
    fails: Fails,
) -> Ended {
    let words = words_of(rt, alloc, word);
    let mut src = ByteSource {
        bytes: MemSource::new(copied(rt, alloc, input), listed(rt, alloc, fails.read)),
    };
    let mut out = sink(rt, alloc, fails.write);
    let mut err = sink(rt, alloc, fails.tell);
    let status = top(rt, alloc, &words, &mut src, &mut out, &mut err, &OpenGate);
    Ended { status, out, err }
}

/// Calls the program with a command of one word, which is done. Its source and its sinks move all that they can.
/// What it wrote.
pub fn text_of<R: Abort + Threads + Wait + Sync>(
    rt: &R,
    alloc: Global,
    word: &str,
    input: &[u8],
) -> Vec<u8> {
    let words = words_of(rt, alloc, word);
    let mut src = MemSource::new(copied(rt, alloc, input), Vec::new(alloc));
    let mut out = MemSink::new(alloc, Vec::new(alloc));
    let mut err = MemSink::new(alloc, Vec::new(alloc));
    let status = top(rt, alloc, &words, &mut src, &mut out, &mut err, &OpenGate);
    assert!(rt; status == Status::Done);
    assert!(rt; err.bytes().is_empty());
    copied(rt, alloc, out.bytes())
}
