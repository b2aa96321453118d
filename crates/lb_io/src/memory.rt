//! A source and a sink in memory, whose calls fail where they are told to.
ghost use Rattle.std.specs.Prelude.{◌≡◌, ◌↔◌, ℕ, ◌≤◌, [], List, Some, Contains, IfOk, IsErr, drop, is_err, length, min, take, vec_len, if◌then◌else◌};
ghost use Rattle.std.specs.declared.option.Option.{Option};
ghost use Rattle.std.specs.Io.{ReadsAtMost};
ghost use Rattle.std.specs.Io.KnownBytes.{ReadConsumes, WriteAppends};
ghost use Rattle.lb_io.specs.Faults.{CountsFaults, counted};
ghost use Rattle.lb_io.specs.Moved.{IsWriteCount};

use crate::stream::{Failed, Sink, Source};
use std::alloc::Global;
use std::marker::Model;

/// A source in memory. The calls whose numbers are listed, counted from 1, fail.
#[derive(Drop)]
pub struct MemSource {
    bytes: Vec<u8>,
    at: usize,
    fail_at: Vec<u64>,
    calls: u64,
    faults: u64,
}

impl Model for MemSource {
    ghost use Rattle.std.specs.Prelude.{◌≤◌, drop, vec_len};
    ghost use Rattle.lb_io.specs.Memory.{Input};

    ghost Value = { Input };

    ghost view = { λ s. record { left = drop s.at s.bytes.items; fail_at = s.fail_at.items; calls = s.calls; faults = s.faults } };

    ghost invariant = { λ s. s.at ≤ vec_len s.bytes };
}

impl MemSource {
    /// A source that has these bytes left, and fails at the calls of these numbers.
    pub fn new(bytes: Vec<u8>, fail_at: Vec<u64>) -> Self
        ensures { result ≡ record { left = bytes.items; fail_at = fail_at.items; calls = 0; faults = 0 } }
    {
        MemSource {
            bytes,
            at: 0,
            fail_at,
            calls: 0,
            faults: 0,
        }
    }
}

// Copies what fits, and says how much that is.
fn copy_front(from: &[u8], to: &mut [u8]) -> usize
    ensures count { result ≡ min (length from.now) (length to.old) }
    ensures copied { take result to.new ≡ take result from.now }
{
    let count = from.len().min(to.len());
    to[..count].copy_from_slice(&from[..count]);
    count
}

impl Source for MemSource {
    ghost left = { λ s. Some s.left };

    ghost faults = { λ s. s.faults };

    fn read(&mut self, buf: &mut [u8]) -> Result<usize, Failed>
        ensures bound { ReadsAtMost result buf.new }
        ensures bytes { ReadConsumes (Some self.old.left) (Some self.new.left) result buf.new }
        ensures cause { CountsFaults self.old.faults self.new.faults result }

        ensures calls { self.new.calls ≡ counted self.old.calls }
        ensures listed { IsErr result ↔ Contains self.old.fail_at self.new.calls }
        ensures count { IfOk result (λ n. n ≡ min (length self.old.left) (length buf.old)) }
        ensures faults { self.new.faults ≡ (if is_err result then counted self.old.faults else self.old.faults) }
        ensures list { self.new.fail_at ≡ self.old.fail_at }
    {
        self.calls = self.calls.saturating_add(1);
        if self.fail_at.contains(&self.calls) {
            self.faults = self.faults.saturating_add(1);
            return Err(Failed);
        }
        let count = copy_front(&self.bytes[self.at..], buf);
        self.at += count;
        Ok(count)
    }
}

/// A sink in memory. The calls whose numbers are listed, counted from 1, fail, and so does one for
/// which there is no memory.
#[derive(Drop)]
pub struct MemSink {
    bytes: Vec<u8>,
    fail_at: Vec<u64>,
    calls: u64,
    faults: u64,
}

impl Model for MemSink {
    ghost use Rattle.lb_io.specs.Memory.{Output};

    ghost Value = { Output };

    ghost view = { λ s. record { taken = s.bytes.items; fail_at = s.fail_at.items; calls = s.calls; faults = s.faults } };
}

impl MemSink {
    /// A sink that took nothing yet, and fails at the calls of these numbers.
    pub fn new(alloc: Global, fail_at: Vec<u64>) -> Self
        ensures { result ≡ record { taken = []; fail_at = fail_at.items; calls = 0; faults = 0 } }
    {
        MemSink {
            bytes: Vec::new(alloc),
            fail_at,
            calls: 0,
            faults: 0,
        }
    }

    /// What it took.
    pub fn bytes(&self) -> &[u8]
        ensures { result.now ≡ self.now.taken }
    {
        &self.bytes
    }
}

impl Sink for MemSink {
    ghost taken = { λ s. Some s.taken };

    ghost faults = { λ s. s.faults };

    fn write(&mut self, bytes: &[u8]) -> Result<usize, Failed>
        ensures bound { IsWriteCount result bytes.now }
        ensures bytes { WriteAppends (Some self.old.taken) (Some self.new.taken) result bytes.now }
        ensures cause { CountsFaults self.old.faults self.new.faults result }

        ensures calls { self.new.calls ≡ counted self.old.calls }
        ensures listed { Contains self.old.fail_at self.new.calls → IsErr result }
        ensures count { IfOk result (λ n. n ≡ length bytes.now) }
        ensures faults { self.new.faults ≡ (if is_err result then counted self.old.faults else self.old.faults) }
        ensures list { self.new.fail_at ≡ self.old.fail_at }
    {
        self.calls = self.calls.saturating_add(1);
        if self.fail_at.contains(&self.calls) {
            self.faults = self.faults.saturating_add(1);
            return Err(Failed);
        }
        match self.bytes.extend_from_slice(bytes) {
            Ok(()) => Ok(bytes.len()),
            Err(_) => {
                self.faults = self.faults.saturating_add(1);
                Err(Failed)
            }
        }
    }
}
