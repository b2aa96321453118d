//! Sources and sinks whose calls fail where they are told to, and those over std's streams.
ghost use Rattle.std.specs.Prelude.{◌≤◌, ◌<◌, ◌^◌, IfOk};

use lb_io::{
    Failed, MemSink, MemSource, ReadError, ReadSource, Sink, Source, WriteSink, read_all, write_all,
};
use std::alloc::Global;
use std::io;
use std::process::Abort;

// The first read gives the bytes, the second the end.
#[test]
fn reads_fail_at_the_listed_calls(rt: HostRuntime) {
    let refusals = [
        refusal(&rt, rt.alloc(), 3, 0),
        refusal(&rt, rt.alloc(), 2, 0),
        refusal(&rt, rt.alloc(), 3, 1),
        refusal(&rt, rt.alloc(), 3, 2),
        refusal(&rt, rt.alloc(), 3, 3),
    ];
    let fault = Some(ReadError::ReadFault);
    assert!(rt; refusals == [None, Some(ReadError::TooLong), fault, fault, None]);
}

// Why three bytes are not read, of which at most `max` are asked for, where the call `fail_at` fails.
fn refusal(rt: &impl Abort, alloc: Global, max: u64, fail_at: u64) -> Option<ReadError>
    requires { max < 2 ^ 32 }
{
    let Ok(bytes) = Vec::from_slice(alloc, b"abc") else {
        panic!(rt; "no room")
    };
    let Ok(calls) = Vec::from_slice(alloc, &[fail_at]) else {
        panic!(rt; "no room")
    };
    let mut src = MemSource::new(bytes, calls);
    match read_all(alloc, &mut src, max) {
        Ok(bytes) => {
            assert!(rt; bytes.as_slice() == b"abc".as_slice());
            None
        }
        Err(error) => Some(error),
    }
}

#[test]
fn writes_fail_at_the_listed_calls(rt: HostRuntime) {
    let Ok(calls) = Vec::from_slice(rt.alloc(), &[2]) else {
        panic!(rt; "no room")
    };
    let mut out = MemSink::new(rt.alloc(), calls);
    let written = [
        write_all(&mut out, b"ab"),
        write_all(&mut out, b"cd"),
        write_all(&mut out, b"ef"),
    ];
    assert!(rt; written == [Ok(()), Err(Failed), Ok(())]);
    assert!(rt; out.bytes() == b"abef".as_slice());
}

// A stream that moves one byte at its first call and nothing at its second, and then fails.
#[derive(Drop)]
struct Ending {
    calls: u8,
}

impl Ending {
    fn moved(&mut self, len: usize) -> io::Result<usize>
        ensures { IfOk result (λ n. n ≤ len) }
    {
        self.calls = self.calls.saturating_add(1);
        match self.calls {
            1 => Ok(len.min(1)),
            2 => Ok(0),
            _ => Err(io::ErrorKind::BrokenPipe.into()),
        }
    }
}

impl io::Read for Ending {
    fn read(&mut self, buf: &mut [u8]) -> io::Result<usize> {
        self.moved(buf.len())
    }
}

impl io::Write for Ending {
    fn write(&mut self, buf: &[u8]) -> io::Result<usize> {
        self.moved(buf.len())
    }

    fn flush(&mut self) -> io::Result<()> {
        Ok(())
    }
}

#[test]
fn adapts_the_readers_of_std(rt: HostRuntime) {
    let mut buf = [0; 2];
    let mut src = ReadSource::new(Ending { calls: 0 });
    let moved = [src.read(&mut buf), src.read(&mut buf), src.read(&mut buf)];
    assert!(rt; moved == [Ok(1), Ok(0), Err(Failed)]);
    let mut src = ReadSource::new(b"abc".as_slice());
    let moved = [src.read(&mut buf), src.read(&mut buf), src.read(&mut buf)];
    assert!(rt; moved == [Ok(2), Ok(1), Ok(0)]);
}

#[test]
fn adapts_the_writers_of_std(rt: HostRuntime) {
    let mut out = WriteSink::new(Ending { calls: 0 });
    let moved = [out.write(b"ab"), out.write(b"ab"), out.write(b"ab")];
    assert!(rt; moved == [Ok(1), Err(Failed), Err(Failed)]);
    assert!(rt; WriteSink::new(rt.stdout()).write(b"abc") == Ok(3));
}
