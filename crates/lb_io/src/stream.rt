//! What a source and a sink promise: bytes that are told, and a count of faults.
ghost use Rattle.std.specs.Prelude.{List, ℕ};
ghost use Rattle.std.specs.declared.option.Option.{Option};
ghost use Rattle.std.specs.Io.{ReadsAtMost};
ghost use Rattle.std.specs.Io.KnownBytes.{ReadConsumes, WriteAppends};
ghost use Rattle.lb_io.specs.Faults.{CountsFaults};
ghost use Rattle.lb_io.specs.Moved.{IsWriteCount};

/// A read or a write failed. The object that it was asked of has counted it.
#[derive(Clone, Copy, Debug, PartialEq, Eq)]
pub struct Failed;

/// What bytes are read from.
pub trait Source {
    /// The bytes that are left to be read, or None where the source does not tell them.
    ghost left: { Self → Option (List ℕ) };

    /// The number of faults so far. A call that does not fail leaves it.
    ghost faults: { Self → ℕ };

    /// Moves the first bytes that are left into the front of `buf`, and answers how many. 0 for a
    /// buffer that is not empty is the end of the input. After `Failed` the bytes are as before.
    fn read(&mut self, buf: &mut [u8]) -> Result<usize, Failed>
        ensures bound { ReadsAtMost result buf.new }
        ensures bytes { ReadConsumes (left self.old) (left self.new) result buf.new }
        ensures cause { CountsFaults (faults self.old) (faults self.new) result };
}

/// What bytes are written to.
pub trait Sink {
    /// The bytes that were taken, or None where the sink does not tell them.
    ghost taken: { Self → Option (List ℕ) };

    /// The number of faults so far. A call that does not fail leaves it.
    ghost faults: { Self → ℕ };

    /// Takes a prefix of `bytes`, and answers its length: at least 1 for a piece that is not empty.
    /// After `Failed` nothing was taken.
    fn write(&mut self, bytes: &[u8]) -> Result<usize, Failed>
        ensures bound { IsWriteCount result bytes.now }
        ensures bytes { WriteAppends (taken self.old) (taken self.new) result bytes.now }
        ensures cause { CountsFaults (faults self.old) (faults self.new) result };
}
