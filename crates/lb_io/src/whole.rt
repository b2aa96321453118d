//! Reading a whole input, and writing a whole text.
ghost use Rattle.std.specs.Prelude.{◌≡◌, ℕ, ◌<◌, ◌≤◌, ◌^◌, List, length, IfOk, OnErr, OnOk, IfSome, IsErrOf};
ghost use Rattle.std.specs.Io.KnownBytes.{Appends, Consumes, IsAtEnd};
ghost use Rattle.lb_io.specs.Faults.{CountsFaults, Rose};
ghost use Rattle.lb_io.specs.Moved.{AppendsPrefix, ConsumesPrefix};

use crate::stream::{Failed, Sink, Source};
use std::alloc::Global;

/// Why a source was not read to its end.
#[derive(Clone, Copy, Debug, PartialEq, Eq)]
pub enum ReadError {
    /// A read failed.
    ReadFault,
    /// More bytes came than were asked for.
    TooLong,
    /// Memory ran out.
    NoMemory,
}

// How many bytes are asked for at a time.
const PIECE: usize = 32768;

/// All bytes up to the end of the input, of which there may be at most `max`. After a refusal some
/// of the first bytes are gone from the source.
pub fn read_all<S: Source>(alloc: Global, src: &mut S, max: u64) -> Result<Vec<u8>, ReadError>
    requires { max < 2 ^ 32 }
    ensures all { IfOk result (λ v. Consumes (S.left src.old) (S.left src.new) v.items) }
    ensures end { OnOk result (IsAtEnd (S.left src.new)) }
    ensures within { IfOk result (λ v. length v.items ≤ max) }
    ensures refused { OnErr result (ConsumesPrefix (S.left src.old) (S.left src.new)) }

    ensures too_long { IsErrOf result ReadError.TooLong → IfSome (S.left src.old) (λ bytes. max < length bytes) }
    ensures counts { S.faults src.old ≤ S.faults src.new }
    ensures fault { IsErrOf result ReadError.ReadFault → Rose (S.faults src.old) (S.faults src.new) }
{
    let mut all = Vec::new(alloc);
    let mut piece = [0u8; PIECE];
    loop {
        let count = match src.read(&mut piece) {
            Ok(count) => count,
            Err(Failed) => return Err(ReadError::ReadFault),
        };
        if count == 0 {
            return Ok(all);
        }
        if (all.len() as u64) + (count as u64) > max {
            return Err(ReadError::TooLong);
        }
        if all.extend_from_slice(&piece[..count]).is_err() {
            return Err(ReadError::NoMemory);
        }
    }
}

/// Writes all of `bytes`, in as many calls as the sink asks for. It takes no memory. After `Failed`
/// the sink took a prefix of them.
pub fn write_all<O: Sink>(out: &mut O, bytes: &[u8]) -> Result<(), Failed>
    ensures all { OnOk result (Appends (O.taken out.old) (O.taken out.new) bytes.now) }
    ensures refused { OnErr result (AppendsPrefix (O.taken out.old) (O.taken out.new) bytes.now) }
    ensures cause { CountsFaults (O.faults out.old) (O.faults out.new) result }
{
    let mut done = 0;
    while done < bytes.len() {
        done += out.write(&bytes[done..])?;
    }
    Ok(())
}
