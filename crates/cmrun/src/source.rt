// Where a program's input comes from.
ghost use Rattle.std.specs.Prelude.{◌≡◌, ◌+◌, ◌<◌, ◌≤◌, List, ℕ, length, IfOk, IfErr, OnOk, IfSome, IsErrOf, vec_len};
ghost use Rattle.std.specs.declared.option.Option.{Option};
ghost use Rattle.std.specs.Io.{ReadsAtMost};
ghost use Rattle.std.specs.Io.KnownBytes.{ReadConsumes, Consumes, IsAtEnd};
ghost use Rattle.cmrun.specs.Ends.{CountsFaults, ConsumesExactly, ConsumesAtMost};
ghost use Rattle.cmrun.specs.Readings.{faults_after};
ghost use Rattle.cmrun.specs.declared.source.ReadError.TheVariants.{NoMemory};

use std::alloc::{AllocError, Global};
use std::io::Read;

/// A read or a write failed, and the end's count of faults rose.
#[derive(Clone, Copy, PartialEq, Eq)]
pub struct Failed;

/// An input that gives its bytes piece by piece, and counts its faults.
pub trait Source {
    /// The bytes that are left, where they can be told.
    ghost left: { Self → Option (List ℕ) };

    /// How many reads have failed.
    ghost faults: { Self → ℕ };

    /// Reads the next bytes into the front of `into` and answers their number; 0 at the end.
    /// `Failed` reads nothing and raises the count of faults by one; nothing else changes that count.
    fn read(&mut self, into: &mut [u8]) -> Result<usize, Failed>
        ensures bound { ReadsAtMost result into.new }
        ensures bytes { ReadConsumes (left self.old) (left self.new) result into.new }
        ensures cause { CountsFaults (faults self.old) (faults self.new) result };
}

/// A reader of std. It tells nothing of what is left, since no one knows what a pipe will give.
#[derive(Drop)]
pub struct StdSource<R: Read> {
    inner: R,
    /// How many reads have failed.
    pub faults: u64,
}

impl<R: Read> StdSource<R> {
    /// A source over a reader, without a fault so far.
    pub fn new(inner: R) -> Self
        ensures { result.faults ≡ 0 }
    {
        StdSource { inner, faults: 0 }
    }
}

impl<R: Read> Source for StdSource<R> {
    ghost use Rattle.std.specs.Prelude.{None};

    ghost left = { λ _. None };

    ghost faults = { λ s. s.faults };

    fn read(&mut self, into: &mut [u8]) -> Result<usize, Failed> {
        match self.inner.read(into) {
            Ok(count) => Ok(count),
            Err(_) => {
                self.faults = self.faults.saturating_add(1);
                Err(Failed)
            }
        }
    }
}

/// The most bytes that a scenario, or a script of owner collection, may have.
pub const SCENARIO_LIMIT: usize = 16_777_216;

/// The most bytes that a printed history may have.
pub const HISTORY_LIMIT: usize = 268_435_456;

/// The most bytes that one read asks for.
const PIECE: usize = 4096;

/// Why an input was not read to its end.
#[derive(Clone, Copy, PartialEq, Eq)]
pub enum ReadError {
    /// A read failed.
    Fault,
    /// There are more bytes than the limit allows.
    TooLong,
    /// Memory ran out.
    NoMemory,
}

impl From<AllocError> for ReadError {
    ghost from_gives = { λ _ e. e ≡ NoMemory };

    fn from(_: AllocError) -> Self {
        ReadError::NoMemory
    }
}

/// Reads an input of at most `limit` bytes to its end.
///
/// `TooLong` comes at the first byte above the limit, and nothing after that byte is read.
/// `Fault` comes where a read fails, and then no further read is made. Pieces have at most 4,096 bytes.
pub fn read_all<S: Source>(
    alloc: Global,
    source: &mut S,
    limit: usize,
) -> Result<Vec<u8>, ReadError>
    ensures content { IfOk result (λ bytes. Consumes (S.left source.old) (S.left source.new) bytes.items) }
    ensures end { OnOk result (IsAtEnd (S.left source.new)) }
    ensures within { IfOk result (λ bytes. vec_len bytes ≤ limit) }
    ensures short { OnOk result (IfSome (S.left source.old) (λ input. length input ≤ limit)) }
    ensures too_long { IsErrOf result ReadError.TooLong → IfSome (S.left source.old) (λ input. limit < length input) }
    ensures first_above { IsErrOf result ReadError.TooLong → ConsumesExactly (S.left source.old) (S.left source.new) (limit + 1) }
    ensures part { IfErr result (λ _. ConsumesAtMost (S.left source.old) (S.left source.new) (limit + 1)) }
    ensures faults { S.faults source.new ≡ faults_after result (S.faults source.old) }
{
    let mut bytes = Vec::new(alloc);
    let mut piece = [0u8; PIECE];
    loop {
        // (one byte above the limit is asked for, so that an input that is too long is told from one that just fits)
        let left = limit - bytes.len();
        let room = PIECE.min(left.saturating_add(1));
        let count = match source.read(&mut piece[..room]) {
            Ok(count) => count,
            Err(_) => return Err(ReadError::Fault),
        };
        if count == 0 {
            return Ok(bytes);
        }
        if count > left {
            return Err(ReadError::TooLong);
        }
        bytes.extend_from_slice(&piece[..count])?;
    }
}
