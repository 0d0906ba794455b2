// Where a program's output goes.
ghost use Rattle.std.specs.Prelude.{◌≡◌, ◌<◌, List, ℕ, length, IfOk, OnOk, OnErr};
ghost use Rattle.std.specs.declared.option.Option.{Option};
ghost use Rattle.std.specs.Io.{WritesAtMost};
ghost use Rattle.std.specs.Io.KnownBytes.{WriteAppends, Appends};
ghost use Rattle.cmrun.specs.Ends.{CountsFaults, AppendsPrefix};
ghost use Rattle.cmrun.specs.Lines.{joined};

use crate::source::Failed;
use std::io::Write;

/// An output that takes bytes piece by piece, and counts its faults.
pub trait Sink {
    /// The bytes that it holds, where they can be told.
    ghost holds: { Self → Option (List ℕ) };

    /// How many writes have failed.
    ghost faults: { Self → ℕ };

    /// Adds the first bytes of the piece to what it holds and answers their number, which is
    /// above 0 for a piece that has bytes. `Failed` adds nothing and raises the count of faults by one;
    /// nothing else changes that count.
    fn write(&mut self, piece: &[u8]) -> Result<usize, Failed>
        ensures bound { WritesAtMost result piece.now }
        ensures some { IfOk result (λ n. 0 < length piece.now → 0 < n) }
        ensures bytes { WriteAppends (holds self.old) (holds self.new) result piece.now }
        ensures cause { CountsFaults (faults self.old) (faults self.new) result };
}

/// A writer of std. It tells nothing of what it holds.
#[derive(Drop)]
pub struct StdSink<W: Write> {
    inner: W,
    /// How many writes have failed.
    pub faults: u64,
}

impl<W: Write> StdSink<W> {
    /// A sink over a writer, without a fault so far.
    pub fn new(inner: W) -> Self
        ensures { result.faults ≡ 0 }
    {
        StdSink { inner, faults: 0 }
    }
}

impl<W: Write> Sink for StdSink<W> {
    ghost use Rattle.std.specs.Prelude.{None};

    ghost holds = { λ _. None };

    ghost faults = { λ s. s.faults };

    fn write(&mut self, piece: &[u8]) -> Result<usize, Failed> {
        match self.inner.write(piece) {
            // A writer that takes nothing of a piece has failed.
            Ok(count) if count > 0 || piece.is_empty() => Ok(count),
            _ => {
                self.faults = self.faults.saturating_add(1);
                Err(Failed)
            }
        }
    }
}

/// Writes the whole piece, and what a write leaves of it as the next piece.
///
/// `Failed` comes where a write fails; some first part of the piece is then written, and no further
/// write is made.
#[tactic(auto, using(crate::proofs::Prefixes::written_more, crate::proofs::Prefixes::written_part, crate::proofs::Prefixes::prefix_kept))]
pub fn write_all<K: Sink>(sink: &mut K, piece: &[u8]) -> Result<(), Failed>
    ensures ok { OnOk result (Appends (K.holds sink.old) (K.holds sink.new) piece.now) }
    ensures err { OnErr result (AppendsPrefix (K.holds sink.old) (K.holds sink.new) piece.now) }
    ensures cause { CountsFaults (K.faults sink.old) (K.faults sink.new) result }
{
    let mut rest = piece;
    while !rest.is_empty() {
        match sink.write(rest) {
            Ok(count) => rest = rest.split_at(count).1,
            Err(failed) => return Err(failed),
        }
    }
    Ok(())
}

/// Writes the lines one after another, each as one piece.
///
/// `Failed` comes where a write fails; some first part of the lines is then written, and no further
/// write is made.
pub fn write_lines<K: Sink>(sink: &mut K, lines: &[String]) -> Result<(), Failed>
    ensures ok { OnOk result (Appends (K.holds sink.old) (K.holds sink.new) (joined lines.now)) }
    ensures err { OnErr result (AppendsPrefix (K.holds sink.old) (K.holds sink.new) (joined lines.now)) }
    ensures cause { CountsFaults (K.faults sink.old) (K.faults sink.new) result }
{
    for line in lines {
        if let Err(failed) = write_all(sink, line.as_bytes()) {
            return Err(failed);
        }
    }
    Ok(())
}
