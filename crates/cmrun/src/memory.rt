// A source and a sink in memory, which fail at the calls of given numbers.
ghost use Rattle.std.specs.Prelude.{◌≡◌, ◌≤◌, take, min, length};

use crate::sink::Sink;
use crate::source::{Failed, Source};
use cmc_meta::{Bytes, Numbers};
use std::alloc::{AllocError, Global};

/// Bytes in memory as a source. It tells what is left.
#[derive(Drop)]
pub struct MemSource {
    bytes: Bytes,
    at: usize,
    failing: Numbers,
    calls: u64,
    faults: u64,
    ghost within: { at ≤ length bytes },
}

/// Bytes in memory as a sink. It tells what it holds.
#[derive(Drop)]
pub struct MemSink {
    bytes: Vec<u8>,
    failing: Numbers,
    calls: u64,
    faults: u64,
}

// Copies what fits to the front of `into`, and answers how much that is.
fn copy_front(from: &[u8], into: &mut [u8]) -> usize
    ensures count { result ≡ min (length from.now) (length into.old) }
    ensures copied { take result into.new ≡ take result from.now }
{
    let count = from.len().min(into.len());
    into[..count].copy_from_slice(&from[..count]);
    count
}

impl MemSource {
    ghost use Rattle.std.specs.Prelude.{IfOk};
    ghost use Rattle.cmrun.specs.Memory.{left_in, read_faults, failing_reads, reads_made};

    /// A source of these bytes, at which the reads of the given numbers (from 1) fail.
    pub fn new(_alloc: Global, bytes: Bytes, failing: Numbers) -> Result<Self, AllocError>
        ensures left { IfOk result (λ s. left_in s ≡ bytes) }
        ensures faults { IfOk result (λ s. read_faults s ≡ 0) }
        ensures failing { IfOk result (λ s. failing_reads s ≡ failing) }
        ensures made { IfOk result (λ s. reads_made s ≡ 0) }
    {
        Ok(MemSource {
            bytes,
            at: 0,
            failing,
            calls: 0,
            faults: 0,
        })
    }
}

impl Source for MemSource {
    ghost use Rattle.std.specs.Prelude.{Some, IfOk, is_err};
    ghost use Rattle.std.specs.Io.{ReadsAtMost};
    ghost use Rattle.std.specs.Io.KnownBytes.{ReadConsumes};
    ghost use Rattle.cmrun.specs.Ends.{CountsFaults, risen};
    ghost use Rattle.cmrun.specs.Memory.{left_in, read_faults, failing_reads, reads_made, fails_next_read};

    ghost left = { λ s. Some (left_in s) };

    ghost faults = { λ s. read_faults s };

    /// Reads as much as `into` has room for. It fails exactly where the number of this read, from 1, is
    /// one of those that fail.
    fn read(&mut self, into: &mut [u8]) -> Result<usize, Failed>
        ensures bound { ReadsAtMost result into.new }
        ensures bytes { ReadConsumes (Some (left_in self.old)) (Some (left_in self.new)) result into.new }
        ensures cause { CountsFaults (read_faults self.old) (read_faults self.new) result }
        ensures fails { is_err result ≡ fails_next_read self.old }
        ensures count { IfOk result (λ n. n ≡ min (length (left_in self.old)) (length into.old)) }
        ensures made { reads_made self.new ≡ risen (reads_made self.old) }
        ensures failing { failing_reads self.new ≡ failing_reads self.old }
    {
        self.calls = self.calls.saturating_add(1);
        if self.failing.as_slice().contains(&self.calls) {
            self.faults = self.faults.saturating_add(1);
            return Err(Failed);
        }
        let count = copy_front(&self.bytes.as_slice()[self.at..], into);
        self.at += count;
        Ok(count)
    }
}

impl MemSink {
    ghost use Rattle.std.specs.Prelude.{[], IfOk};
    ghost use Rattle.cmrun.specs.Memory.{sink_bytes, write_faults, failing_writes, writes_made};

    /// An empty sink, at which the writes of the given numbers (from 1) fail.
    pub fn new(alloc: Global, failing: Numbers) -> Result<Self, AllocError>
        ensures holds { IfOk result (λ s. sink_bytes s ≡ []) }
        ensures faults { IfOk result (λ s. write_faults s ≡ 0) }
        ensures failing { IfOk result (λ s. failing_writes s ≡ failing) }
        ensures made { IfOk result (λ s. writes_made s ≡ 0) }
    {
        Ok(MemSink {
            bytes: Vec::new(alloc),
            failing,
            calls: 0,
            faults: 0,
        })
    }

    /// The bytes that it holds.
    pub fn bytes(&self) -> &[u8]
        ensures { result.now ≡ sink_bytes self.now }
    {
        &self.bytes
    }
}

impl Sink for MemSink {
    ghost use Rattle.std.specs.Prelude.{◌<◌, Some, true, IfOk, IsErr};
    ghost use Rattle.std.specs.Io.{WritesAtMost};
    ghost use Rattle.std.specs.Io.KnownBytes.{WriteAppends};
    ghost use Rattle.cmrun.specs.Ends.{CountsFaults, risen};
    ghost use Rattle.cmrun.specs.Memory.{sink_bytes, write_faults, failing_writes, writes_made, fails_next_write};

    ghost holds = { λ s. Some (sink_bytes s) };

    ghost faults = { λ s. write_faults s };

    /// Takes the whole piece. It fails where the number of this write, from 1, is one of those that fail,
    /// and else only where memory runs out.
    fn write(&mut self, piece: &[u8]) -> Result<usize, Failed>
        ensures bound { WritesAtMost result piece.now }
        ensures some { IfOk result (λ n. 0 < length piece.now → 0 < n) }
        ensures bytes { WriteAppends (Some (sink_bytes self.old)) (Some (sink_bytes self.new)) result piece.now }
        ensures cause { CountsFaults (write_faults self.old) (write_faults self.new) result }
        ensures fails { fails_next_write self.old ≡ true → IsErr result }
        ensures whole { IfOk result (λ n. n ≡ length piece.now) }
        ensures made { writes_made self.new ≡ risen (writes_made self.old) }
        ensures failing { failing_writes self.new ≡ failing_writes self.old }
    {
        self.calls = self.calls.saturating_add(1);
        // A sink that has no room for the piece has failed.
        if self.failing.as_slice().contains(&self.calls)
            || self.bytes.extend_from_slice(piece).is_err()
        {
            self.faults = self.faults.saturating_add(1);
            return Err(Failed);
        }
        Ok(piece.len())
    }
}
