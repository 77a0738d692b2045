//! Where bytes go.
ghost use Rattle.std.specs.Prelude.{◌≡◌, ℕ, ◌<◌, ◌≤◌, List, [], Option, length, take, IfOk, OnErr};
ghost use Rattle.mp_base.specs.Outside.{Rose, Taken};

use crate::Failed;
use std::alloc::Global;

/// A stream of bytes that are written in pieces.
pub trait Sink {
    /// The bytes that it has taken, where it tells.
    ghost contents: { Self → Option (List ℕ) };

    /// How often a write failed.
    ghost faults: { Self → ℕ };

    /// Takes a front of the piece, at least one byte of it, and answers how much. A write that failed
    /// has taken no byte.
    fn write(&mut self, bytes: &[u8]) -> Result<usize, Failed>
        requires { 0 < length bytes.now }
        ensures some { IfOk result (λ n. 0 < n) }
        ensures within { IfOk result (λ n. n ≤ length bytes.now) }
        ensures taken { IfOk result (λ n. Taken (contents self.old) (contents self.new) (take n bytes.now)) }
        ensures failed { OnErr result (Taken (contents self.old) (contents self.new) []) }
        ensures counts { faults self.old ≤ faults self.new }
        ensures cause { OnErr result (Rose (faults self.old) (faults self.new)) };
}

/// A sink in memory, which takes its bytes in pieces of at most a given length. One write may be planned
/// to fail; so does one whose bytes find no memory.
#[derive(Drop)]
pub struct MemSink {
    taken: Vec<u8>,
    piece: usize,
    failing: Option<u64>,
    writes: u64,
    faults: u64,
    ghost some: { 0 < piece },
}

impl MemSink {
    ghost use Rattle.mp_base.specs.Memory.{sink_bytes, sink_plan};

    /// An empty sink, which takes at most `piece` bytes at once, and whose write number `failing`,
    /// counted from 0, fails.
    pub fn new(alloc: Global, piece: usize, failing: Option<u64>) -> MemSink
        requires { 0 < piece }
        ensures bytes { sink_bytes result ≡ [] }
        ensures plan { sink_plan result ≡ (piece, failing, 0) }
        ensures faults { result.faults ≡ 0 }
    {
        MemSink {
            taken: Vec::new(alloc),
            piece,
            failing,
            writes: 0,
            faults: 0,
        }
    }

    /// The bytes taken so far.
    pub fn bytes(&self) -> &[u8]
        ensures { result.now ≡ sink_bytes self.now }
    {
        &self.taken
    }
}

impl Sink for MemSink {
    ghost use Rattle.std.specs.Prelude.{Some};
    ghost use Rattle.mp_base.specs.Memory.{sink_bytes};

    ghost contents = { λ s. Some (sink_bytes s) };

    ghost faults = { λ s. s.faults };

    fn write(&mut self, bytes: &[u8]) -> Result<usize, Failed> {
        let fails = self.failing == Some(self.writes);
        self.writes = self.writes.saturating_add(1);
        let n = bytes.len().min(self.piece);
        if !fails && self.taken.extend_from_slice(&bytes[..n]).is_ok() {
            return Ok(n);
        }
        self.faults = self.faults.saturating_add(1);
        Err(Failed)
    }
}
