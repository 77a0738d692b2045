//! Where bytes come from.
ghost use Rattle.std.specs.Prelude.{◌≡◌, ℕ, ◌+◌, ◌^◌, ◌<◌, ◌≤◌, List, [], Option, Some, length, take, IfOk, OnErr};
ghost use Rattle.mp_base.specs.Outside.{Rose, Given};

use crate::Failed;

/// A stream of bytes that are read in pieces.
pub trait Source {
    /// The bytes that it has left, where it tells.
    ghost left: { Self → Option (List ℕ) };

    /// How many bytes it has given: at most 2^62, where a further read counts a fault.
    ghost given: { Self → ℕ };

    /// How often a read failed.
    ghost faults: { Self → ℕ };

    /// Reads a piece into the front of `out`, and answers its length. At 0 it is at its end. A read that
    /// failed has given no byte.
    fn read(&mut self, out: &mut [u8]) -> Result<usize, Failed>
        requires { 0 < length out.old }
        ensures within { IfOk result (λ n. n ≤ length out.new) }
        ensures bytes { IfOk result (λ n. Given (left self.old) (left self.new) (take n out.new)) }
        ensures end { IfOk result (λ n. n ≡ 0 → (rest : List ℕ) → left self.new ≡ Some rest → rest ≡ []) }
        ensures count { IfOk result (λ n. given self.new ≡ given self.old + n) }
        ensures limit { IfOk result (λ n. given self.new ≤ 2 ^ 62) }
        ensures failed { OnErr result (Given (left self.old) (left self.new) []) }
        ensures same { OnErr result (given self.new ≡ given self.old) }
        ensures counts { faults self.old ≤ faults self.new }
        ensures cause { OnErr result (Rose (faults self.old) (faults self.new)) };
}

/// The most bytes that a source gives.
const MOST_GIVEN: usize = 1 << 62;

/// A source in memory, which gives its bytes in pieces of at most a given length. One read may be
/// planned to fail.
#[derive(Drop)]
pub struct MemSource {
    bytes: Vec<u8>,
    at: usize,
    piece: usize,
    failing: Option<u64>,
    reads: u64,
    faults: u64,
    ghost within: { at ≤ length bytes.items },
    ghost limit: { at ≤ 2 ^ 62 },
    ghost some: { 0 < piece },
}

impl MemSource {
    ghost use Rattle.mp_base.specs.Memory.{source_rest, source_plan};

    /// A source of these bytes, in pieces of at most `piece` bytes, whose read number `failing`,
    /// counted from 0, fails.
    pub fn new(bytes: Vec<u8>, piece: usize, failing: Option<u64>) -> MemSource
        requires { 0 < piece }
        ensures rest { source_rest result ≡ bytes.items }
        ensures plan { source_plan result ≡ (piece, failing, 0) }
        ensures faults { result.faults ≡ 0 }
    {
        MemSource {
            bytes,
            at: 0,
            piece,
            failing,
            reads: 0,
            faults: 0,
        }
    }
}

impl Source for MemSource {
    ghost use Rattle.std.specs.Prelude.{Some};
    ghost use Rattle.mp_base.specs.Memory.{source_rest};

    ghost left = { λ s. Some (source_rest s) };

    ghost given = { λ s. s.at };

    ghost faults = { λ s. s.faults };

    fn read(&mut self, out: &mut [u8]) -> Result<usize, Failed> {
        let fails = self.failing == Some(self.reads);
        self.reads = self.reads.saturating_add(1);
        if fails || self.at >= MOST_GIVEN {
            self.faults = self.faults.saturating_add(1);
            return Err(Failed);
        }
        let rest = self.bytes.len() - self.at;
        let n = out
            .len()
            .min(self.piece)
            .min(rest)
            .min(MOST_GIVEN - self.at);
        out[..n].copy_from_slice(&self.bytes[self.at..self.at + n]);
        self.at += n;
        Ok(n)
    }
}
