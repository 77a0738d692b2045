//! The program's streams, as a source and a sink: just the bytes of a stream of the library. What the
//! standard streams carry the library doesn't tell, so of those only tests speak.
ghost use Rattle.std.specs.Prelude.{◌≡◌, ◌≤◌, ◌^◌, None, refl};

use mp_base::{Failed, Sink, Source};
use std::io::{Read, Stdin, Stdout, Write};

/// The most bytes that a source gives.
const MOST_GIVEN: usize = 1 << 62;

/// A stream that always tells the bytes that it has left, or never.
pub trait Incoming: Read {
    ghost steady: { (old new : Self) → Self.remaining old ≡ None → Self.remaining new ≡ None };
}

impl Incoming for Stdin {
    ghost steady = { λ old new e. refl };
}

/// A stream that always tells the bytes that it has taken, or never.
pub trait Outgoing: Write {
    ghost steady: { (old new : Self) → Self.contents old ≡ None → Self.contents new ≡ None };
}

impl Outgoing for Stdout {
    ghost steady = { λ old new e. refl };
}

/// Bytes that are read from a stream.
#[derive(Drop)]
pub struct Input<R: Incoming> {
    stream: R,
    given: usize,
    faults: u64,
    ghost limit: { given ≤ 2 ^ 62 },
}

impl<R: Incoming> Input<R> {
    /// A source that reads this stream.
    pub fn new(stream: R) -> Input<R>
        ensures { result.stream ≡ stream }
    {
        Input {
            stream,
            given: 0,
            faults: 0,
        }
    }
}

impl<R: Incoming> Source for Input<R> {
    ghost left = { λ s. R.remaining s.stream };

    ghost given = { λ s. s.given };

    ghost faults = { λ s. s.faults };

    fn read(&mut self, out: &mut [u8]) -> Result<usize, Failed> {
        let room = out.len().min(MOST_GIVEN - self.given);
        if room > 0 {
            if let Ok(n) = self.stream.read(&mut out[..room]) {
                self.given += n;
                return Ok(n);
            }
        }
        self.faults = self.faults.saturating_add(1);
        Err(Failed)
    }
}

/// Bytes that are written to a stream.
#[derive(Drop)]
pub struct Output<W: Outgoing> {
    stream: W,
    faults: u64,
}

impl<W: Outgoing> Output<W> {
    /// A sink that writes this stream.
    pub fn new(stream: W) -> Output<W>
        ensures { result.stream ≡ stream }
    {
        Output { stream, faults: 0 }
    }
}

impl<W: Outgoing> Sink for Output<W> {
    ghost contents = { λ s. W.contents s.stream };

    ghost faults = { λ s. s.faults };

    fn write(&mut self, bytes: &[u8]) -> Result<usize, Failed> {
        match self.stream.write(bytes) {
            Ok(n) if n > 0 => Ok(n),
            _ => {
                self.faults = self.faults.saturating_add(1);
                Err(Failed)
            }
        }
    }
}
