//! Readers and writers of the standard library as streams: `Reading` is a `Source`, `Writing` is a `Sink`.

ghost use Rattle.std.specs.Prelude.{◌≡◌, IsSome};

use crate::streams::{ReadFault, Sink, Source, WriteFault};
use std::io::{Read, Write};

/// A reader whose bytes are known, as a `Source`. It has none at hand: each byte is a read of its own, so a `BufReader` is best for reading
/// from the system. The bytes of a file aren't known in this sense: read it whole, and give the bytes.
#[derive(Drop)]
pub struct Reading<R: Read + Drop> {
    pub(crate) inner: R,
    pub(crate) failures: u64,
    pub(crate) reads: u64,
    ghost known: { IsSome (R.remaining inner) },
}

impl<R: Read + Drop> Reading<R> {
    /// A source of the bytes that this reader still gives. No read has failed yet.
    pub fn new(inner: R) -> Reading<R>
        requires known { IsSome (R.remaining inner) }
        ensures inner { result.inner ≡ inner }
        ensures fine { result.failures ≡ 0 }
        ensures reads { result.reads ≡ 0 }
    {
        Reading {
            inner,
            failures: 0,
            reads: 0,
        }
    }

    /// The reader, with the bytes that are left.
    pub fn into_inner(self) -> R
        ensures { result ≡ self.inner }
    {
        let Reading {
            inner,
            failures: _,
            reads: _,
        } = self;
        inner
    }
}

impl<R: Read + Drop> Source for Reading<R> {
    ghost use Rattle.std.specs.Prelude.{[]};
    ghost use Rattle.flt_model.specs.Streams.{known_bytes};

    ghost coming = { λ s. known_bytes (R.remaining s.inner) };

    ghost at_hand = { λ _. [] };

    ghost failures = { λ s. s.failures };

    ghost reads = { λ s. s.reads };

    fn next(&mut self) -> Result<Option<u8>, ReadFault> {
        self.reads = self.reads.saturating_add(1);
        let mut byte = [0u8; 1];
        match self.inner.read(&mut byte) {
            Ok(0) => Ok(None),
            Ok(_) => Ok(Some(byte[0])),
            Err(_) => {
                self.failures = self.failures.wrapping_add(1);
                Err(ReadFault)
            }
        }
    }

    fn ready(&self) -> &[u8] {
        &[]
    }

    fn pass(&mut self, _count: usize) {}
}

/// A writer as a `Sink`, which has taken the writer's contents. An interruption fails, and likewise a write that takes nothing of some
/// bytes. It doesn't flush.
#[derive(Drop)]
pub struct Writing<W: Write + Drop> {
    pub(crate) inner: W,
    pub(crate) failures: u64,
}

impl<W: Write + Drop> Writing<W> {
    /// A sink that writes to this writer. No write has failed yet.
    pub fn new(inner: W) -> Writing<W>
        ensures inner { result.inner ≡ inner }
        ensures fine { result.failures ≡ 0 }
    {
        Writing { inner, failures: 0 }
    }

    /// The writer, with the bytes that it has taken.
    pub fn into_inner(self) -> W
        ensures { result ≡ self.inner }
    {
        let Writing { inner, failures: _ } = self;
        inner
    }
}

impl<W: Write + Drop> Sink for Writing<W> {
    ghost taken = { λ s. W.contents s.inner };

    ghost failures = { λ s. s.failures };

    fn put(&mut self, bytes: &[u8]) -> Result<usize, WriteFault> {
        match self.inner.write(bytes) {
            Ok(n) if 0 < n || bytes.is_empty() => Ok(n),
            _ => {
                self.failures = self.failures.wrapping_add(1);
                Err(WriteFault)
            }
        }
    }
}
