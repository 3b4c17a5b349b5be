//! Journals that are written where each call of the writer fails, one a time. `tools/fail-streams` has the program read where calls fail. Texts
//! that are no journals are in `examples/cases/journals.cases`, and others in `examples/verdicts/` with their verdicts.

use flt_model::{Journal, JournalFault, Reading, Sink, WriteFault, Writing, read, write};
use std::alloc::Global;
use std::test::Fail;

/// A writer that keeps what it takes, one byte at a time, and fails at a call, counted from 0.
#[derive(Drop)]
struct Kept {
    bytes: Vec<u8>,
    calls: u64,
    fails_at: Option<u64>,
    failures: u64,
}

impl Kept {
    fn new(alloc: Global, fails_at: Option<u64>) -> Kept {
        Kept {
            bytes: Vec::new(alloc),
            calls: 0,
            fails_at,
            failures: 0,
        }
    }
}

impl Sink for Kept {
    ghost use Rattle.std.specs.Prelude.{Some};

    ghost taken = { λ s. Some s.bytes.items };

    ghost failures = { λ s. s.failures };

    fn put(&mut self, bytes: &[u8]) -> Result<usize, WriteFault> {
        let call = self.calls;
        self.calls = call.wrapping_add(1);
        let count = if bytes.is_empty() { 0 } else { 1 };
        if self.fails_at == Some(call) || self.bytes.extend_from_slice(&bytes[..count]).is_err() {
            self.failures = self.failures.wrapping_add(1);
            return Err(WriteFault);
        }
        Ok(count)
    }
}

/// A line of each kind, with the least and the greatest number.
const EACH_KIND: &str =
    "fltjournal 1\narrive create irp 0\narrive cleanup fast 4294967295\narrive write fast 10\npre 4294967295\nskip 1\nlower 2\npost 3\ncancel 4\ncanceled 5 6\nwork 7\ndetach 8\ndrain 9 10\nunlink 11 stream 12\nunlink 13 instance\ndetached 14\ngo 15 16 no\ngo 4294967295 4294967295 yes\nend\n";

/// Whether a failure of the writer at this call is reported, and no failure if there are fewer calls.
fn write_is_told(alloc: Global, journal: &Journal, call: u64, fails: bool) -> bool {
    let mut out = Kept::new(alloc, Some(call));
    let failures = if fails { 1 } else { 0 };
    write(journal, &mut out).is_err() == fails && out.failures == failures
}

/// The first call at which a failure of a writer isn't reported. A journal of n bytes takes n writes of a byte.
fn wrong_write(alloc: Global, text: &[u8]) -> Result<Option<u64>, JournalFault> {
    let journal = read(alloc, &mut Reading::new(text))?;
    let last = text.len() as u64;
    for call in 0..last + 1 {
        if !write_is_told(alloc, &journal, call, call < last) {
            return Ok(Some(call));
        }
    }
    Ok(None)
}

/// Whether a journal that is read from a reader of std is written unchanged to a writer of std.
fn goes_through_std(alloc: Global, text: &[u8]) -> Result<bool, JournalFault> {
    let journal = read(alloc, &mut Reading::new(text))?;
    let mut out = Writing::new(Vec::new(alloc));
    Ok(write(&journal, &mut out).is_ok() && out.into_inner().as_slice() == text)
}

#[test]
fn failing_writers_are_told(rt: HostRuntime) -> Result<(), Fail> {
    assert!(rt; goes_through_std(rt.alloc(), EACH_KIND.as_bytes())?);
    assert!(rt; wrong_write(rt.alloc(), EACH_KIND.as_bytes())?.is_none());
    Ok(())
}
