//! A journal as bytes.

ghost use Rattle.std.specs.Prelude.{◌≡◌, Some, IfOk};
ghost use Rattle.flt_model.specs.JournalText.{spelling};

use crate::journal::Journal;
use crate::streams::{Sink, WriteFault};
use crate::writer::write;
use std::alloc::{AllocError, Global};

/// Bytes that are kept, with a count of how often there was no room for more.
#[derive(Drop)]
struct Kept {
    bytes: Vec<u8>,
    failures: u64,
}

impl Sink for Kept {
    ghost taken = { λ s. Some s.bytes.items };

    ghost failures = { λ s. s.failures };

    fn put(&mut self, bytes: &[u8]) -> Result<usize, WriteFault> {
        match self.bytes.extend_from_slice(bytes) {
            Ok(()) => Ok(bytes.len()),
            Err(_) => {
                self.failures = self.failures.wrapping_add(1);
                Err(WriteFault)
            }
        }
    }
}

/// The one spelling of a journal.
///
/// # Errors
///
/// `AllocError` if a growth is refused.
pub fn journal_bytes(alloc: Global, journal: &Journal) -> Result<Vec<u8>, AllocError>
    ensures { IfOk result (λ bytes. bytes.items ≡ spelling journal.now) }
{
    let mut kept = Kept {
        bytes: Vec::new(alloc),
        failures: 0,
    };
    match write(journal, &mut kept) {
        Ok(()) => Ok(kept.bytes),
        Err(_) => Err(AllocError),
    }
}
