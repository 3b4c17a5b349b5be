//! Bytes that come in pieces.

ghost use Rattle.std.specs.Io.KnownBytes.{Consumes, IsAtEnd, ReadConsumes};
ghost use Rattle.std.specs.Io.{ReadsAtMost};
ghost use Rattle.std.specs.Prelude.{◌≡◌, ◌≢◌, ℕ, [], ◌∷◌, List, Option, IfNone, IfOk, IfSome, OnErr, OnOk};

use flt_model::ReadFault;

/// A stream of bytes that is read, with a count of its failures.
pub trait Incoming {
    // The bytes that it still gives; none where they aren't known.
    ghost left: { Self → Option (List ℕ) };

    // The count of its failures.
    ghost failures: { Self → ℕ };

    /// Puts the next bytes into the front of a buffer, and returns how many; 0 only at the end, or if the buffer has no room.
    fn take(&mut self, buffer: &mut [u8]) -> Result<usize, ReadFault>
        ensures bound { ReadsAtMost result buffer.new }
        ensures bytes { ReadConsumes (left self.old) (left self.new) result buffer.new }
        ensures fine { OnOk result (failures self.new ≡ failures self.old) }
        ensures failed { OnErr result (failures self.new ≢ failures self.old) };
}

/// The next byte; none at the end.
pub(crate) fn next_byte<R: Incoming>(reader: &mut R) -> Result<Option<u8>, ReadFault>
    ensures byte { IfOk result (λ found. IfSome found (λ b. Consumes (R.left reader.old) (R.left reader.new) (b ∷ []))) }
    ensures end { IfOk result (λ found. IfNone found (Consumes (R.left reader.old) (R.left reader.new) [])) }
    ensures ended { IfOk result (λ found. IfNone found (IsAtEnd (R.left reader.new))) }
    ensures fine { OnOk result (R.failures reader.new ≡ R.failures reader.old) }
    ensures failed { OnErr result (R.failures reader.new ≢ R.failures reader.old) }
{
    let mut buffer = [0u8; 1];
    if reader.take(&mut buffer)? == 0 {
        return Ok(None);
    }
    Ok(Some(buffer[0]))
}
