//! Streams of bytes, as journals are read from them, and journals and answers written to them.

ghost use Rattle.flt_model.specs.Streams.{Gives, ComesFirst};
ghost use Rattle.std.specs.Io.KnownBytes.{Appends};
ghost use Rattle.std.specs.Prelude.{◌≡◌, ◌≢◌, ℕ, ◌+◌, ◌≤◌, ◌<◌, List, Option, length, take, drop, OnOk, OnErr, IfOk};

/// A read failed.
#[derive(Clone, Copy, Debug)]
pub struct ReadFault;

/// A write failed. The number of its bytes that were taken before isn't known.
#[derive(Clone, Copy, Debug)]
pub struct WriteFault;

/// Gives bytes, one at a time, and counts its failures, of which an interruption is one. It may have bytes at hand that can be looked at
/// before they are taken.
pub trait Source {
    // The bytes that it still gives.
    ghost coming: { Self → List ℕ };

    // Those of them that are at hand.
    ghost at_hand: { Self → List ℕ };

    // The count of its failures, which is another one after each.
    ghost failures: { Self → ℕ };

    // The count of its reads, to which each adds one at most.
    ghost reads: { Self → ℕ };

    /// The next byte, or none at the end.
    fn next(&mut self) -> Result<Option<u8>, ReadFault>
        ensures byte { IfOk result (λ b. Gives (coming self.old) b (coming self.new)) }
        ensures fine { OnOk result (failures self.new ≡ failures self.old) }
        ensures err { OnErr result (failures self.new ≢ failures self.old) }
        ensures reads { reads self.new ≤ reads self.old + 1 };

    /// The bytes at hand. There may be none though more come.
    fn ready(&self) -> &[u8]
        ensures bytes { result.now ≡ at_hand self.now }
        ensures first { ComesFirst (at_hand self.now) (coming self.now) };

    /// Passes over this many of the bytes at hand, which is no read.
    fn pass(&mut self, count: usize)
        requires { count ≤ length (at_hand self.old) }
        ensures left { coming self.new ≡ drop count (coming self.old) }
        ensures fine { failures self.new ≡ failures self.old }
        ensures reads { reads self.new ≡ reads self.old };
}

/// The bytes that are left of a slice, all of them at hand. No read fails.
impl Source for &[u8] {
    ghost coming = { λ s. s.now };

    ghost at_hand = { λ s. s.now };

    ghost failures = { λ _. 0 };

    ghost reads = { λ _. 0 };

    fn next(&mut self) -> Result<Option<u8>, ReadFault> {
        match *self {
            [first, others @ ..] => {
                *self = others;
                Ok(Some(*first))
            }
            [] => Ok(None),
        }
    }

    fn ready(&self) -> &[u8] {
        *self
    }

    fn pass(&mut self, count: usize) {
        *self = &self[count..];
    }
}

/// Takes bytes, some at a time, and counts its failures, of which an interruption is one.
pub trait Sink {
    // What it has taken; none where it can't say.
    ghost taken: { Self → Option (List ℕ) };

    // The count of its failures, which is another one after each.
    ghost failures: { Self → ℕ };

    /// Takes some of the bytes, and returns how many; at least one if there are any.
    fn put(&mut self, bytes: &[u8]) -> Result<usize, WriteFault>
        ensures within { IfOk result (λ n. n ≤ length bytes.now) }
        ensures moves { IfOk result (λ n. 0 < length bytes.now → 0 < n) }
        ensures ok { IfOk result (λ n. Appends (taken self.old) (taken self.new) (take n bytes.now)) }
        ensures fine { OnOk result (failures self.new ≡ failures self.old) }
        ensures err { OnErr result (failures self.new ≢ failures self.old) };
}

/// Writes all of the bytes.
#[tactic(auto, using(crate::proofs::WritingSteps::none_taken, crate::proofs::WritingSteps::more_taken))]
pub fn put_all<W: Sink>(writer: &mut W, bytes: &[u8]) -> Result<(), WriteFault>
    ensures ok { OnOk result (Appends (W.taken writer.old) (W.taken writer.new) bytes.now) }
    ensures fine { OnOk result (W.failures writer.new ≡ W.failures writer.old) }
    ensures err { OnErr result (W.failures writer.new ≢ W.failures writer.old) }
{
    let mut at = 0;
    while at < bytes.len() {
        at += writer.put(&bytes[at..])?;
    }
    Ok(())
}
