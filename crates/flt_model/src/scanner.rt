//! The bytes of a reader, and the numbers in them.

ghost use Rattle.std.specs.Prelude.{◌≡◌, ◌<◌, ◌≤◌, ◌+◌, length, IfSome};
ghost use Rattle.flt_model.specs.JournalTextReading as spec;

use crate::streams::{ReadFault, Source};

/// Why reading stopped.
#[derive(Clone, Copy)]
pub enum Stop {
    /// The latest byte is malformed, or one is missing.
    Wrong,
    /// The reader failed.
    Failed,
}

impl From<ReadFault> for Stop {
    ghost use Rattle.flt_model.specs.declared.scanner.Stop.TheVariants.{Failed};
    ghost use Rattle.std.specs.Prelude.{◌≡◌};

    ghost from_gives = { λ _ e. e ≡ Failed };

    fn from(_e: ReadFault) -> Stop {
        Stop::Failed
    }
}

pub(crate) fn byte<R: Source>(reader: &mut R) -> Result<u8, Stop>
    ensures read { spec.Reads (spec.byte (R.coming reader.old)) result (R.coming reader.new) }
    ensures fails { spec.Counts result (R.failures reader.old) (R.failures reader.new) }
    ensures reads { R.reads reader.new ≤ R.reads reader.old + 1 }
{
    reader.next()?.ok_or(Stop::Wrong)
}

/// Reads these bytes, one by one.
#[cold]
#[inline(never)]
#[tactic(auto, using(crate::proofs::ReadingSteps::exactly_none))]
fn exactly_by_bytes<R: Source>(reader: &mut R, bytes: &[u8]) -> Result<(), Stop>
    ensures read { spec.Reads (spec.exactly bytes.now (R.coming reader.old)) result (R.coming reader.new) }
    ensures fails { spec.Counts result (R.failures reader.old) (R.failures reader.new) }
    ensures reads { R.reads reader.new ≤ R.reads reader.old + length bytes.now }
{
    for wanted in bytes {
        if byte(reader)? != *wanted {
            return Err(Stop::Wrong);
        }
    }
    Ok(())
}

/// The same, from the bytes at hand if they suffice.
#[inline(always)]
pub(crate) fn exactly<R: Source>(reader: &mut R, bytes: &[u8]) -> Result<(), Stop>
    ensures read { spec.Reads (spec.exactly bytes.now (R.coming reader.old)) result (R.coming reader.new) }
    ensures fails { spec.Counts result (R.failures reader.old) (R.failures reader.new) }
    ensures reads { R.reads reader.new ≤ R.reads reader.old + length bytes.now }
{
    if reader.ready().starts_with(bytes) {
        reader.pass(bytes.len());
        return Ok(());
    }
    exactly_by_bytes(reader, bytes)
}

/// A number with one more digit, if it stays below 2 ^ 32.
fn with_digit(number: u32, digit: u8) -> Option<u32>
    ensures { result ≡ spec.with_digit number digit }
{
    match digit {
        b'0'..=b'9' => {
            let more = 10 * (number as u64) + (digit - b'0') as u64;
            if more <= u32::MAX as u64 {
                Some(more as u32)
            } else {
                None
            }
        }
        _ => None,
    }
}

/// The digits of a number after those that were read, `left` at most, and the byte after it.
#[tactic(auto, using(crate::proofs::ReadingSteps::digits_none, crate::proofs::ReadingSteps::digits_end, crate::proofs::ReadingSteps::digits_last, crate::proofs::ReadingSteps::digits_wrong, crate::proofs::ReadingSteps::digits_more))]
fn digits<R: Source>(reader: &mut R, left: usize, end: u8, number: u32) -> Result<u32, Stop>
    requires { left < 100 }
    ensures read { spec.Reads (spec.digits left end number (R.coming reader.old)) result (R.coming reader.new) }
    ensures fails { spec.Counts result (R.failures reader.old) (R.failures reader.new) }
    ensures reads { R.reads reader.new ≤ R.reads reader.old + (left + 1) }
{
    let mut left = left;
    let mut number = number;
    loop {
        let next = byte(reader)?;
        if next == end {
            return Ok(number);
        }
        if left == 0 {
            return Err(Stop::Wrong);
        }
        match with_digit(number, next) {
            Some(more) => number = more,
            None => return Err(Stop::Wrong),
        }
        left -= 1;
    }
}

/// A number of eight digits at most with which these bytes begin, with the byte after it, and the number of bytes of both. None if it is
/// cut off, malformed or 0.
#[inline(always)]
fn number_in(bytes: &[u8], end: u8) -> Option<(u32, usize)>
    ensures { IfSome result (λ q. spec.IsNumberIn end bytes.now q.0 q.1) }
{
    let first = *bytes.first()?;
    if first == b'0' {
        return None;
    }
    let mut number = with_digit(0, first)?;
    for at in 1..9 {
        let next = *bytes.get(at)?;
        if next == end {
            return Some((number, at + 1));
        }
        number = with_digit(number, next)?;
    }
    None
}

/// A number without leading zeros, and the byte after it, byte by byte.
#[cold]
#[inline(never)]
#[tactic(auto, unfolding(crate::specs::JournalTextReading::number))]
fn number_by_bytes<R: Source>(reader: &mut R, end: u8) -> Result<u32, Stop>
    ensures read { spec.Reads (spec.number end (R.coming reader.old)) result (R.coming reader.new) }
    ensures fails { spec.Counts result (R.failures reader.old) (R.failures reader.new) }
    ensures reads { R.reads reader.new ≤ R.reads reader.old + 11 }
{
    let first = byte(reader)?;
    if first == b'0' {
        exactly(reader, &[end])?;
        return Ok(0);
    }
    match with_digit(0, first) {
        Some(number) => digits(reader, 9, end, number),
        None => Err(Stop::Wrong),
    }
}

/// The same, from the bytes at hand if they suffice.
pub(crate) fn number<R: Source>(reader: &mut R, end: u8) -> Result<u32, Stop>
    ensures read { spec.Reads (spec.number end (R.coming reader.old)) result (R.coming reader.new) }
    ensures fails { spec.Counts result (R.failures reader.old) (R.failures reader.new) }
    ensures reads { R.reads reader.new ≤ R.reads reader.old + 11 }
{
    match number_in(reader.ready(), end) {
        Some((number, length)) => {
            reader.pass(length);
            Ok(number)
        }
        None => number_by_bytes(reader, end),
    }
}
