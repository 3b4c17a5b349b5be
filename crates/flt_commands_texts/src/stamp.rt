//! The first line of a source that `emit --into` writes, by which the next one knows it.

ghost use Rattle.std.specs.Prelude.{◌≡◌, ◌↔◌, IfOk, IsTrue, string_bytes};
ghost use Rattle.flt_commands_texts.specs.Stamp as spec;

use sha2::{Digest, Sha256};
use std::alloc::{AllocError, Global};

/// The number of bytes of a stamp.
const STAMP: usize = 148;

/// The line on a source: the SHA-256 of its bytes, in hexadecimal.
#[tactic(auto, unfolding(crate::specs::Stamp::stamp))]
fn stamp(alloc: Global, source: &[u8]) -> Result<String, AllocError>
    ensures { IfOk result (λ line. string_bytes line ≡ spec.stamp source.now) }
{
    let sum = Sha256::digest(source);
    let mut line = String::from_str(
        alloc,
        "/* Written by fltstack, and replaced unless it is changed. SHA-256 of the rest: ",
    )?;
    let digits = hex::encode(alloc, sum)?;
    line.push_str(digits.as_str())?;
    line.push_str(" */\n")?;
    Ok(line)
}

/// A source after its stamp.
pub(crate) fn stamped(alloc: Global, source: &[u8]) -> Result<Vec<u8>, AllocError>
    ensures { IfOk result (λ bytes. bytes.items ≡ spec.stamped source.now) }
{
    let line = stamp(alloc, source)?;
    let mut bytes = line.into_bytes();
    bytes.extend_from_slice(source)?;
    Ok(bytes)
}

/// Whether bytes are a source after its stamp.
pub(crate) fn is_stamped(alloc: Global, bytes: &[u8]) -> Result<bool, AllocError>
    ensures { IfOk result (λ is. IsTrue is ↔ spec.IsStamped bytes.now) }
{
    if bytes.len() < STAMP {
        return Ok(false);
    }
    let (line, source) = bytes.split_at(STAMP);
    if line == stamp(alloc, source)?.as_bytes() {
        Ok(true)
    } else {
        Ok(false)
    }
}
