//! Names of files as references.

ghost use Rattle.std.specs.Prelude.{◌≡◌, ◌<◌, ◌++◌, IfOk, OnOk};
ghost use Rattle.flt_explain_parts.specs.Uri as spec;

use sqlite_items::Items;
use std::alloc::{AllocError, Global};

/// The name of a file, as a reference.
#[derive(Drop)]
pub struct Reference {
    pub uri: Items<u8>,
    /// Whether the name is from the root; any other is from the folder in which the program runs.
    pub is_absolute: bool,
}

/// Whether a byte stands for itself in a reference.
fn is_plain(byte: u8) -> bool
    ensures { result ≡ spec.is_plain byte }
{
    matches!(byte, b'a'..=b'z' | b'A'..=b'Z' | b'-'..=b'9' | b'_' | b'~')
}

/// A hexadecimal digit.
fn digit(number: u8) -> u8
    requires { number < 16 }
    ensures { result ≡ spec.digit number }
{
    if number < 10 {
        number + 48
    } else {
        number + 55
    }
}

fn put_byte(out: &mut Vec<u8>, byte: u8) -> Result<(), AllocError>
    ensures { OnOk result (out.new.items ≡ out.old.items ++ spec.uri_byte byte) }
{
    if is_plain(byte) {
        out.push(byte)?;
        return Ok(());
    }
    out.push(b'%')?;
    out.push(digit(byte / 16))?;
    out.push(digit(byte % 16))?;
    Ok(())
}

/// Whether a name is one from the root.
fn is_absolute(name: &[u8]) -> bool
    ensures { result ≡ spec.is_absolute name.now }
{
    match name {
        [first, ..] => *first == b'/',
        [] => false,
    }
}

/// The text before the bytes of a name.
fn scheme(is_absolute: bool) -> &'static [u8]
    ensures { result.now ≡ spec.scheme is_absolute }
{
    if is_absolute { b"file://" } else { b"" }
}

/// A name after a scheme: each byte that doesn't stand for itself is `%` and its two digits.
fn uri(alloc: Global, scheme: &[u8], name: &[u8]) -> Result<Vec<u8>, AllocError>
    ensures { IfOk result (λ v. v.items ≡ scheme.now ++ spec.uri_of name.now) }
{
    let mut out = Vec::from_slice(alloc, scheme)?;
    for byte in name {
        put_byte(&mut out, *byte)?;
    }
    Ok(out)
}

/// A name as a reference.
///
/// # Errors
///
/// `AllocError` if a growth is refused.
pub fn reference_to(alloc: Global, name: &str) -> Result<Reference, AllocError>
    ensures { IfOk result (λ r. r ≡ spec.reference_of name.now) }
{
    let is_absolute = is_absolute(name.as_bytes());
    let uri = uri(alloc, scheme(is_absolute), name.as_bytes())?;
    Ok(Reference {
        uri: Items::from_vec(uri),
        is_absolute,
    })
}
