//! Bytes as they are shown.

ghost use Rattle.std.specs.Prelude.{◌≡◌, ◌<◌, ◌≤◌, ◌+◌, ◌++◌, true, drop, length, replicate, IfOk, OnOk};
ghost use Rattle.std.specs.Int.{is_in_range};
ghost use Rattle.flt_shown.specs.Shown as spec;

use crate::character::character;
use std::alloc::AllocError;

/// The sign that is printed for each byte of a character that isn't shown, by its first one.
fn hidden(byte: u8) -> u8
    ensures { result ≡ spec.sign_of byte }
{
    match byte {
        b'\t' => b' ',
        _ => b'?',
    }
}

fn is_printable(byte: u8) -> bool
    ensures { result ≡ is_in_range 32 126 byte }
{
    matches!(byte, 32..=126)
}

/// How many of the first bytes are shown as they are, each a character by itself.
fn plain(bytes: &[u8]) -> usize
    ensures within { result ≤ length bytes.now }
    ensures shown { spec.IsStretch bytes.now result true }
{
    let mut count: usize = 0;
    for byte in bytes {
        if !is_printable(*byte) {
            return count;
        }
        count = count.saturating_add(1);
    }
    count
}

/// How many of the first bytes are shown alike, and whether they are shown: all that are printable, or else one character.
fn stretch(bytes: &[u8]) -> (usize, bool)
    requires { 0 < length bytes.now }
    ensures some { 0 < result.0 }
    ensures within { result.0 ≤ length bytes.now }
    ensures shown { spec.IsStretch bytes.now result.0 result.1 }
{
    match plain(bytes) {
        0 => first_character(bytes),
        count => (count, true),
    }
}

/// The same for the first character.
#[tactic(auto, using(crate::proofs::Stretches::of_first))]
fn first_character(bytes: &[u8]) -> (usize, bool)
    requires { 0 < length bytes.now }
    ensures some { 0 < result.0 }
    ensures within { result.0 ≤ length bytes.now }
    ensures shown { spec.IsStretch bytes.now result.0 result.1 }
{
    let (more, is_shown) = character(bytes);
    (more + 1, is_shown)
}

/// Writes a byte several times.
fn put_times(out: &mut Vec<u8>, byte: u8, count: usize) -> Result<(), AllocError>
    ensures { OnOk result (out.new.items ≡ out.old.items ++ replicate count byte) }
{
    for _time in 0..count {
        out.push(byte)?;
    }
    Ok(())
}

/// Writes the first bytes of some that are shown alike, and returns how many these are.
#[tactic(auto, using(crate::proofs::Stretches::front_steps))]
fn put_front(out: &mut Vec<u8>, bytes: &[u8]) -> Result<usize, AllocError>
    requires { 0 < length bytes.now }
    ensures count { IfOk result (λ n. (0 < n) × (n ≤ length bytes.now)) }
    ensures shown { IfOk result (λ n. out.new.items ++ spec.shown (drop n bytes.now) ≡ out.old.items ++ spec.shown bytes.now) }
{
    let (count, is_shown) = stretch(bytes);
    if is_shown {
        out.extend_from_slice(&bytes[..count])?;
    } else {
        put_times(out, hidden(bytes[0]), count)?;
    }
    Ok(count)
}

/// Writes bytes of a text or of a name as they are shown. A tab becomes a blank. Each byte of a character on which a terminal may act, and
/// each that isn't UTF-8, becomes a `?`, so that each has one column.
///
/// # Errors
///
/// `AllocError` if a growth is refused; some of the bytes may be written then.
pub fn put_shown(out: &mut Vec<u8>, bytes: &[u8]) -> Result<(), AllocError>
    ensures { OnOk result (out.new.items ≡ out.old.items ++ spec.shown bytes.now) }
{
    let mut at = 0;
    while at < bytes.len() {
        at += put_front(out, &bytes[at..])?;
    }
    Ok(())
}
