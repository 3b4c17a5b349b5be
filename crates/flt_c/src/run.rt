//! Runs of plain bytes: those after which nothing of the state of reading has changed but its places.

ghost use Rattle.std.specs.Prelude.{◌≡◌, ◌≤◌, length};
ghost use Rattle.flt_c.specs.Fronts as fronts;
ghost use Rattle.flt_c.specs.Runs as spec;

use crate::front::{Front, is_space};
use crate::mode::Mode;

/// The bytes that are plain.
#[derive(Clone, Copy)]
pub enum Plain {
    /// None.
    No,
    /// In code: all but line feeds, backslashes, quotes, `/` and `R`.
    Code,
    /// Before the code of a line: blanks.
    Blank,
    /// In comments and between quotes: all but line feeds, backslashes and this byte, which may end them.
    Until(u8),
}

/// The plain bytes of code before which a line has this.
fn plain_in_code(front: Front) -> Plain
    ensures { result ≡ spec.plain_in_code front }
{
    match front {
        Front::Code | Front::Directive => Plain::Code,
        Front::Nothing => Plain::Blank,
        _ => Plain::No,
    }
}

/// The bytes that are plain in a mode, before the code of a line or after it.
pub(crate) fn plain_in(mode: Mode, front: Front) -> Plain
    ensures { result ≡ spec.plain_in mode front }
{
    match mode {
        Mode::Code => plain_in_code(front),
        Mode::Line | Mode::LineText => Plain::Until(b'\n'),
        Mode::Block | Mode::BlockText => Plain::Until(b'*'),
        Mode::String => Plain::Until(b'"'),
        Mode::Character => Plain::Until(b'\''),
        _ => Plain::No,
    }
}

/// Whether a byte of code may change more than the place.
fn is_special(b: u8) -> bool
    ensures { result ≡ spec.is_special b }
{
    matches!(b, b'\n' | b'"' | b'\'' | b'/' | b'R' | b'\\')
}

/// The same for a byte of a comment, or between quotes, which `last` may end.
fn is_end(last: u8, b: u8) -> bool
    ensures { result ≡ spec.is_end last b }
{
    b == last || b == b'\n' || b == b'\\'
}

/// The number of plain bytes of code with which a text begins.
fn code_count(z: &[u8]) -> usize
    ensures value { result ≡ spec.plain_count Plain.Code z.now }
    ensures within { result ≤ length z.now }
{
    let mut n: usize = 0;
    for b in z {
        if is_special(*b) {
            break;
        }
        n += 1;
    }
    n
}

/// The number of blanks with which it begins.
fn blank_count(z: &[u8]) -> usize
    ensures value { result ≡ spec.plain_count Plain.Blank z.now }
    ensures within { result ≤ length z.now }
{
    let mut n: usize = 0;
    for b in z {
        if !is_space(*b) {
            break;
        }
        n += 1;
    }
    n
}

/// The number of plain bytes of a comment, or between quotes.
fn count_until(last: u8, z: &[u8]) -> usize
    ensures value { result ≡ spec.plain_count (Plain.Until last) z.now }
    ensures within { result ≤ length z.now }
{
    let mut n: usize = 0;
    for b in z {
        if is_end(last, *b) {
            break;
        }
        n += 1;
    }
    n
}

/// The number of plain bytes with which a text begins.
pub(crate) fn plain_count(plain: Plain, z: &[u8]) -> usize
    ensures value { result ≡ spec.plain_count plain z.now }
    ensures within { result ≤ length z.now }
{
    match plain {
        Plain::No => 0,
        Plain::Code => code_count(z),
        Plain::Blank => blank_count(z),
        Plain::Until(last) => count_until(last, z),
    }
}
