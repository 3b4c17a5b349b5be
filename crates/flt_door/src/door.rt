//! Bytes that go out.

ghost use Rattle.std.specs.Io.KnownBytes.{Appends};
ghost use Rattle.std.specs.Prelude.{◌≡◌, ◌≢◌, ◌<◌, ◌≤◌, ◌+◌, ◌++◌, true, drop, length, replicate, take, IfOk, OnErr, OnOk};
ghost use Rattle.flt_door.specs.Door as spec;
ghost use Rattle.flt_shown.specs.Shown.{Text, sign_of as hidden_sign};

use crate::piece::piece;
use flt_model::{Sink, WriteFault, put_all};

/// The sign in place of each byte of a piece that doesn't pass, by its first one.
fn sign_of(byte: u8) -> u8
    ensures { result ≡ hidden_sign byte }
{
    match byte {
        b'\t' => b' ',
        _ => b'?',
    }
}

/// Puts a sign in place of so many bytes from a place on.
fn hide(bytes: &mut [u8], at: usize, count: usize, sign: u8)
    requires { at + count ≤ length bytes.old }
    ensures { bytes.new ≡ (take at bytes.old ++ replicate count sign) ++ drop (at + count) bytes.old }
{
    for offset in 0..count {
        bytes[at + offset] = sign;
    }
}

/// Lets the piece at a place out, and returns the place after it.
fn let_piece_out(bytes: &mut [u8], at: usize) -> usize
    requires { at < length bytes.old }
    ensures on { at < result }
    ensures within { result ≤ length bytes.old }
    ensures out { take result bytes.new ++ spec.at_door (drop result bytes.new) ≡ take at bytes.old ++ spec.at_door (drop at bytes.old) }
{
    let (more, passes) = piece(&bytes[at..]);
    let count = more + 1;
    if passes {
        return at + count;
    }
    let sign = sign_of(bytes[at]);
    hide(bytes, at, count, sign);
    at + count
}

/// Lets bytes out in place, each as one byte: line feeds, the program's own colours and characters that are shown stay, and in place of
/// each other byte there is its sign.
pub fn let_out(bytes: &mut [u8])
    ensures { bytes.new ≡ spec.at_door bytes.old }
{
    let mut at = 0;
    while at < bytes.len() {
        at = let_piece_out(bytes, at);
    }
}

/// How many of the first bytes are those of pieces that pass.
fn passing(bytes: &[u8]) -> usize
    ensures within { result ≤ length bytes.now }
    ensures front { spec.IsFront bytes.now result true }
{
    let mut at = 0;
    while at < bytes.len() {
        let (more, passes) = piece(&bytes[at..]);
        if passes {
            at += more + 1;
        } else {
            return at;
        }
    }
    at
}

/// Writes a sign several times.
fn put_signs<O: Sink>(out: &mut O, sign: u8, count: usize) -> Result<(), WriteFault>
    ensures ok { OnOk result (Appends (O.taken out.old) (O.taken out.new) (replicate count sign)) }
    ensures fine { OnOk result (O.failures out.new ≡ O.failures out.old) }
    ensures err { OnErr result (O.failures out.new ≢ O.failures out.old) }
{
    for _time in 0..count {
        put_all(out, &[sign])?;
    }
    Ok(())
}

/// Writes what goes out of the first bytes of some, and returns how many these are: some pieces that pass, or one that doesn't.
fn put_front<O: Sink>(out: &mut O, bytes: &[u8]) -> Result<usize, WriteFault>
    requires { 0 < length bytes.now }
    ensures count { IfOk result (λ n. (0 < n) × (n ≤ length bytes.now)) }
    ensures ok { IfOk result (λ n. (front : Text) × Appends (O.taken out.old) (O.taken out.new) front
        × (spec.at_door bytes.now ≡ front ++ spec.at_door (drop n bytes.now))) }
    ensures fine { OnOk result (O.failures out.new ≡ O.failures out.old) }
    ensures err { OnErr result (O.failures out.new ≢ O.failures out.old) }
{
    let (more, passes) = piece(bytes);
    let count = more + 1;
    if passes {
        let all = count + passing(&bytes[count..]);
        put_all(out, &bytes[..all])?;
        return Ok(all);
    }
    put_signs(out, sign_of(bytes[0]), count)?;
    Ok(count)
}

/// Writes what goes out of bytes: those that `let_out` leaves.
pub fn put_let_out<O: Sink>(out: &mut O, bytes: &[u8]) -> Result<(), WriteFault>
    ensures ok { OnOk result (Appends (O.taken out.old) (O.taken out.new) (spec.at_door bytes.now)) }
    ensures fine { OnOk result (O.failures out.new ≡ O.failures out.old) }
    ensures err { OnErr result (O.failures out.new ≢ O.failures out.old) }
{
    let mut at = 0;
    while at < bytes.len() {
        at += put_front(out, &bytes[at..])?;
    }
    Ok(())
}
